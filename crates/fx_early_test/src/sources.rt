//! Which texts are programs of constants, by hand.

use fx_early_source::{SourceError, read};
use std::alloc::AllocError;
use std::test::Fail;

/// A program of so many statements, each putting `A`.
fn program_of(rt: &HostRuntime, count: usize) -> Result<Vec<u8>, AllocError> {
    let mut text = Vec::from_slice(rt.alloc(), b"void main(){")?;
    for _ in 0..count {
        text.extend_from_slice(b"__putc(65);")?;
    }
    text.extend_from_slice(b"}")?;
    Ok(text)
}

#[test]
fn programs_are_read(rt: HostRuntime) -> Result<(), Fail> {
    let accepted: [(&str, &[u8]); 6] = [
        ("void main() { }", b""),
        ("void main() { __putc(72); }", b"H"),
        ("void\tmain\r\n(\n)\n{return;}", b""),
        (
            "  void main ( ) { __putc ( 0 ) ; __putc(10);__putc(255); return ; } \n",
            &[0, 10, 255],
        ),
        (
            "\n\r\t void \n\r\t main(){__putc(9);__putc(99);__putc(100);}\n",
            &[9, 99, 100],
        ),
        ("void main(){__putc(249);__putc(250);return;}", &[249, 250]),
    ];
    for (text, constants) in accepted {
        let read = read(rt.alloc(), text.as_bytes()).ok().ok_or("refused")?;
        assert_eq!(rt; read.as_slice(), constants, "{text}");
    }
    Ok(())
}

#[test]
fn other_texts_are_refused(rt: HostRuntime) {
    let refused = [
        "",
        "voidmain(){}",
        "void main(){",
        "void main(){}}",
        "void main(){__putc(256);}",
        "void main(){__putc(00);}",
        "void main(){__putc(072);}",
        "void main(){__putc();}",
        "void main(){__putc(7 2);}",
        "void main(){__pu tc(72);}",
        "void main(){__putc(72)}",
        "void main(){return;__putc(72);}",
        "void main(){return}",
        "void main(void){}",
        "void main(){/**/}",
        "void main(){}\0",
        "void\x0Bmain(){}",
    ];
    for text in refused {
        let result = read(rt.alloc(), text.as_bytes());
        assert!(rt; matches!(&result, Err(SourceError::Form)), "{text}");
    }
}

#[test]
fn a_thousand_statements_are_the_most(rt: HostRuntime) -> Result<(), Fail> {
    let most = read(rt.alloc(), program_of(&rt, 1000)?.as_slice())
        .ok()
        .ok_or("1000")?;
    assert_eq!(rt; most.len(), 1000);
    let more = read(rt.alloc(), program_of(&rt, 1001)?.as_slice());
    assert!(rt; matches!(&more, Err(SourceError::Form)));
    Ok(())
}
