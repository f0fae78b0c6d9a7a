//! The code of one constant, written out by hand.

use fx_early_image::build::build;
use std::test::Fail;

const RANGE: usize = 4096;

#[test]
fn one_constant_is_laid_out(rt: HostRuntime) -> Result<(), Fail> {
    let image = build(rt.alloc(), &[72])?;
    let code = image.code.as_slice();
    assert_eq!(rt; code.len(), 2 * RANGE);
    // jmp main, and the rest of the entry
    let jump = [0xe9, 0x0b, 0, 0, 0, 0xf4];
    assert_eq!(rt; &code[..6], jump.as_slice());
    // mov rax, 0xf100000; mov rcx, 72; mov [rax], rcx; ret
    let main = [
        0x48, 0xc7, 0xc0, 0, 0, 0x10, 0x0f, 0x48, 0xc7, 0xc1, 72, 0, 0, 0, 0x48, 0x89, 0x88, 0, 0,
        0, 0, 0xc3, 0xf4,
    ];
    assert_eq!(rt; &code[16..39], main.as_slice());
    // call the entry table; mov rax, 0; mov rdi, 0; hlt; mov rax, 4; hlt
    let runtime = [
        0xe8, 0xfb, 0xef, 0xff, 0xff, 0x48, 0xc7, 0xc0, 0, 0, 0, 0, 0x48, 0xc7, 0xc7, 0, 0, 0, 0,
        0xf4, 0x48, 0xc7, 0xc0, 4, 0, 0, 0, 0xf4, 0xf4,
    ];
    assert_eq!(rt; &code[RANGE..RANGE + 29], runtime.as_slice());
    assert_eq!(rt; image.abort, 4116);
    assert_eq!(rt; image.compartments.as_slice()[0].len, 4096);
    Ok(())
}

#[test]
fn the_most_constants_fit(rt: HostRuntime) -> Result<(), Fail> {
    let image = build(rt.alloc(), &[255; 1000])?;
    assert_eq!(rt; image.code.len(), 5 * RANGE);
    Ok(())
}
