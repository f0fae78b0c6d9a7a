//! The top call over files and streams in memory: what each command answers, writes and prints.

use crate::texts::help;
use crate::top::flexos;
use fx_base::{MemFiles, MemSink, MemSource};
use fx_cmd_exec::inputs::EARLY_DOCUMENT;
use std::alloc::{AllocError, Global};
use std::test::Fail;

/// What a command left.
#[derive(Drop)]
struct Left {
    status: u8,
    files: MemFiles,
    out: MemSink,
    err: MemSink,
}

/// The words of a text, parted by spaces.
fn words(alloc: Global, text: &str) -> Result<Vec<String>, AllocError> {
    let mut words = Vec::new(alloc);
    for word in text.split_whitespace() {
        words.push(String::from_str(alloc, word)?)?;
    }
    Ok(words)
}

/// Runs a command over files, with an output of this capacity.
fn over(alloc: Global, text: &str, mut files: MemFiles, capacity: u64) -> Result<Left, AllocError> {
    let words = words(alloc, text)?;
    let mut input = MemSource::new(Vec::new(alloc), Vec::new(alloc));
    let mut out = MemSink::new(alloc, capacity, 3, Vec::new(alloc))?;
    let mut err = MemSink::new(alloc, 100, 100, Vec::new(alloc))?;
    let status = flexos(
        alloc,
        &words,
        &mut files,
        &mut input,
        &mut out,
        &mut err,
        Vec::new(alloc),
    );
    Ok(Left {
        status,
        files,
        out,
        err,
    })
}

/// Runs a command over these files, whose calls of one number fail, with an output of this capacity.
fn command(
    alloc: Global,
    text: &str,
    files: &[(&str, &[u8])],
    failing: u64,
    capacity: u64,
) -> Result<Left, AllocError> {
    let mut held = MemFiles::new(alloc, vec![in alloc; failing]?);
    for (name, bytes) in files {
        held.add(name, bytes)?;
    }
    over(alloc, text, held, capacity)
}

const EXEC: &str = "exec conf.toml out.img";

/// Runs `exec` of a source, with no fault.
fn exec(alloc: Global, source: &[u8]) -> Result<Left, AllocError> {
    let files = [("conf.toml", EARLY_DOCUMENT.as_bytes()), ("a.c", source)];
    command(alloc, EXEC, &files, 0, 2000)
}

#[test]
fn programs_run_and_print(rt: HostRuntime) -> Result<(), Fail> {
    let cases: [(&str, &[u8], &str); 4] = [
        ("void main() { __putc(72); }", b"H", "exit 0 in 9 turns\n"),
        ("void main() { }", b"", "exit 0 in 7 turns\n"),
        ("void main() { return; }", b"", "exit 0 in 7 turns\n"),
        (
            "void\tmain(\r\n) {__putc(0);__putc ( 255 );__putc(10); return ; }\n",
            &[0, 255, 10],
            "exit 0 in 13 turns\n",
        ),
    ];
    for (source, output, line) in cases {
        let left = exec(rt.alloc(), source.as_bytes())?;
        assert_eq!(rt; left.status, 0, "{source}");
        assert_eq!(rt; left.out.bytes(), output, "{source}");
        assert_eq!(rt; left.err.bytes(), line.as_bytes(), "{source}");
        let image = left.files.get("out.img").ok_or("no image")?;
        assert!(rt; image.starts_with(b"FXIM"), "{source}");
    }
    Ok(())
}

#[test]
fn runs_of_exec_take_options(rt: HostRuntime) -> Result<(), Fail> {
    let cases: [(&str, u8, &[u8], &str); 5] = [
        ("--steps 3", 8, b"", "steps spent: 3\n"),
        ("--schedule s --steps 9", 0, b"H", "exit 0 in 9 turns\n"),
        ("--schedule out.img", 0, b"H", "exit 0 in 9 turns\n"),
        ("--schedule t", 4, b"", "no file: t\n"),
        ("--unplug 2 0 --steps 8", 8, b"H", "steps spent: 8\n"),
    ];
    for (options, status, output, line) in cases {
        let files: [(&str, &[u8]); 3] = [
            ("conf.toml", EARLY_DOCUMENT.as_bytes()),
            ("a.c", b"void main() { __putc(72); }"),
            ("s", &[1, 255, 0, 7, 2, 2]),
        ];
        let text = format!(in rt.alloc(); "{EXEC} {options}")?;
        let left = command(rt.alloc(), text.as_str(), &files, 0, 2000)?;
        assert_eq!(rt; left.status, status, "{options}");
        assert_eq!(rt; left.out.bytes(), output, "{options}");
        assert_eq!(rt; left.err.bytes(), line.as_bytes(), "{options}");
        let image = left.files.get("out.img").ok_or("no image")?;
        assert!(rt; image.starts_with(b"FXIM"), "{options}");
    }
    Ok(())
}

/// The configuration of two libraries in a compartment each, separated by nothing.
const TWO_UNDER_CALL: &[u8] = b"mechanism = 'call'
library = [{ name = 'a', files = ['a.c'] }, { name = 'b', files = ['b.c'] }]
compartment = [{ name = 'a', libraries = ['a'] }, { name = 'b', libraries = ['b'] }]
";

#[test]
fn any_program_is_built_and_run(rt: HostRuntime) -> Result<(), Fail> {
    let alloc = rt.alloc();
    let cases: [(&str, &str, u8, &str); 7] = [
        (
            "__entry long pong(long x) { return x + 1; } long main() { return __gate(ping, 40); }",
            "__entry long ping(long x) { return __gate(pong, x) + 1; }",
            0,
            "exit 42 in 62 turns\n",
        ),
        (
            "long secret = 7; long main() { return __gate(peek, &secret); }",
            "__entry long peek(long *p) { return *p; }",
            0,
            "exit 7 in 41 turns\n",
        ),
        (
            "long main() { return 0xEF010FEF010F; }",
            "",
            0,
            "exit 262787841327375 in 27 turns\n",
        ),
        (
            "long main() { int a = 1; int b = -1; a = a << 31; return a / b; }",
            "",
            9,
            "divide\n",
        ),
        (
            "long main() { __switch(5); return 0; }",
            "",
            9,
            "bad thread\n",
        ),
        (
            "long r(long n) { return r(n + 1); } long main() { return r(0); }",
            "",
            7,
            "stack full: thread 0 stack common\n",
        ),
        (
            "long main() { return __getc(); }",
            "",
            0,
            "exit -1 in 21 turns\n",
        ),
    ];
    for (a, b, status, line) in cases {
        let files = [
            ("conf.toml", TWO_UNDER_CALL),
            ("a.c", a.as_bytes()),
            ("b.c", b.as_bytes()),
        ];
        let left = command(alloc, EXEC, &files, 0, 2000)?;
        assert_eq!(rt; left.status, status, "{a}");
        assert!(rt; left.out.bytes().is_empty(), "{a}");
        assert_eq!(rt; left.err.bytes(), line.as_bytes(), "{a}");
        let left = over(alloc, "run out.img", left.files, 2000)?;
        assert_eq!(rt; left.status, status, "{a}");
        assert_eq!(rt; left.err.bytes(), line.as_bytes(), "{a}");
    }
    Ok(())
}

#[test]
fn images_are_run_again(rt: HostRuntime) -> Result<(), Fail> {
    let alloc = rt.alloc();
    let Left { mut files, .. } = exec(alloc, b"void main() { __putc(72); }")?;
    let cases: [(&str, u8, &[u8], &str); 4] = [
        ("run out.img", 0, b"H", "exit 0 in 9 turns\n"),
        ("run out.img --steps 9", 0, b"H", "exit 0 in 9 turns\n"),
        ("run out.img --steps 8", 8, b"H", "steps spent: 8\n"),
        ("run a.c", 3, b"", "refused: image Magic\n"),
    ];
    for (text, status, output, line) in cases {
        let left = over(alloc, text, files, 2000)?;
        assert_eq!(rt; left.status, status, "{text}");
        assert_eq!(rt; left.out.bytes(), output, "{text}");
        assert_eq!(rt; left.err.bytes(), line.as_bytes(), "{text}");
        files = left.files;
    }
    Ok(())
}

const PLACED: &str = "0000000010000000 2 4096 .rt.a
0000000010001010 2 4 x
0000000010001030 2 8 y
0000000010003000 3 4096 .rt.b
0000000010004010 3 1 z
0000000010006000 4 8 s
";

const TWO_COMPARTMENTS: &[u8] = b"mechanism = 'full'
library = [{ name = 'a', files = ['a.c'] }, { name = 'b', files = ['b.c'] }]
compartment = [{ name = 'a', libraries = ['a'] }, { name = 'b', libraries = ['b'] }]
";

#[test]
fn programs_are_placed(rt: HostRuntime) -> Result<(), Fail> {
    let alloc = rt.alloc();
    let files: [(&str, &[u8]); 3] = [
        ("conf.toml", TWO_COMPARTMENTS),
        ("a.c", b"int x; long y; void main() { }"),
        ("b.c", b"char z; __shared(*) long s;"),
    ];
    let left = command(alloc, "place conf.toml", &files, 0, 2000)?;
    assert_eq!(rt; left.status, 0);
    assert_eq!(rt; left.out.bytes(), PLACED.as_bytes());
    assert!(rt; left.err.bytes().is_empty());
    let left = command(alloc, "place conf.toml", &files[..2], 0, 2000)?;
    assert_eq!(rt; left.status, 4);
    assert_eq!(rt; left.err.bytes(), b"no file: b.c\n".as_slice());
    let left = command(alloc, "place other.toml", &files, 0, 2000)?;
    assert_eq!(rt; left.status, 4);
    assert_eq!(rt; left.err.bytes(), b"no file: other.toml\n".as_slice());
    Ok(())
}

#[test]
fn a_program_runs_in_one_compartment(rt: HostRuntime) -> Result<(), Fail> {
    let alloc = rt.alloc();
    let files: [(&str, &[u8]); 3] = [
        ("conf.toml", TWO_COMPARTMENTS),
        (
            "a.c",
            b"long secret = 7; long main() { return __gate(peek, &secret); }",
        ),
        ("b.c", b"__entry long peek(long *p) { return *p; }"),
    ];
    let left = command(alloc, "single conf.toml", &files, 0, 2000)?;
    assert_eq!(rt; left.status, 0);
    assert!(rt; left.out.bytes().is_empty());
    assert_eq!(rt; left.err.bytes(), b"exit 7 in 22 steps\n".as_slice());
    let left = command(alloc, "single conf.toml --steps 21", &files, 0, 2000)?;
    assert_eq!(rt; left.status, 8);
    assert_eq!(rt; left.err.bytes(), b"steps spent: 21\n".as_slice());
    Ok(())
}

#[test]
fn images_are_built(rt: HostRuntime) -> Result<(), Fail> {
    let alloc = rt.alloc();
    let files = [
        ("conf.toml", EARLY_DOCUMENT.as_bytes()),
        ("a.c", b"long main() { return 6 + 1; }".as_slice()),
    ];
    let left = command(alloc, "build conf.toml out.img", &files, 0, 10)?;
    assert_eq!(rt; left.status, 0);
    assert!(rt; left.out.bytes().is_empty());
    assert!(rt; left.err.bytes().is_empty());
    let left = over(alloc, "show out.img", left.files, 4000)?;
    assert_eq!(rt; left.status, 0);
    let head = b"FlexOS image, version 2\nmechanism call, ";
    assert!(rt; left.out.bytes().starts_with(head));
    let left = over(alloc, "run out.img", left.files, 10)?;
    assert_eq!(rt; left.status, 0);
    assert!(rt; left.err.bytes().starts_with(b"exit 7 in "));
    Ok(())
}

#[test]
fn refused_builds_write_no_file(rt: HostRuntime) -> Result<(), Fail> {
    let alloc = rt.alloc();
    let conf = ("conf.toml", EARLY_DOCUMENT.as_bytes());
    let full = ("conf.toml", TWO_COMPARTMENTS);
    let short = ("conf.toml", b"mechanism = \"full\"\n".as_slice());
    let good = ("a.c", b"long main() { return 7; }".as_slice());
    let bad = ("a.c", b"long main() { return x; }".as_slice());
    let text = ("a.c", b"long main( {".as_slice());
    let cases: [(&[(&str, &[u8])], u64, u8, &str); 9] = [
        (&[good], 0, 4, "no file: conf.toml\n"),
        (&[short, good], 0, 3, "refused: config Missing\n"),
        // The mechanism is refused before a source is read.
        (&[full], 0, 3, "refused: early Config\n"),
        (&[conf], 0, 4, "no file: a.c\n"),
        (&[conf, text], 0, 3, "refused: parse file 0 Syntax 0\n"),
        (&[conf, bad], 0, 3, "refused: types UnknownName 0\n"),
        (&[conf, good], 1, 4, "file fault: conf.toml\n"),
        (&[conf, good], 2, 4, "file fault: a.c\n"),
        (&[conf, good], 3, 4, "file fault: out.img\n"),
    ];
    for (files, failing, status, line) in cases {
        let left = command(alloc, "build conf.toml out.img", files, failing, 10)?;
        assert_eq!(rt; left.status, status, "{line}");
        assert_eq!(rt; left.err.bytes(), line.as_bytes());
        assert!(rt; left.files.get("out.img").is_none(), "{line}");
    }
    Ok(())
}

#[test]
fn images_are_shown_and_migrated(rt: HostRuntime) -> Result<(), Fail> {
    let alloc = rt.alloc();
    let Left { files, .. } = exec(alloc, b"void main() { }")?;
    let left = over(alloc, "show out.img", files, 4000)?;
    assert_eq!(rt; left.status, 0);
    assert!(rt; left.err.bytes().is_empty());
    let head = b"FlexOS image, version 2\nmechanism call, ";
    assert!(rt; left.out.bytes().starts_with(head));
    let left = over(alloc, "migrate out.img new.img", left.files, 0)?;
    assert_eq!(rt; left.status, 0);
    assert!(rt; left.err.bytes().is_empty());
    assert_eq!(rt; left.files.get("new.img"), left.files.get("out.img"));
    let left = over(alloc, "migrate a.c b.img", left.files, 0)?;
    assert_eq!(rt; left.status, 3);
    assert_eq!(rt; left.err.bytes(), b"refused: image Magic\n".as_slice());
    assert!(rt; left.files.get("b.img").is_none());
    Ok(())
}

#[test]
fn texts_are_put(rt: HostRuntime) -> Result<(), Fail> {
    let cases: [(&str, u64, u8, &str, &str); 5] = [
        ("help", 2000, 0, help(), ""),
        ("--help", 2000, 0, help(), ""),
        ("-h", 2000, 0, help(), ""),
        ("--version", 2000, 0, "flexos 0.1\n", ""),
        ("--version", 6, 5, "flexos", "write fault\n"),
    ];
    for (word, capacity, status, output, line) in cases {
        let left = command(rt.alloc(), word, &[], 0, capacity)?;
        assert_eq!(rt; left.status, status, "{word}");
        assert_eq!(rt; left.out.bytes(), output.as_bytes(), "{word}");
        assert_eq!(rt; left.err.bytes(), line.as_bytes(), "{word}");
    }
    Ok(())
}

#[test]
fn other_words_are_usage(rt: HostRuntime) -> Result<(), Fail> {
    let cases = [
        "",
        "build a.toml",
        "build a.toml -x",
        "build a.toml out.img more",
        "run x --steps 01",
        "exec conf.toml",
        "exec -x out.img",
        "exec conf.toml -out",
        "exec conf.toml out.img more",
        "exec conf.toml out.img --steps",
        "exec conf.toml out.img --steps 1 --steps 2",
        "exec conf.toml out.img --unplug 0 1",
        "exec conf.toml --steps 1 out.img",
        "Exec conf.toml out.img",
        "place",
        "place -x",
        "place conf.toml more",
        "single",
        "single conf.toml --steps",
        "show",
        "show -x",
        "show out.img --code",
        "migrate out.img",
        "migrate out.img -x",
        "migrate out.img new.img more",
        "help more",
        "--version more",
        "-help",
    ];
    for text in cases {
        let files = [("conf.toml", EARLY_DOCUMENT.as_bytes())];
        let left = command(rt.alloc(), text, &files, 1, 10)?;
        assert_eq!(rt; left.status, 2, "{text}");
        assert_eq!(rt; left.err.bytes(), b"usage\n".as_slice(), "{text}");
    }
    Ok(())
}

#[test]
fn refusals_and_faults_have_their_lines(rt: HostRuntime) -> Result<(), Fail> {
    let alloc = rt.alloc();
    let conf = ("conf.toml", EARLY_DOCUMENT.as_bytes());
    let full = ("conf.toml", TWO_COMPARTMENTS);
    let short = ("conf.toml", b"mechanism = \"call\"\n".as_slice());
    let good = ("a.c", b"void main(){__putc(72);}".as_slice());
    let other = ("a.c", b"void main(){__putc(256);}".as_slice());
    let bad = ("a.c", b"void main(){x=1;}".as_slice());
    let none = ("b.c", b"".as_slice());
    let cases: [(&[(&str, &[u8])], u64, u64, u8, &str); 12] = [
        (&[conf, good], 1, 9, 4, "file fault: conf.toml\n"),
        (&[conf, good], 2, 9, 4, "file fault: a.c\n"),
        (&[conf, good], 3, 9, 4, "file fault: out.img\n"),
        (&[good], 0, 9, 4, "no file: conf.toml\n"),
        (&[conf], 0, 9, 4, "no file: a.c\n"),
        (&[full, good, none], 0, 9, 3, "refused: early Config\n"),
        (&[short, good], 0, 9, 3, "refused: config Missing\n"),
        (&[conf, bad], 0, 9, 3, "refused: types UnknownName 0\n"),
        (&[conf, other], 3, 9, 4, "file fault: conf.toml\n"),
        (&[conf, other], 5, 9, 4, "file fault: out.img\n"),
        (&[conf, other], 0, 0, 5, "write fault\n"),
        (&[conf, good], 0, 0, 5, "write fault\n"),
    ];
    for (files, failing, capacity, status, line) in cases {
        let left = command(alloc, EXEC, files, failing, capacity)?;
        assert_eq!(rt; left.status, status, "{line}");
        assert_eq!(rt; left.err.bytes(), line.as_bytes());
        assert_eq!(rt; left.files.get("out.img").is_some(), status == 5, "{line}");
    }
    Ok(())
}

/// A program of so many statements, filled up with spaces to so many bytes.
fn program_of(alloc: Global, statements: usize, bytes: usize) -> Result<Vec<u8>, AllocError> {
    let mut text = Vec::from_slice(alloc, b"void main(){")?;
    for _ in 0..statements {
        text.extend_from_slice(b"__putc(65);")?;
    }
    text.extend_from_slice(b"}")?;
    for _ in text.len()..bytes {
        text.push(b' ')?;
    }
    Ok(text)
}

#[test]
fn sources_have_their_limits(rt: HostRuntime) -> Result<(), Fail> {
    let alloc = rt.alloc();
    let cases = [
        (1000, 0, 0, "exit 0 in 2007 turns\n"),
        (1001, 0, 0, "exit 0 in 4023 turns\n"),
        (1, 1_048_576, 0, "exit 0 in 9 turns\n"),
        (1, 1_048_577, 4, "file too long: a.c\n"),
    ];
    for (statements, bytes, status, line) in cases {
        let left = exec(alloc, &program_of(alloc, statements, bytes)?)?;
        assert_eq!(rt; left.status, status, "{line}");
        assert_eq!(rt; left.err.bytes(), line.as_bytes());
    }
    Ok(())
}
