//! What words are a command `run`, with worked values.

use crate::words::{ExecWords, RunWords, number_of};
use std::alloc::{AllocError, Global};
use std::test::Fail;

/// The words of a text, parted by spaces.
fn words(alloc: Global, text: &str) -> Result<Vec<String>, AllocError> {
    let mut words = Vec::new(alloc);
    for word in text.split_whitespace() {
        words.push(String::from_str(alloc, word)?)?;
    }
    Ok(words)
}

#[test]
fn numbers_have_no_leading_zero_and_fit(rt: HostRuntime) -> Result<(), Fail> {
    let cases: [(&str, Option<u64>); 8] = [
        ("0", Some(0)),
        ("907", Some(907)),
        ("18446744073709551615", Some(u64::MAX)),
        ("18446744073709551616", None),
        ("01", None),
        ("", None),
        ("+1", None),
        ("1a", None),
    ];
    for (word, number) in cases {
        assert_eq!(rt; number_of(word.as_bytes()), number, "{word}");
    }
    Ok(())
}

#[test]
fn options_are_read(rt: HostRuntime) -> Result<(), Fail> {
    let words = words(rt.alloc(), "run a.img --unplug 15 0 --schedule s --steps 7")?;
    let run = RunWords::of(&words).ok_or("no command")?;
    assert_eq!(rt; run.image, "a.img");
    assert_eq!(rt; run.options.steps, Some(7));
    assert_eq!(rt; run.options.schedule, Some("s"));
    assert_eq!(rt; run.options.unplug, Some((15, 0)));
    Ok(())
}

#[test]
fn options_of_exec_are_read(rt: HostRuntime) -> Result<(), Fail> {
    let words = words(rt.alloc(), "exec a.toml a.img --steps 7 --unplug 2 9")?;
    let exec = ExecWords::of(&words).ok_or("no command")?;
    assert_eq!(rt; exec.config, "a.toml");
    assert_eq!(rt; exec.run.image, "a.img");
    assert_eq!(rt; exec.run.options.steps, Some(7));
    assert!(rt; exec.run.options.schedule.is_none());
    assert_eq!(rt; exec.run.options.unplug, Some((2, 9)));
    Ok(())
}

#[test]
fn other_words_are_no_command(rt: HostRuntime) -> Result<(), Fail> {
    let cases = [
        "",
        "run",
        "Run x",
        "run -x",
        "run x --steps",
        "run x --steps 01",
        "run x --steps 1 --steps 2",
        "run x --schedule -s",
        "run x --unplug 1",
        "run x --unplug 0 1",
        "run x --unplug 16 1",
        "run x --unplug 1 1 --unplug 2 1",
        "run x --replace a b",
        "run x y",
        "run --steps 1 x",
        "exec",
        "exec a",
        "exec -a b",
        "exec a -b",
        "exec a b c",
        "exec a --steps 1 b",
        "exec a b --replace c d",
        "Exec a b",
    ];
    for text in cases {
        let words = words(rt.alloc(), text)?;
        assert!(rt; RunWords::of(&words).is_none(), "{text}");
        assert!(rt; ExecWords::of(&words).is_none(), "{text}");
    }
    Ok(())
}
