//! The reader on whole documents; the table of refusals is the stored run of `fx_config_test`.

use fx_config::{Config, ConfigError, Mechanism, read};
use std::alloc::Global;
use std::test::Fail;

/// A document of one library and one compartment, with more text before its tables.
fn with_top(alloc: Global, top: &str) -> Result<String, Fail> {
    let mut text = String::from_str(alloc, top)?;
    text.push_str(
        "\n[[library]]\nname = \"a\"\nfiles = [\"a.c\"]\n[[compartment]]\nname = \"a\"\nlibraries = [\"a\"]\n",
    )?;
    Ok(text)
}

fn refusal(alloc: Global, text: &[u8]) -> Option<ConfigError> {
    match read(alloc, text) {
        Ok(_) => None,
        Err(cause) => Some(cause),
    }
}

#[test]
fn a_document_means_its_fields(rt: HostRuntime) -> Result<(), Fail> {
    // A byte order mark may stand first.
    let text =
        b"\xEF\xBB\xBFmechanism = \"light\"\nscheduler = \"b\"\nstack_pages = 0x10\n[[library]]\nname = \"a\"\nfiles = [\"a.c\", \"b.c\"]\n[[compartment]]\nname = \"a\"\nlibraries = [\"a\"]\ncalls = []\n[[compartment]]\nname = \"b\"\nlibraries = []\ndevices = [2, 1]\n";
    let config: Config = read(rt.alloc(), text)?;
    assert_eq!(rt; config.mechanism, Mechanism::Light);
    assert_eq!(rt; config.stack_pages, 16);
    assert_eq!(rt; config.scheduler, 1);
    let libraries = config.libraries.as_slice();
    assert_eq!(rt; libraries.len(), 1);
    assert_eq!(rt; libraries[0].name.as_bytes(), b"a".as_slice());
    let files = libraries[0].files.as_slice();
    assert_eq!(rt; files.len(), 2);
    assert_eq!(rt; files[1].as_str(), "b.c");
    let compartments = config.compartments.as_slice();
    assert_eq!(rt; compartments.len(), 2);
    assert!(rt; compartments[0].calls.is_some());
    assert!(rt; compartments[1].calls.is_none());
    assert_eq!(rt; compartments[0].libraries.as_slice().len(), 1);
    assert_eq!(rt; compartments[1].devices.as_slice(), [2, 1].as_slice());
    Ok(())
}

#[test]
fn what_a_document_leaves_out(rt: HostRuntime) -> Result<(), Fail> {
    let plain = with_top(rt.alloc(), "mechanism = \"call\"")?;
    let config = read(rt.alloc(), plain.as_bytes())?;
    assert_eq!(rt; config.mechanism, Mechanism::Call);
    assert_eq!(rt; config.stack_pages, 4);
    assert_eq!(rt; config.scheduler, 0);
    Ok(())
}

#[test]
fn bytes_that_are_no_document(rt: HostRuntime) -> Result<(), Fail> {
    assert_eq!(rt; refusal(rt.alloc(), b""), Some(ConfigError::Missing));
    assert_eq!(rt; refusal(rt.alloc(), b"\xFF"), Some(ConfigError::NotToml));
    assert_eq!(rt;
        refusal(rt.alloc(), b"# \xC0\x80"),
        Some(ConfigError::NotToml)
    );
    assert_eq!(rt;
        refusal(rt.alloc(), b"mechanism = "),
        Some(ConfigError::NotToml)
    );
    let fast = with_top(rt.alloc(), "mechanism = \"fast\"")?;
    assert_eq!(rt;
        refusal(rt.alloc(), fast.as_bytes()),
        Some(ConfigError::OutOfRange)
    );
    Ok(())
}
