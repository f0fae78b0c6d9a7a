//! What the objects in memory answer, call by call, and that each call that takes memory succeeds.

use crate::*;
use std::test::Fail;

#[test]
fn source_gives_bytes_and_fails_where_listed(rt: HostRuntime) -> Result<(), Fail> {
    let bytes = b"ab".to_vec(rt.alloc())?;
    let mut source = MemSource::new(bytes, vec![in rt.alloc(); 2, 5]?);
    assert_eq!(rt; source.byte(), Ok(Some(b'a')));
    assert_eq!(rt; source.byte(), Err(SourceFailed));
    assert_eq!(rt; source.byte(), Ok(Some(b'b')));
    assert_eq!(rt; source.byte(), Ok(None));
    assert_eq!(rt; source.byte(), Err(SourceFailed));
    assert_eq!(rt; source.byte(), Ok(None));
    Ok(())
}

#[test]
fn sink_takes_pieces_until_it_is_full(rt: HostRuntime) -> Result<(), Fail> {
    let mut sink = MemSink::new(rt.alloc(), 7, 3, vec![in rt.alloc(); 3]?)?;
    assert_eq!(rt; sink.put(b"hello"), Ok(3));
    assert_eq!(rt;
        put_all(&mut sink, b"lo world"),
        Err(WriteFault { taken: 3 })
    );
    assert_eq!(rt; sink.put(b""), Ok(0));
    assert_eq!(rt; put_all(&mut sink, b"world"), Err(WriteFault { taken: 1 }));
    assert_eq!(rt; sink.bytes(), b"hello w".as_slice());
    Ok(())
}

#[test]
fn files_are_read_and_written(rt: HostRuntime) -> Result<(), Fail> {
    let alloc = rt.alloc();
    let mut files = MemFiles::new(alloc, vec![in alloc; 4]?);
    files.add("a", b"first")?;
    files.add("b", b"second")?;
    files.add("a", b"third")?;
    assert_eq!(rt;
        files.read(alloc, "a", 5).ok().ok_or("a")?.as_slice(),
        b"third".as_slice()
    );
    assert!(rt; matches!(&files.read(alloc, "b", 5), Err(FileError::TooLong)));
    assert!(rt; matches!(&files.read(alloc, "c", 5), Err(FileError::Missing)));
    assert_eq!(rt; files.write(alloc, "b", b"x"), Err(FileError::Failed));
    assert_eq!(rt; files.get("b"), Some(b"second".as_slice()));
    assert_eq!(rt; files.write(alloc, "b", b"x"), Ok(()));
    assert_eq!(rt; files.get("b"), Some(b"x".as_slice()));
    assert_eq!(rt; files.get("c"), None);
    Ok(())
}

#[test]
fn transcript_keeps_order(rt: HostRuntime) -> Result<(), Fail> {
    let load = DeviceOp {
        device: 0,
        reg: 0,
        write: false,
        value: 7,
    };
    let store = DeviceOp {
        write: true,
        ..load
    };
    let mut transcript = Transcript::new(rt.alloc());
    transcript.push(load)?;
    transcript.push(store)?;
    assert_eq!(rt; transcript.as_slice(), [load, store].as_slice());
    assert_eq!(rt; transcript.len(), 2);
    assert!(rt; !transcript.is_empty());
    let again = Transcript::from_vec(transcript.into_vec());
    assert_eq!(rt; again.into_vec().as_slice(), [load, store].as_slice());
    Ok(())
}
