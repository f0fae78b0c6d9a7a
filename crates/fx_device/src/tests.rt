use crate::{BlockStore, Bus, BusError, Counter, Device, FailAt};
use fx_base::DeviceOp;
use std::test::Fail;

#[test]
fn operations_are_written_down(rt: HostRuntime) -> Result<(), Fail> {
    let alloc = rt.alloc();
    let mut devices: Vec<Box<dyn Device>> = Vec::new(alloc);
    devices.push(Box::new(alloc, BlockStore::new(alloc, 8)?)?)?;
    let failing = Vec::from_slice(alloc, &[3])?;
    devices.push(Box::new(alloc, FailAt::new(Counter::new(u64::MAX), failing))?)?;
    assert!(rt; devices.len() <= 15);
    let mut bus = Bus::new(alloc, devices);
    assert_eq!(rt; bus.store(1, 0, 5), Ok(()));
    assert_eq!(rt; bus.store(1, 1, 9), Ok(()));
    assert_eq!(rt; bus.load(1, 1), Ok(9));
    assert_eq!(rt; bus.load(1, 2), Ok(0));
    // Past the end a load gives 0.
    assert_eq!(rt; bus.store(1, 0, 8), Ok(()));
    assert_eq!(rt; bus.load(1, 1), Ok(0));
    // The counter wraps; its third call is the one listed, and the fourth succeeds.
    assert_eq!(rt; bus.load(2, 0), Ok(u64::MAX));
    assert_eq!(rt; bus.load(2, 0), Ok(0));
    assert_eq!(rt; bus.load(2, 0), Err(BusError::Device(2)));
    assert_eq!(rt; bus.load(2, 0), Ok(1));
    // Numbers without a box, and an unplugged one, give all ones.
    assert_eq!(rt; bus.load(3, 0), Ok(u64::MAX));
    assert_eq!(rt; bus.load(0, 1), Ok(u64::MAX));
    assert!(rt; bus.unplug(1));
    assert!(rt; !bus.unplug(1));
    assert_eq!(rt; bus.load(1, 1), Ok(u64::MAX));
    let console = DeviceOp {
        device: 0,
        reg: 0,
        write: true,
        value: 72,
    };
    assert_eq!(rt; bus.note(console), Ok(()));
    assert_eq!(rt; bus.transcript().len(), 13);
    let transcript = bus.into_transcript();
    assert_eq!(rt; transcript.as_slice().last().copied(), Some(console));
    Ok(())
}
