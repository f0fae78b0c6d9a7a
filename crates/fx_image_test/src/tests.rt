//! Each public call of the image, on images by hand.

use crate::images::{call, call_1, ept, full, light, put, put_wrpkru};
use fx_image::{Found, ImageError, migrate, object_of, pkru_of, print, read};
use std::alloc::Global;
use std::process;
use std::test::Fail;

fn prints_again(rt: &impl process::Abort, alloc: Global, bytes: &[u8]) -> Result<(), Fail> {
    let image = read(alloc, bytes)?;
    let again = print(alloc, &image)?;
    assert!(rt; again.as_slice() == bytes);
    Ok(())
}

#[test]
fn each_mechanism_prints_again(rt: HostRuntime) -> Result<(), Fail> {
    prints_again(&rt, rt.alloc(), &call(rt.alloc())?)?;
    prints_again(&rt, rt.alloc(), &call_1(rt.alloc())?)?;
    prints_again(&rt, rt.alloc(), &light(rt.alloc())?)?;
    prints_again(&rt, rt.alloc(), &full(rt.alloc())?)?;
    prints_again(&rt, rt.alloc(), &ept(rt.alloc())?)
}

#[test]
fn version_1_migrates(rt: HostRuntime) -> Result<(), Fail> {
    let first = read(rt.alloc(), &call_1(rt.alloc())?)?;
    assert_eq!(rt; first.threads, 8);
    let second = print(rt.alloc(), &migrate(rt.alloc(), &first)?)?;
    // The image of version 2 has 16 threads, in its byte 9.
    let mut wanted = call(rt.alloc())?;
    put(&mut wanted, 9, 8);
    assert!(rt; second.as_slice() == wanted.as_slice());
    Ok(())
}

#[test]
fn version_2_stays(rt: HostRuntime) -> Result<(), Fail> {
    let bytes = full(rt.alloc())?;
    let image = read(rt.alloc(), &bytes)?;
    let same = print(rt.alloc(), &migrate(rt.alloc(), &image)?)?;
    assert!(rt; same.as_slice() == bytes.as_slice());
    Ok(())
}

#[test]
fn changed_images_are_refused(rt: HostRuntime) -> Result<(), Fail> {
    let mut bytes = call(rt.alloc())?;
    let (_, front) = bytes.split_last().ok_or("no bytes")?;
    assert_eq!(rt; read(rt.alloc(), front).err(), Some(ImageError::Short));
    put_wrpkru(&mut bytes, 45 + 5);
    assert_eq!(rt;
        read(rt.alloc(), &bytes).err(),
        Some(ImageError::KeySequence(5))
    );
    bytes.push(0)?;
    assert_eq!(rt; read(rt.alloc(), &bytes).err(), Some(ImageError::Extra));
    put(&mut bytes, 8, 65);
    assert_eq!(rt; read(rt.alloc(), &bytes).err(), Some(ImageError::Field(5)));
    put(&mut bytes, 0, 0x47);
    assert_eq!(rt; read(rt.alloc(), &bytes).err(), Some(ImageError::Magic));
    Ok(())
}

#[test]
fn pkru_values_of_two_compartments(rt: HostRuntime) -> Result<(), Fail> {
    let image = read(rt.alloc(), &full(rt.alloc())?)?;
    let sections = image.sections.as_slice();
    assert_eq!(rt; pkru_of(sections, 0, 0), 0xffff_fcc0);
    assert_eq!(rt; pkru_of(sections, 0, 1), 0xffff_fc38);
    Ok(())
}

fn stack(thread: u8, compartment: u8, offset: u64) -> Found {
    Found::Stack {
        thread,
        compartment,
        offset,
    }
}

fn object(object: u32, offset: u64) -> Found {
    Found::Object { object, offset }
}

#[test]
fn addresses_in_objects_and_stacks(rt: HostRuntime) -> Result<(), Fail> {
    let full = read(rt.alloc(), &full(rt.alloc())?)?;
    for (address, found) in [
        (0x1000_0fff, object(0, 4095)),
        (0x1000_1000, Found::Nothing),
        (0x1000_2001, object(1, 1)),
        (0x2000_0fff, Found::Nothing),
        (0x2000_1000 + 16304, stack(0, 0, 16304)),
        (0x2000_1000 + 32688, stack(0, 0, 32688)),
        (0x2000_9000, Found::Nothing),
        (0x2000_b000, stack(0, 1, 0)),
        (u64::MAX, Found::Nothing),
    ] {
        assert_eq!(rt; object_of(&full, address), found, "{address:x}");
    }
    Ok(())
}
