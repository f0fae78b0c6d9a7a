//! Which accesses PKRU values permit, and that pages can be mapped.

ghost use Rattle.fx_vm_pages.specs.Access.{HasKey};

use bitflags::Flags;
use fx_vm_pages::access::{Access, Refusal, permits};
use fx_vm_pages::entry::{Entry, PageFlags, Pkru};
use fx_vm_pages::space::{MapError, Space};

/// An entry with a key whose flags have these bits: 1 to write, 2 to execute, 4 for a device.
fn page(bits: u8, key: u8) -> Option<Entry>
    ensures { HasKey result }
{
    Some(Entry {
        frame: 7,
        flags: PageFlags::from_bits_retain(bits),
        key: key % 16,
    })
}

#[test]
fn pkru_permits(rt: HostRuntime) {
    // Of two compartments, a may read and write keys 0, 1, 2 and 4; b may read and write keys 0, 3 and
    // 4, and read key 1.
    let a = Pkru(0xffff_fcc0);
    let b = Pkru(0xffff_fc38);
    let rows: [(u8, u8, Pkru, Access, Result<(), Refusal>); 14] = [
        (1, 3, a, Access::Read, Err(Refusal::Key)),
        (1, 1, a, Access::Write, Ok(())),
        (0, 1, b, Access::Read, Ok(())),
        (1, 1, b, Access::Write, Err(Refusal::Key)),
        (2, 2, b, Access::Fetch, Ok(())),
        (1, 2, b, Access::Read, Err(Refusal::Key)),
        (1, 2, a, Access::Write, Ok(())),
        (1, 15, a, Access::Write, Err(Refusal::Key)),
        (2, 3, a, Access::Write, Err(Refusal::Permission)),
        (1, 0, a, Access::Fetch, Err(Refusal::Permission)),
        (0, 0, a, Access::Read, Ok(())),
        (3, 15, Pkru(u32::MAX), Access::Fetch, Ok(())),
        (1, 5, Pkru(1 << 11), Access::Read, Ok(())),
        (1, 5, Pkru(1 << 10), Access::Write, Err(Refusal::Key)),
    ];
    for (bits, key, pkru, access, answer) in rows {
        assert_eq!(rt;
            permits(page(bits, key), pkru, access),
            answer,
            "{bits} {key} {pkru:?} {access:?}"
        );
    }
    assert_eq!(rt;
        permits(None, Pkru(0), Access::Read),
        Err(Refusal::Unmapped)
    );
    assert_eq!(rt; permits(None, a, Access::Fetch), Err(Refusal::Unmapped));
}

#[test]
fn pages_are_mapped_once(rt: HostRuntime) {
    let mut space = Space::new(rt.alloc());
    let first = Entry {
        frame: 1,
        flags: PageFlags::WRITE,
        key: 2,
    };
    let second = Entry {
        frame: 2,
        flags: PageFlags::DEVICE,
        key: 15,
    };
    assert_eq!(rt; space.entry(0x400), None);
    assert_eq!(rt; space.map(0x400, first), Ok(()));
    assert_eq!(rt; space.map(u64::MAX, second), Ok(()));
    assert_eq!(rt; space.map(0x400, second), Err(MapError::Taken));
    assert_eq!(rt; space.entry(0x400), Some(first));
    assert_eq!(rt; space.entry(u64::MAX), Some(second));
    assert_eq!(rt; space.entry(0x401), None);
}
