//! Spellings from outside: a few of each kind. The long table is the stored run of `fx_cpu_test`.

use fx_x64_code::decode::{decode, is_row};
use fx_x64_code::encode::encode;
use fx_x64_forms::inst::{AluOp, Inst};
use fx_x64_forms::operand::{Mem, Reg, Width};
use std::test::Fail;

#[test]
fn spellings_are_read(rt: HostRuntime) {
    let load = Inst::Load {
        w: Width::W64,
        dst: Reg::Rax,
        mem: Mem {
            base: Reg::Rbp,
            disp: -16,
        },
    };
    let add = Inst::Alu {
        op: AluOp::Add,
        w: Width::W32,
        dst: Reg::Rdi,
        src: Reg::Rbp,
    };
    let long = decode(&[0x48, 0x8b, 0x85, 0xf0, 0xff, 0xff, 0xff]);
    assert!(rt; long == Some((load, 7)));
    assert!(rt; decode(&[0x01, 0xef]) == Some((add, 2)));
    assert!(rt; decode(&[0x48, 0x8b, 0x45, 0xf0]).is_none());
    assert!(rt; decode(&[0x40, 0x90]).is_none());
    assert!(rt; decode(&[]).is_none());
}

#[test]
fn an_instruction_is_appended(rt: HostRuntime) -> Result<(), Fail> {
    let store = Inst::Store {
        w: Width::W16,
        mem: Mem {
            base: Reg::R12,
            disp: 8,
        },
        src: Reg::R9,
    };
    assert!(rt; is_row(&store));
    let mut out = Vec::new(rt.alloc());
    encode(rt.alloc(), &Inst::Nop, &mut out)?;
    encode(rt.alloc(), &store, &mut out)?;
    let want = [0x90, 0x66, 0x45, 0x89, 0x8c, 0x24, 0x08, 0x00, 0x00, 0x00];
    assert_eq!(rt; out.as_slice(), want.as_slice());
    Ok(())
}
