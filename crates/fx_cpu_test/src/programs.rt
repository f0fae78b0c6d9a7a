//! Instructions over memory without pages, with values worked out by hand from the manual.

use fx_cpu::flat::Flat;
use fx_cpu::registers::Regs;
use fx_cpu::step::step;
use fx_cpu::trap::{Stepped, Trap};
use fx_vm_pages::access::{Access, Refusal};
use fx_vm_pages::entry::Pkru;
use fx_word_ops::flags::Flags;
use std::alloc::Global;
use std::test::Fail;

/// Registers whose RIP is 0 and whose RSP is 64.
fn start() -> Regs {
    Regs {
        gpr: [0, 0, 0, 0, 64, 0, 0, 0, 0, 0, 0, 0, 0, 0, 0, 0],
        rip: 0,
        flags: Flags {
            cf: false,
            zf: false,
            sf: false,
            of: false,
        },
        pkru: Pkru(0),
    }
}

/// What a program ends with, in memory of 128 bytes.
fn run(alloc: Global, code: &[u8], r: &mut Regs) -> Result<(Trap, Flat), Fail> {
    let mut bytes = vec![in alloc; 0; 128]?;
    for (place, byte) in bytes.iter_mut().zip(code.iter()) {
        *place = *byte;
    }
    let mut memory = Flat::new(bytes);
    for _ in 0..64 {
        match step(r, &mut memory) {
            Stepped::Went => {}
            Stepped::Fault(trap) => return Ok((trap, memory)),
        }
    }
    Ok((Trap::Invalid, memory))
}

#[test]
fn instructions(rt: HostRuntime) -> Result<(), Fail> {
    // What is shown, the code, and a register by its number with its value at the end.
    let rows: [(&str, &[u8], usize, u64); 25] = [
        (
            "a loop adds 10 down to 1",
            &[
                0x48, 0xc7, 0xc0, 0x00, 0x00, 0x00, 0x00, 0x48, 0xc7, 0xc1, 0x0a, 0x00, 0x00, 0x00,
                0x48, 0x01, 0xc8, 0x48, 0x81, 0xe9, 0x01, 0x00, 0x00, 0x00, 0x0f, 0x85, 0xf0, 0xff,
                0xff, 0xff, 0xf4,
            ],
            0,
            0x37,
        ),
        (
            "a 32-bit copy clears the upper half",
            &[
                0x48, 0xc7, 0xc1, 0xff, 0xff, 0xff, 0xff, 0x48, 0xc7, 0xc0, 0xff, 0xff, 0xff, 0xff,
                0x89, 0xc8, 0xf4,
            ],
            0,
            0xffffffff,
        ),
        (
            "SETNE keeps 56 bits",
            &[
                0x48, 0xc7, 0xc0, 0xff, 0xff, 0xff, 0xff, 0x48, 0x39, 0xc0, 0x0f, 0x95, 0xc0, 0xf4,
            ],
            0,
            0xffffffffffffff00,
        ),
        (
            "PUSH RSP stores the old value",
            &[0x54, 0x58, 0xf4],
            0,
            0x40,
        ),
        (
            "POP RSP leaves the loaded value",
            &[0x48, 0xc7, 0xc0, 0x60, 0x00, 0x00, 0x00, 0x50, 0x5c, 0xf4],
            4,
            0x60,
        ),
        (
            "a byte is sign-extended",
            &[
                0x48, 0xc7, 0xc0, 0x80, 0x00, 0x00, 0x00, 0x88, 0x84, 0x24, 0x00, 0x00, 0x00, 0x00,
                0x48, 0x0f, 0xbe, 0x8c, 0x24, 0x00, 0x00, 0x00, 0x00, 0xf4,
            ],
            1,
            0xffffffffffffff80,
        ),
        (
            "a byte is zero-extended",
            &[
                0x48, 0xc7, 0xc0, 0x80, 0xff, 0xff, 0xff, 0x88, 0x84, 0x24, 0x00, 0x00, 0x00, 0x00,
                0x0f, 0xb6, 0x8c, 0x24, 0x00, 0x00, 0x00, 0x00, 0xf4,
            ],
            1,
            0x80,
        ),
        (
            "a double word is sign-extended",
            &[
                0x48, 0xc7, 0xc0, 0xfe, 0xff, 0xff, 0xff, 0x48, 0x63, 0xc8, 0xf4,
            ],
            1,
            0xfffffffffffffffe,
        ),
        (
            "IDIV gives the quotient",
            &[
                0x48, 0xc7, 0xc0, 0xf9, 0xff, 0xff, 0xff, 0x48, 0x99, 0x48, 0xc7, 0xc1, 0x02, 0x00,
                0x00, 0x00, 0x48, 0xf7, 0xf9, 0xf4,
            ],
            0,
            0xfffffffffffffffd,
        ),
        (
            "IDIV gives the remainder",
            &[
                0x48, 0xc7, 0xc0, 0xf9, 0xff, 0xff, 0xff, 0x48, 0x99, 0x48, 0xc7, 0xc1, 0x02, 0x00,
                0x00, 0x00, 0x48, 0xf7, 0xf9, 0xf4,
            ],
            2,
            0xffffffffffffffff,
        ),
        (
            "SHL EAX by 0 clears the upper half",
            &[0x48, 0xc7, 0xc0, 0xff, 0xff, 0xff, 0xff, 0xd3, 0xe0, 0xf4],
            0,
            0xffffffff,
        ),
        (
            "SAR by 65 shifts by 1",
            &[
                0x48, 0xc7, 0xc0, 0xfc, 0xff, 0xff, 0xff, 0x48, 0xc7, 0xc1, 0x41, 0x00, 0x00, 0x00,
                0x48, 0xd3, 0xf8, 0xf4,
            ],
            0,
            0xfffffffffffffffe,
        ),
        (
            "LEA subtracts",
            &[0x48, 0x8d, 0x84, 0x24, 0xf0, 0xff, 0xff, 0xff, 0xf4],
            0,
            0x30,
        ),
        (
            "a constant of 64 bits",
            &[
                0x49, 0xbf, 0xef, 0xcd, 0xab, 0x89, 0x67, 0x45, 0x23, 0x01, 0xf4,
            ],
            15,
            0x123456789abcdef,
        ),
        (
            "NEG",
            &[
                0x48, 0xc7, 0xc0, 0x05, 0x00, 0x00, 0x00, 0x48, 0xf7, 0xd8, 0xf4,
            ],
            0,
            0xfffffffffffffffb,
        ),
        (
            "NOT of 32 bits",
            &[0x48, 0xc7, 0xc0, 0x05, 0x00, 0x00, 0x00, 0xf7, 0xd0, 0xf4],
            0,
            0xfffffffa,
        ),
        (
            "IMUL",
            &[
                0x48, 0xc7, 0xc0, 0xfd, 0xff, 0xff, 0xff, 0x48, 0xc7, 0xc1, 0x07, 0x00, 0x00, 0x00,
                0x48, 0x0f, 0xaf, 0xc1, 0xf4,
            ],
            0,
            0xffffffffffffffeb,
        ),
        (
            "CALL pushes the next address",
            &[0xe8, 0x01, 0x00, 0x00, 0x00, 0xf4, 0x58, 0xf4],
            0,
            0x5,
        ),
        (
            "RET jumps to what it pops",
            &[
                0x48, 0xc7, 0xc0, 0x0a, 0x00, 0x00, 0x00, 0x50, 0xc3, 0xf4, 0x48, 0xc7, 0xc1, 0x01,
                0x00, 0x00, 0x00, 0xf4,
            ],
            1,
            0x1,
        ),
        (
            "RET adds 8 to RSP",
            &[
                0x48, 0xc7, 0xc0, 0x0a, 0x00, 0x00, 0x00, 0x50, 0xc3, 0xf4, 0x48, 0xc7, 0xc1, 0x01,
                0x00, 0x00, 0x00, 0xf4,
            ],
            4,
            0x40,
        ),
        (
            "RDPKRU reads what WRPKRU wrote",
            &[
                0x48, 0xc7, 0xc0, 0x34, 0x12, 0x00, 0x00, 0x0f, 0x01, 0xef, 0x48, 0xc7, 0xc0, 0xff,
                0xff, 0xff, 0xff, 0x0f, 0x01, 0xee, 0xf4,
            ],
            0,
            0x1234,
        ),
        (
            "WRPKRU looks at EDX alone",
            &[
                0x48, 0xba, 0x00, 0x00, 0x00, 0x00, 0x01, 0x00, 0x00, 0x00, 0x48, 0xc7, 0xc0, 0x07,
                0x00, 0x00, 0x00, 0x0f, 0x01, 0xef, 0xf4,
            ],
            0,
            0x7,
        ),
        (
            "a quotient of 32 bits clears the upper halves",
            &[
                0x48, 0xc7, 0xc0, 0xff, 0xff, 0xff, 0xff, 0x48, 0xc7, 0xc1, 0x02, 0x00, 0x00, 0x00,
                0xf7, 0xf1, 0xf4,
            ],
            0,
            0x7fffffff,
        ),
        (
            "JB after 0 - 1",
            &[
                0x48, 0xc7, 0xc0, 0x00, 0x00, 0x00, 0x00, 0x48, 0x81, 0xe8, 0x01, 0x00, 0x00, 0x00,
                0x0f, 0x82, 0x01, 0x00, 0x00, 0x00, 0xf4, 0x48, 0xc7, 0xc1, 0x09, 0x00, 0x00, 0x00,
                0xf4,
            ],
            1,
            0x9,
        ),
        (
            "TEST leaves its operand",
            &[
                0x48, 0xc7, 0xc0, 0x06, 0x00, 0x00, 0x00, 0x48, 0xc7, 0xc1, 0x01, 0x00, 0x00, 0x00,
                0x48, 0x85, 0xc8, 0xf4,
            ],
            0,
            0x6,
        ),
    ];
    for (name, code, register, value) in rows {
        let mut r = start();
        let (trap, _) = run(rt.alloc(), code, &mut r)?;
        assert_eq!(rt; trap, Trap::Halt, "{name}");
        assert_eq!(rt; r.gpr.get(register).copied(), Some(value), "{name}");
    }
    Ok(())
}

#[test]
fn traps(rt: HostRuntime) -> Result<(), Fail> {
    // What is shown, the code, the trap, and where RIP stands.
    let rows: [(&str, &[u8], Trap, u64); 11] = [
        ("HLT", &[0x90, 0xf4], Trap::Halt, 1),
        ("division by 0", &[0x48, 0xf7, 0xf1], Trap::Divide, 0),
        (
            "a quotient that doesn't fit",
            &[
                0x48, 0xc7, 0xc2, 0x01, 0x00, 0x00, 0x00, 0x48, 0xc7, 0xc1, 0x01, 0x00, 0x00, 0x00,
                0x48, 0xf7, 0xf1,
            ],
            Trap::Divide,
            14,
        ),
        (
            "ECX isn't 0",
            &[0x48, 0xc7, 0xc1, 0x01, 0x00, 0x00, 0x00, 0x0f, 0x01, 0xef],
            Trap::Protection,
            7,
        ),
        (
            "EDX isn't 0",
            &[0x48, 0xc7, 0xc2, 0x01, 0x00, 0x00, 0x00, 0x0f, 0x01, 0xef],
            Trap::Protection,
            7,
        ),
        (
            "ECX isn't 0 at RDPKRU",
            &[0x48, 0xc7, 0xc1, 0x01, 0x00, 0x00, 0x00, 0x0f, 0x01, 0xee],
            Trap::Protection,
            7,
        ),
        (
            "a load beyond memory",
            &[0x48, 0xc7, 0xc4, 0xc8, 0x00, 0x00, 0x00, 0x58],
            Trap::Page {
                address: 200,
                access: Access::Read,
                refusal: Refusal::Unmapped,
            },
            7,
        ),
        (
            "a load across the end",
            &[0x48, 0xc7, 0xc4, 0x7c, 0x00, 0x00, 0x00, 0x58],
            Trap::Page {
                address: 128,
                access: Access::Read,
                refusal: Refusal::Unmapped,
            },
            7,
        ),
        (
            "a store below 0",
            &[0x48, 0xc7, 0xc4, 0x00, 0x00, 0x00, 0x00, 0x50],
            Trap::Page {
                address: u64::MAX - 7,
                access: Access::Write,
                refusal: Refusal::Unmapped,
            },
            7,
        ),
        (
            "a fetch beyond memory",
            &[0xe9, 0x7b, 0x00, 0x00, 0x00],
            Trap::Page {
                address: 128,
                access: Access::Fetch,
                refusal: Refusal::Unmapped,
            },
            128,
        ),
        (
            "fifteen bytes without an instruction",
            &[0x06],
            Trap::Invalid,
            0,
        ),
    ];
    for (name, code, trap, rip) in rows {
        let mut r = start();
        let (found, _) = run(rt.alloc(), code, &mut r)?;
        assert_eq!(rt; found, trap, "{name}");
        assert_eq!(rt; r.rip, rip, "{name}");
    }
    Ok(())
}

#[test]
fn stores_leave_their_neighbours(rt: HostRuntime) -> Result<(), Fail> {
    // MOV RAX, -1; MOV [RSP + 8], AX; HLT.
    let code = b"\x48\xc7\xc0\xff\xff\xff\xff\x66\x89\x84\x24\x08\x00\x00\x00\xf4";
    let mut r = start();
    let (trap, memory) = run(rt.alloc(), code, &mut r)?;
    assert_eq!(rt; trap, Trap::Halt);
    assert_eq!(rt; memory.bytes().get(71..75), Some(&[0, 0xff, 0xff, 0][..]));
    Ok(())
}
