//! The code of an image: the compartment's range and the runtime's.

ghost use Rattle.std.specs.Prelude.{◌≡◌, ◌++◌, ◌<◌, ◌≤◌, ◌^◌, ◌+◌, ◌*◌, ◌%◌, [], ◌∷◌, pos, ◌-ℤ◌, OnOk, IfOk, length};
ghost use Rattle.std.specs.List.{flat_map};
ghost use Rattle.fx_x64_code.specs.Spelling.{spelling};
ghost use Rattle.fx_early_image.specs.Code.{putc_bytes, main_bytes, spelled, filled, entry_table, start_code, abort_code, range_bytes, code_bytes};

use fx_x64_code::encode::encode;
use fx_x64_forms::inst::Inst;
use fx_x64_forms::operand::{Mem, Reg, Width};
use std::alloc::{AllocError, Global};

/// The address of the console's register 0.
const CONSOLE: i32 = 0xf10_0000;

/// The bytes of a page.
const PAGE: usize = 4096;

/// The bytes of an entry of the entry table.
const ENTRY: usize = 16;

/// HLT, which fills ranges up to whole pages.
const FILL: u8 = 0xf4;

fn constant(alloc: Global, dst: Reg, imm: i32, out: &mut Vec<u8>) -> Result<(), AllocError>
    ensures { OnOk result (out.new.items ≡ out.old.items ++ spelling (Inst.MovImm dst imm)) }
{
    encode(alloc, &Inst::MovImm { dst, imm }, out)
}

/// Fills up to a multiple of `unit` bytes, from 1 to a page's.
#[tactic(auto, unfolding(crate::specs::Code::filled))]
fn fill(out: &mut Vec<u8>, unit: usize) -> Result<(), AllocError>
    requires some { 0 < unit }
    requires small { unit ≤ 4096 }
    ensures filled { OnOk result (out.new.items ≡ filled unit out.old.items) }
{
    let len = out.len();
    let missing = (unit - len % unit) % unit;
    out.resize(len + missing, FILL)
}

/// Writes one constant to the console, whose address RAX holds.
fn put_constant(alloc: Global, byte: u8, out: &mut Vec<u8>) -> Result<(), AllocError>
    ensures { OnOk result (out.new.items ≡ out.old.items ++ putc_bytes byte) }
{
    constant(alloc, Reg::Rcx, i32::from(byte), out)?;
    let console = Mem {
        base: Reg::Rax,
        disp: 0,
    };
    let store = Inst::Store {
        w: Width::W64,
        mem: console,
        src: Reg::Rcx,
    };
    encode(alloc, &store, out)
}

/// `main`, which writes each constant in order and returns.
fn put_main(alloc: Global, constants: &[u8], out: &mut Vec<u8>) -> Result<(), AllocError>
    ensures { OnOk result (out.new.items ≡ out.old.items ++ main_bytes constants.now) }
{
    constant(alloc, Reg::Rax, CONSOLE, out)?;
    for byte in constants {
        put_constant(alloc, *byte, out)?;
    }
    encode(alloc, &Inst::Ret, out)
}

/// From behind a call at the runtime's beginning back to the entry table, `range` bytes before it.
fn back_to_table(range: u32) -> i32
    requires { range < 2 ^ 20 }
    ensures { result ≡ pos 0 -ℤ pos (range + 5) }
{
    -(range.cast_signed() + 5)
}

/// The start, which begins `range` bytes behind the entry table's beginning.
fn put_start(alloc: Global, range: u32, out: &mut Vec<u8>) -> Result<(), AllocError>
    requires { range < 2 ^ 20 }
    ensures { OnOk result (out.new.items ≡ out.old.items ++ spelled (start_code range)) }
{
    let rel = back_to_table(range);
    encode(alloc, &Inst::Call { rel }, out)?;
    constant(alloc, Reg::Rax, 0, out)?;
    constant(alloc, Reg::Rdi, 0, out)?;
    encode(alloc, &Inst::Hlt, out)
}

/// The abort stub.
fn put_abort(alloc: Global, out: &mut Vec<u8>) -> Result<(), AllocError>
    ensures { OnOk result (out.new.items ≡ out.old.items ++ spelled abort_code) }
{
    constant(alloc, Reg::Rax, 4, out)?;
    encode(alloc, &Inst::Hlt, out)
}

/// The compartment's range.
#[tactic(auto, unfolding(crate::specs::Code::range_bytes))]
fn range(alloc: Global, constants: &[u8]) -> Result<Vec<u8>, AllocError>
    requires { length constants.now ≤ 1000 }
    ensures { IfOk result (λ v. v.items ≡ range_bytes constants.now) }
{
    let mut out = Vec::new(alloc);
    encode(alloc, &Inst::Jmp { rel: 11 }, &mut out)?;
    fill(&mut out, ENTRY)?;
    put_main(alloc, constants, &mut out)?;
    fill(&mut out, PAGE)?;
    Ok(out)
}

/// The code of an image, and where its parts stand.
#[derive(Debug, Drop)]
pub struct Code {
    /// The whole code, in whole pages.
    pub bytes: Vec<u8>,
    /// The bytes of the compartment's range, behind which the runtime's begins.
    pub range: u32,
}

/// The code that writes at most 1,000 constants to the console.
#[tactic(auto, unfolding(crate::specs::Code::code_bytes), using(crate::proofs::Lengths::range_length))]
pub fn assemble(alloc: Global, constants: &[u8]) -> Result<Code, AllocError>
    requires { length constants.now ≤ 1000 }
    ensures bytes { IfOk result (λ c. c.bytes.items ≡ code_bytes constants.now) }
    ensures range { IfOk result (λ c. c.range ≡ length (range_bytes constants.now)) }
    ensures pages { IfOk result (λ c. c.range ≤ 16384) }
{
    let mut bytes = range(alloc, constants)?;
    let range = bytes.len() as u32;
    put_start(alloc, range, &mut bytes)?;
    put_abort(alloc, &mut bytes)?;
    fill(&mut bytes, PAGE)?;
    Ok(Code { bytes, range })
}
