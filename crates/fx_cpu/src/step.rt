//! One step: an instruction is fetched, decoded and done.

ghost use Rattle.std.specs.Prelude.{◌≡◌};
ghost use Rattle.fx_cpu.specs.Fetches.{StepDoes};

use crate::execute::{execute, trap_from};
use crate::port::Port;
use crate::registers::Regs;
use crate::trap::{Stepped, Trap};
use fx_vm_pages::access::Access;
use fx_x64_code::decode::decode;

/// Does the instruction at RIP. Its bytes are fetched one at a time until they are a spelling; a
/// refused fetch is `Page`, and fifteen bytes without a spelling are `Invalid`. There is at most one
/// data access, and a trap changes no register. Takes no memory.
pub fn step<M: Port>(r: &mut Regs, m: &mut M) -> Stepped
    ensures { StepDoes r.old (M.world m.old) result r.new (M.world m.new) }
{
    let mut text = [0; 15];
    for n in 0..15 {
        match m.fetch(r.rip.wrapping_add(n as u64)) {
            Ok(b) => text[n] = b,
            Err(stop) => return Stepped::Fault(trap_from(Access::Fetch, stop)),
        }
        match decode(&text[..n + 1]) {
            Some((i, len)) => return execute(&i, len as u64, r, m),
            None => {}
        }
    }
    Stepped::Fault(Trap::Invalid)
}
