//! One decoded instruction.

ghost use Rattle.std.specs.Prelude.{◌≡◌, ◌+◌, ◌%◌, ◌^◌};
ghost use Rattle.fx_cpu.specs.Steps.{Does, trap_of};

use crate::finish::complete;
use crate::need::{Need, need_of};
use crate::port::Port;
use crate::registers::Regs;
use crate::trap::{PortStop, Stepped, Trap};
use fx_vm_pages::access::Access;
use fx_x64_forms::inst::Inst;

/// The trap for an access that a port didn't carry out.
#[inline]
pub fn trap_from(access: Access, stop: PortStop) -> Trap
    ensures { result ≡ trap_of access stop }
{
    match stop {
        PortStop::Refused { address, refusal } => Trap::Page {
            address,
            access,
            refusal,
        },
        PortStop::Outside(why) => Trap::Outside(why),
    }
}

/// Does one decoded instruction of a length, at RIP: at most one access. A trap changes no register.
/// Takes no memory.
#[inline]
pub fn execute<M: Port>(i: &Inst, len: u64, r: &mut Regs, m: &mut M) -> Stepped
    ensures { Does i.now len r.old (M.world m.old) result r.new (M.world m.new) }
{
    let next = r.rip.wrapping_add(len);
    match need_of(i, next, r) {
        Need::Quiet => {
            r.rip = next;
            complete(i, r, 0);
            Stepped::Went
        }
        Need::Reads { w, address } => match m.load(r.pkru, address, w) {
            Ok(v) => {
                r.rip = next;
                complete(i, r, v);
                Stepped::Went
            }
            Err(stop) => Stepped::Fault(trap_from(Access::Read, stop)),
        },
        Need::Writes { w, address, value } => match m.store(r.pkru, address, w, value) {
            Ok(()) => {
                r.rip = next;
                complete(i, r, 0);
                Stepped::Went
            }
            Err(stop) => Stepped::Fault(trap_from(Access::Write, stop)),
        },
        Need::Stops(trap) => Stepped::Fault(trap),
    }
}
