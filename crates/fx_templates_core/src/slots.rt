//! Operands in the slots of a frame.
//!
//! A frame has at most 65,536 bytes (this project's own limit), so a slot is near its frame pointer.

ghost use Rattle.std.specs.Prelude.{◌≡◌, ◌≤◌, ◌++◌, [], ◌∷◌, OnOk};
ghost use Rattle.fx_templates_core.specs.Pieces.{plain, slot, load_slot, load_of, spill, reload, nothing};

use crate::put::put;
use fx_x64_forms::inst::Inst;
use fx_x64_forms::operand::{Mem, Reg, Width};
use fx_x64_forms::piece::Piece;
use std::alloc::AllocError;

/// Slot k of a frame with so many bytes of locals.
pub fn slot(locals: u32, k: u16) -> Mem
    requires { locals ≤ 65536 }
    ensures { result ≡ slot locals k }
{
    let below = locals + 8 * u32::from(k) + 7;
    Mem {
        base: Reg::Rbp,
        disp: -below.cast_signed() - 1,
    }
}

/// Loads slot k.
pub fn load_slot(out: &mut Vec<Piece>, dst: Reg, locals: u32, k: u16) -> Result<(), AllocError>
    requires { locals ≤ 65536 }
    ensures { OnOk result (out.new.items ≡ out.old.items ++ load_slot dst locals k ∷ []) }
{
    let w = Width::W64;
    let mem = slot(locals, k);
    put(out, Inst::Load { w, dst, mem })
}

/// The latest of so many operands goes to its slot.
pub fn spill(out: &mut Vec<Piece>, locals: u32, count: u16) -> Result<(), AllocError>
    requires { locals ≤ 65536 }
    ensures { OnOk result (out.new.items ≡ out.old.items ++ spill locals count) }
{
    if count > 0 {
        let w = Width::W64;
        let mem = slot(locals, count - 1);
        let src = Reg::Rax;
        put(out, Inst::Store { w, mem, src })?;
    }
    Ok(())
}

/// The latest of so many operands comes back from its slot.
pub fn reload(out: &mut Vec<Piece>, locals: u32, count: u16) -> Result<(), AllocError>
    requires { locals ≤ 65536 }
    ensures { OnOk result (out.new.items ≡ out.old.items ++ reload locals count) }
{
    if count > 0 {
        load_slot(out, Reg::Rax, locals, count - 1)?;
    }
    Ok(())
}

/// The load of a value of a width, zero-extended.
pub fn load_of(w: Width, dst: Reg, mem: Mem) -> Inst
    ensures { result ≡ load_of w dst mem }
{
    match w {
        Width::W64 | Width::W32 => Inst::Load { w, dst, mem },
        Width::W16 | Width::W8 => Inst::LoadZero { from: w, dst, mem },
    }
}

/// The piece of an op that has a cost and changes nothing.
pub fn nothing(out: &mut Vec<Piece>) -> Result<(), AllocError>
    ensures { OnOk result (out.new.items ≡ out.old.items ++ nothing) }
{
    put(out, Inst::Nop)
}
