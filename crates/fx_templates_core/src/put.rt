//! Single pieces, appended to code.

ghost use Rattle.std.specs.Prelude.{◌≡◌, ◌+◌, ◌++◌, [], ◌∷◌, OnOk, IfOk, length};
ghost use Rattle.fx_templates_core.specs.Pieces as piece;

use fx_x64_forms::inst::{AluOp, Inst};
use fx_x64_forms::operand::{Cond, Mem, Reg, Width};
use fx_x64_forms::piece::{Piece, Target};
use std::alloc::AllocError;

/// An instruction that leads nowhere else.
pub fn put(out: &mut Vec<Piece>, inst: Inst) -> Result<(), AllocError>
    ensures { OnOk result (out.new.items ≡ out.old.items ++ piece.plain inst ∷ []) }
{
    out.push(Piece { inst, target: None })?;
    Ok(())
}

/// An instruction whose displacement leads to a target.
pub fn put_leading(out: &mut Vec<Piece>, inst: Inst, to: Target) -> Result<(), AllocError>
    ensures { OnOk result (out.new.items ≡ out.old.items ++ piece.leading inst to ∷ []) }
{
    out.push(Piece {
        inst,
        target: Some(to),
    })?;
    Ok(())
}

/// Sets a register to a constant.
pub fn set(out: &mut Vec<Piece>, dst: Reg, imm: i32) -> Result<(), AllocError>
    ensures { OnOk result (out.new.items ≡ out.old.items ++ piece.set dst imm ∷ []) }
{
    put(out, Inst::MovImm { dst, imm })
}

/// Copies a register.
pub fn copy(out: &mut Vec<Piece>, dst: Reg, src: Reg) -> Result<(), AllocError>
    ensures { OnOk result (out.new.items ≡ out.old.items ++ piece.copy dst src ∷ []) }
{
    let w = Width::W64;
    put(out, Inst::Mov { w, dst, src })
}

/// Loads the word at so many bytes from a base.
pub fn load(out: &mut Vec<Piece>, dst: Reg, base: Reg, disp: i32) -> Result<(), AllocError>
    ensures { OnOk result (out.new.items ≡ out.old.items ++ piece.load dst base disp ∷ []) }
{
    let mem = Mem { base, disp };
    let w = Width::W64;
    put(out, Inst::Load { w, dst, mem })
}

/// Stores a word at so many bytes from a base.
pub fn store(out: &mut Vec<Piece>, base: Reg, disp: i32, src: Reg) -> Result<(), AllocError>
    ensures { OnOk result (out.new.items ≡ out.old.items ++ piece.store base disp src ∷ []) }
{
    let mem = Mem { base, disp };
    let w = Width::W64;
    put(out, Inst::Store { w, mem, src })
}

/// An operation of two registers of 64 bits.
pub fn alu(out: &mut Vec<Piece>, op: AluOp, dst: Reg, src: Reg) -> Result<(), AllocError>
    ensures { OnOk result (out.new.items ≡ out.old.items ++ piece.alu op dst src ∷ []) }
{
    let w = Width::W64;
    put(out, Inst::Alu { op, w, dst, src })
}

/// An operation of a register of 64 bits and a constant.
pub fn alu_number(out: &mut Vec<Piece>, op: AluOp, dst: Reg, imm: i32) -> Result<(), AllocError>
    ensures { OnOk result (out.new.items ≡ out.old.items ++ piece.alu_number op dst imm ∷ []) }
{
    let w = Width::W64;
    put(out, Inst::AluImm { op, w, dst, imm })
}

/// Goes to a piece of the same list where a condition holds.
pub fn branch(out: &mut Vec<Piece>, cond: Cond, to: u32) -> Result<(), AllocError>
    ensures { OnOk result (out.new.items ≡ out.old.items ++ piece.branch cond to ∷ []) }
{
    put_leading(out, Inst::Jcc { cond, rel: 0 }, Target::Label(to))
}

/// Goes to a target.
pub fn jump(out: &mut Vec<Piece>, to: Target) -> Result<(), AllocError>
    ensures { OnOk result (out.new.items ≡ out.old.items ++ piece.jump to ∷ []) }
{
    put_leading(out, Inst::Jmp { rel: 0 }, to)
}

/// Calls a target.
pub fn call(out: &mut Vec<Piece>, to: Target) -> Result<(), AllocError>
    ensures { OnOk result (out.new.items ≡ out.old.items ++ piece.call to ∷ []) }
{
    put_leading(out, Inst::Call { rel: 0 }, to)
}

/// The number of the piece that comes so many pieces behind those of `out`, the first of which is number
/// `first` of its list. A number of more than 32 bits no memory bears out.
pub fn ahead(out: &Vec<Piece>, first: u32, count: u32) -> Result<u32, AllocError>
    ensures { IfOk result (λ n. n ≡ first + length out.now.items + count) }
{
    let len = match u32::try_from(out.len()) {
        Ok(len) => len,
        Err(_) => return Err(AllocError),
    };
    match first.checked_add(len) {
        Some(here) => match here.checked_add(count) {
            Some(there) => Ok(there),
            None => Err(AllocError),
        },
        None => Err(AllocError),
    }
}
