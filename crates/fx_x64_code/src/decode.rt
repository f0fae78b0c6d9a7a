//! The decoder.

ghost use Rattle.std.specs.Prelude.{◌≡◌, ◌≤◌, ◌++◌, ℕ, List, length, take, IfSome};
ghost use Rattle.fx_x64_forms.specs.declared.inst.Inst.{Inst};
ghost use Rattle.fx_x64_code.specs.Spelling.{spelling, has_row, IsRow, Spells};
ghost use Rattle.fx_x64_code.specs.Decoded.{decoded};

use crate::guess::read;
use crate::spell::spell;
use fx_x64_forms::inst::{AluOp, Inst};
use fx_x64_forms::operand::Width;

/// Whether an instruction is a row of the table: whether its widths and its operation are those that
/// its variant names.
pub fn is_row(i: &Inst) -> bool
    ensures { result ≡ has_row i.now }
{
    match *i {
        Inst::Mov { w, .. }
        | Inst::Load { w, .. }
        | Inst::Alu { w, .. }
        | Inst::Imul { w, .. }
        | Inst::Shift { w, .. }
        | Inst::Unary { w, .. } => matches!(w, Width::W32 | Width::W64),
        Inst::AluImm { op, w, .. } => {
            matches!(w, Width::W32 | Width::W64) && !matches!(op, AluOp::Test)
        }
        Inst::LoadZero { from, .. } | Inst::Zero { from, .. } => {
            matches!(from, Width::W8 | Width::W16)
        }
        Inst::LoadSign { from, .. } | Inst::Sign { from, .. } => !matches!(from, Width::W64),
        _ => true,
    }
}

/// The instruction whose spelling begins the bytes, with that spelling's length; None where no
/// instruction's spelling begins them. Takes no memory.
pub fn decode(b: &[u8]) -> Option<(Inst, usize)>
    ensures value { result ≡ decoded b.now }
    ensures spelled { IfSome result (λ f. Spells f.0 (take f.1 b.now) × (f.1 ≤ length b.now)) }
    ensures complete { (i : Inst) (rest : List ℕ) → IsRow i → b.now ≡ spelling i ++ rest → result ≡ Some (i, length (spelling i)) }
{
    let i = match read(b) {
        None => return None,
        Some(i) => i,
    };
    if !is_row(&i) {
        return None;
    }
    let spelled = spell(&i);
    let bytes = spelled.as_slice();
    if b.starts_with(bytes) {
        Some((i, bytes.len()))
    } else {
        None
    }
}
