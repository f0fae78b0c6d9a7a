//! Where the variables of a function stand beside its frame pointer, and how values of types are
//! held.

ghost use Rattle.std.specs.Prelude.{◌≡◌, ◌≤◌, All};
ghost use Rattle.fx_c_ast.specs.CheckedTrees.{ty_tree};
ghost use Rattle.fx_match_rel.specs.Addresses.{lift};
ghost use Rattle.fx_match_rel.specs.Frames.{scalar_of, IsNear};
ghost use Rattle.fx_templates_core.specs.Functions.{width_in};
ghost use Rattle.fx_templates.specs.Variables.{signed_in, slot_mem, variable_of, variable_at};
ghost use Rattle.fx_templates.specs.Variables.{operand_of, operator_width, promoted};

use fx_c_ast::checked::Ty;
use fx_c_ast::operator::IntType;
use fx_c_lin::op::Right;
use fx_match_rel::frames::{scalar_of, width_of};
use fx_match_rel::{Addresses, Scalar, Slot};
use fx_shadow::stacks::has_halves;
use fx_templates_core::functions::width_in;
use fx_templates_core::operands::{Operand, Variable};
use fx_x64_forms::operand::{Mem, Reg, Width};

fn signed_in(scalar: Option<Scalar>) -> bool
    ensures { result ≡ signed_in scalar }
{
    match scalar {
        None => false,
        Some(s) => s.signed,
    }
}

/// The width of a value of an integer or pointer type.
pub(crate) fn width_for(ty: &Ty) -> Width
    ensures { result ≡ width_in (scalar_of (ty_tree ty.now)) }
{
    width_in(scalar_of(ty))
}

/// How far above its place in the frame a variable stands.
fn raised(a: &Addresses, shared: bool) -> u32
    ensures value { result ≡ lift a.now shared }
    ensures small { result ≤ 1044480 }
{
    if shared && has_halves(a.mechanism) {
        4096 * u32::from(a.stack_pages)
    } else {
        0
    }
}

/// Where a slot stands beside the frame pointer.
pub(crate) fn slot_mem(a: &Addresses, s: &Slot) -> Mem
    requires { IsNear s.now }
    ensures { result ≡ slot_mem a.now s.now }
{
    let up = raised(a, s.shared);
    Mem {
        base: Reg::Rbp,
        disp: up as i32 - s.below as i32,
    }
}

fn variable_of(a: &Addresses, s: &Slot) -> Variable
    requires { IsNear s.now }
    ensures { result ≡ variable_of a.now s.now }
{
    Variable {
        mem: slot_mem(a, s),
        width: width_in(s.scalar),
        signed: signed_in(s.scalar),
    }
}

/// A variable of a function, by its number.
pub(crate) fn variable_at(a: &Addresses, slots: &[Slot], n: u16) -> Variable
    requires { All IsNear slots.now }
    ensures { result ≡ variable_at a.now slots.now n }
{
    match slots.get(usize::from(n)) {
        Some(s) => variable_of(a, s),
        None => Variable {
            mem: Mem {
                base: Reg::Rbp,
                disp: 0,
            },
            width: Width::W64,
            signed: false,
        },
    }
}

/// Where the right operand of an op is.
pub(crate) fn operand_of(a: &Addresses, slots: &[Slot], right: Right) -> Operand
    requires { All IsNear slots.now }
    ensures { result ≡ operand_of a.now slots.now right }
{
    match right {
        Right::Pending => Operand::Pending,
        Right::Number(n) => Operand::Number(n),
        Right::Local(n) => Operand::Local(variable_at(a, slots, n)),
    }
}

fn promoted(w: Width) -> Width
    ensures { result ≡ promoted w }
{
    match w {
        Width::W64 => Width::W64,
        Width::W32 | Width::W16 | Width::W8 => Width::W32,
    }
}

/// The width of the operators of an integer type: 32 or 64 bits.
pub(crate) fn operator_width(i: IntType) -> Width
    ensures { result ≡ operator_width i }
{
    promoted(width_of(i))
}
