//! What code generation asks of a function: its frame, its parameters and its result.

ghost use Rattle.std.specs.Prelude.{◌≡◌, ◌+◌, ◌<◌, ◌≤◌, IfOk, All, length};
ghost use Rattle.fx_c_ast.specs.CheckedTrees.{ty_tree, struct_types};
ghost use Rattle.fx_c_ast.specs.Layout.{known_layouts, layout_of, round_up, IsSized, StructsAreSized};
ghost use Rattle.fx_c_ast.specs.declared.checked.TLocal.{TLocal};
ghost use Rattle.fx_c_ast.specs.declared.checked.TFunction.{TFunction};
ghost use Rattle.fx_shadow.specs.Frames.{HasFrame, frame_of};
ghost use Rattle.fx_match_rel.specs.Frames.{width_of, is_signed, scalar_of, room_of, slots_of, slots_from, table_of};

use fx_c_ast::checked::{TFunction, TLocal, TProgram, Ty};
use fx_c_ast::layout::size_of;
use fx_c_ast::operator::IntType;
use fx_c_ast::sequence::Sequence;
use fx_shadow::FrameSize;
use fx_x64_forms::operand::Width;
use std::alloc::{AllocError, Global};

/// How a value of an integer or pointer type stands in memory.
#[derive(Clone, Copy, Debug, PartialEq, Eq)]
pub struct Scalar {
    pub width: Width,
    pub signed: bool,
}

/// Where a parameter or a local stands in its frame.
#[derive(Clone, Copy, Debug, PartialEq, Eq)]
pub struct Slot {
    /// How many bytes below the frame pointer it begins.
    pub below: u32,
    /// Its bytes, rounded up to a multiple of 16.
    pub room: u32,
    /// Whether it is shared, and so stands in the high half where stacks have halves.
    pub shared: bool,
    /// Its form where it is an integer or a pointer.
    pub scalar: Option<Scalar>,
}

/// A function's frame, its parameters and its result.
#[derive(Debug, Drop)]
pub struct FrameTable {
    /// The bytes of the whole frame, the return address and the saved frame pointer with them.
    pub size: u32,
    /// The bytes of the slots.
    pub locals: u32,
    /// The most operands that are pending at once, an even number.
    pub depth: u32,
    /// How many of the slots, from the first, are parameters.
    pub params: u16,
    /// The form of its result, or None where it gives none.
    pub result: Option<Scalar>,
    /// Parameters and locals in order of declaration.
    pub slots: Sequence<Slot>,
}

/// The width of an integer type (System V ABI for x86-64).
pub fn width_of(i: IntType) -> Width
    ensures { result ≡ width_of i }
{
    match i {
        IntType::Char | IntType::Uchar => Width::W8,
        IntType::Short | IntType::Ushort => Width::W16,
        IntType::Int | IntType::Uint => Width::W32,
        IntType::Long | IntType::Ulong => Width::W64,
    }
}

/// Whether an integer type has negative numbers; `char` has.
pub fn is_signed(i: IntType) -> bool
    ensures { result ≡ is_signed i }
{
    match i {
        IntType::Char | IntType::Short | IntType::Int | IntType::Long => true,
        IntType::Uchar | IntType::Ushort | IntType::Uint | IntType::Ulong => false,
    }
}

/// The form of a value of a type, where it is an integer or a pointer.
pub fn scalar_of(ty: &Ty) -> Option<Scalar>
    ensures { result ≡ scalar_of (ty_tree ty.now) }
{
    match ty {
        Ty::Int(i) => Some(Scalar {
            width: width_of(*i),
            signed: is_signed(*i),
        }),
        Ty::Ptr(_) => Some(Scalar {
            width: Width::W64,
            signed: false,
        }),
        Ty::Void | Ty::Struct(_) | Ty::Array(..) => None,
    }
}

// A local begins at a multiple of 16.
fn room_of(size: u64) -> u32
    requires { size ≤ 67108864 }
    ensures value { result ≡ room_of size }
    ensures small { result ≤ 67108864 }
{
    ((size + 15) / 16 * 16) as u32
}

fn slots(alloc: Global, p: &TProgram, locals: &[TLocal]) -> Result<Vec<Slot>, AllocError>
    requires structs { StructsAreSized (struct_types p.now.structs) }
    requires sized { All (λ (l : TLocal). IsSized (known_layouts (struct_types p.now.structs)) (length p.now.structs) (ty_tree l.ty)) locals.now }
    requires small { slots_of (struct_types p.now.structs) locals.now ≤ 65536 }
    ensures { IfOk result (λ v. v.items ≡ slots_from (struct_types p.now.structs) 0 locals.now) }
{
    let mut slots = Vec::new(alloc);
    let mut before: u32 = 0;
    for local in locals {
        let room = room_of(size_of(p, &local.ty));
        before += room + 16;
        slots.push(Slot {
            below: before,
            room,
            shared: local.shared,
            scalar: scalar_of(&local.ty),
        })?;
    }
    Ok(slots)
}

/// The table of a function of a program, whose frame is known.
pub fn table(
    alloc: Global,
    p: &TProgram,
    f: &TFunction,
    size: FrameSize,
) -> Result<FrameTable, AllocError>
    requires structs { StructsAreSized (struct_types p.now.structs) }
    requires frame { HasFrame p.now.structs f.now }
    requires size { size ≡ frame_of (struct_types p.now.structs) f.now }
    ensures { IfOk result (λ t. t ≡ table_of (struct_types p.now.structs) f.now) }
{
    let slots = slots(alloc, p, f.locals.as_slice())?;
    Ok(FrameTable {
        size: size.size,
        locals: size.locals,
        depth: size.depth,
        params: f.params,
        result: scalar_of(&f.result),
        slots: Sequence::from_vec(slots),
    })
}
