//! The sizes of frames, and the slots in them.

ghost use Rattle.std.specs.Prelude.{◌≡◌, ◌+◌, ◌<◌, ◌≤◌, All, HoldsAt, length};
ghost use Rattle.fx_c_ast.specs.CheckedTrees.{ty_tree, struct_types, tstmt_trees};
ghost use Rattle.fx_c_ast.specs.Layout.{known_layouts, round_up, IsSized, StructsAreSized};
ghost use Rattle.fx_c_ast.specs.StackUse.{need_stmts};
ghost use Rattle.fx_c_ast.specs.declared.checked.TFunction.{TFunction};
ghost use Rattle.fx_c_ast.specs.declared.checked.TLocal.{TLocal};
ghost use Rattle.fx_shadow.specs.Frames.{HasFrame, HasFrames, slots_of, frame_of, slot_of};

use fx_c_ast::checked::{TFunction, TLocal, TProgram, TStmt};
use fx_c_ast::layout::size_of;
use fx_c_ast::stack::{frame_bytes, need_stmts, slot_size};

/// What a call of a function takes of its stack.
#[derive(Clone, Copy, Debug, PartialEq, Eq)]
pub struct FrameSize {
    /// The bytes of the whole frame: the return address and the saved frame pointer, the slots, and
    /// the pending operands.
    pub size: u32,
    /// The bytes of the slots.
    pub locals: u32,
    /// The most operands of 8 bytes that are pending at once, rounded up to an even number.
    pub depth: u32,
}

/// Where a parameter or a local stands.
#[derive(Clone, Copy, Debug, PartialEq, Eq)]
pub struct SlotPlace {
    /// How many bytes below the frame pointer it begins.
    pub below: u32,
    /// Whether it is shared, and so stands in the high half where stacks have halves.
    pub shared: bool,
}

/// The frame of a function (this project's own layout).
pub fn frame(p: &TProgram, f: u32) -> FrameSize
    requires program { HasFrames p.now }
    requires there { f < length p.now.functions }
    ensures { HoldsAt (λ (g : TFunction). result ≡ frame_of (struct_types p.now.structs) g) p.now.functions f }
{
    function_frame(p, &p.functions.as_slice()[f as usize])
}

fn function_frame(p: &TProgram, f: &TFunction) -> FrameSize
    requires structs { StructsAreSized (struct_types p.now.structs) }
    requires frame { HasFrame p.now.structs f.now }
    ensures { result ≡ frame_of (struct_types p.now.structs) f.now }
{
    let locals = slots_bytes(p, f.locals.as_slice());
    let pending = pending_operands(f.body.as_slice());
    FrameSize {
        size: frame_bytes(u64::from(locals), pending) as u32,
        locals,
        depth: even(pending as u32),
    }
}

// The most operands that are pending at once in a body, where they are few.
fn pending_operands(body: &[TStmt]) -> u64
    requires { need_stmts (tstmt_trees body.now) ≤ 65536 }
    ensures { result ≡ need_stmts (tstmt_trees body.now) }
{
    match need_stmts(body) {
        Some(pending) => pending,
        None => unreachable!(),
    }
}

/// The slot of a function's parameter or local, by its number in the function's list.
pub fn slot(p: &TProgram, f: u32, local: u16) -> SlotPlace
    requires program { HasFrames p.now }
    requires there { f < length p.now.functions }
    requires declared { HoldsAt (λ (g : TFunction). local < length g.locals) p.now.functions f }
    ensures { HoldsAt (λ (g : TFunction). HoldsAt (λ (l : TLocal). result ≡ slot_of (struct_types p.now.structs) g.locals local l) g.locals local) p.now.functions f }
{
    let locals = p.functions.as_slice()[f as usize].locals.as_slice();
    slot_among(p, locals, local)
}

fn slot_among(p: &TProgram, locals: &[TLocal], local: u16) -> SlotPlace
    requires structs { StructsAreSized (struct_types p.now.structs) }
    requires sized { All (λ (l : TLocal). IsSized (known_layouts (struct_types p.now.structs)) (length p.now.structs) (ty_tree l.ty)) locals.now }
    requires small { slots_of (struct_types p.now.structs) locals.now ≤ 65536 }
    requires declared { local < length locals.now }
    ensures { HoldsAt (λ (l : TLocal). result ≡ slot_of (struct_types p.now.structs) locals.now local l) locals.now local }
{
    let place = local as usize;
    SlotPlace {
        below: slots_bytes(p, &locals[..place + 1]),
        shared: locals[place].shared,
    }
}

fn slots_bytes(p: &TProgram, locals: &[TLocal]) -> u32
    requires structs { StructsAreSized (struct_types p.now.structs) }
    requires sized { All (λ (l : TLocal). IsSized (known_layouts (struct_types p.now.structs)) (length p.now.structs) (ty_tree l.ty)) locals.now }
    requires small { slots_of (struct_types p.now.structs) locals.now ≤ 65536 }
    ensures { result ≡ slots_of (struct_types p.now.structs) locals.now }
{
    let mut bytes: u32 = 0;
    for local in locals {
        bytes += slot_size(size_of(p, &local.ty)) as u32;
    }
    bytes
}

fn even(n: u32) -> u32
    requires { n ≤ 65536 }
    ensures { result ≡ round_up n 2 }
{
    (n + 1) / 2 * 2
}
