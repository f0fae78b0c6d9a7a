//! Tables of a program: the layouts of its structs and the stack use of its functions.

ghost use Rattle.std.specs.Prelude.{◌≡◌, IfOk, IfSome, IsTrue, map};
ghost use Rattle.fx_c_ast.specs.CheckedTrees.{struct_types, local_types};
ghost use Rattle.fx_c_ast.specs.StackUse.{slots_size};
ghost use Rattle.fx_c_mean_control.specs.Tables.{looked_up};
ghost use Rattle.fx_c_mean_model.specs.Programs.{Function, program_of};
ghost use Rattle.fx_c_lower_tables.specs.Layers.{layer, all_layouts, frame_by};

use fx_c_ast::checked::{TFunction, TLocal, TProgram, TStruct};
use fx_c_ast::layout::Layout;
use fx_c_ast::stack::{frame_bytes, need_stmts, slot_size};
use fx_c_mean_control::layouts::{layout, struct_layout};
use std::alloc::{AllocError, Global};

/// No frame has more bytes or pending operands.
const MOST: u64 = 0x1_0000_0000;

/// The layouts of a program's structs. It goes round by round until nothing changes, so as often as
/// structs stand inside one another.
pub fn layouts_of(alloc: Global, program: &TProgram) -> Result<Vec<Layout>, AllocError>
    ensures { IfOk result (λ t. t.items ≡ all_layouts (struct_types program.now.structs)) }
{
    let structs = program.structs.as_slice();
    let mut table = vec![in alloc; Layout { size: 0, align: 1 }; structs.len()]?;
    for _done in 0..structs.len() {
        let next = next_layer(alloc, structs, &table)?;
        if is_same(&next, &table) {
            return Ok(table);
        }
        table = next;
    }
    Ok(table)
}

/// Each struct's layout, where those of the structs in it stand in a table.
fn next_layer(
    alloc: Global,
    structs: &[TStruct],
    table: &[Layout],
) -> Result<Vec<Layout>, AllocError>
    ensures { IfOk result (λ t. t.items ≡ layer (struct_types structs.now) table.now) }
{
    let mut next = Vec::with_capacity(alloc, structs.len())?;
    for of in structs {
        match struct_layout(table, of.members.as_slice()) {
            Some(layout) => next.push(layout)?,
            None => return Err(AllocError),
        }
    }
    Ok(next)
}

/// Whether two tables are one.
fn is_same(a: &[Layout], b: &[Layout]) -> bool
    ensures { IsTrue result → a.now ≡ b.now }
{
    if a.len() != b.len() {
        return false;
    }
    for i in 0..a.len() {
        if a[i].size != b[i].size || a[i].align != b[i].align {
            return false;
        }
    }
    true
}

/// The stack use of each function of a program.
pub fn frames_of(
    alloc: Global,
    program: &TProgram,
    table: &[Layout],
) -> Result<Vec<u32>, AllocError>
    requires { table.now ≡ all_layouts (struct_types program.now.structs) }
    ensures { IfOk result (λ v. v.items ≡ map (λ (f : Function). f.frame) (program_of program.now).functions) }
{
    let mut frames = Vec::new(alloc);
    for f in program.functions.as_slice() {
        match frame_of(table, f) {
            Some(bytes) => frames.push(bytes)?,
            None => return Err(AllocError),
        }
    }
    Ok(frames)
}

/// The stack use of a call of a function, if it is below 2^32.
fn frame_of(table: &[Layout], f: &TFunction) -> Option<u32>
    ensures { IfSome result (λ n. n ≡ frame_by (looked_up table.now) f.now) }
{
    let slots = slots_of(table, f.locals.as_slice())?;
    let need = need_stmts(&f.body)?;
    if slots > MOST || need > MOST {
        return None;
    }
    match u32::try_from(frame_bytes(slots, need)) {
        Ok(bytes) => Some(bytes),
        Err(_) => None,
    }
}

/// The bytes of the slots of parameters and locals, if they are below 2^64 and none passes 2^32.
fn slots_of(table: &[Layout], locals: &[TLocal]) -> Option<u64>
    ensures { IfSome result (λ n. n ≡ slots_size (looked_up table.now) (local_types locals.now)) }
{
    let mut bytes: u64 = 0;
    for local in locals {
        let of = layout(table, &local.ty)?;
        if of.size > MOST {
            return None;
        }
        bytes = bytes.checked_add(slot_size(of.size))?;
    }
    Some(bytes)
}
