//! Sizes, places of members and stack use, by tables.

ghost use Rattle.std.specs.Prelude.{◌≡◌, [], IfOk, map, slice_index_or};
ghost use Rattle.fx_c_ast.specs.CheckedTrees.{ty_tree, member_types, struct_types};
ghost use Rattle.fx_c_mean_model.specs.Programs.{Function, program_of, function_at, size_in, offset_of};
ghost use Rattle.fx_c_lower_tables.specs.Layers.{all_layouts};

use crate::tables::{frames_of, layouts_of};
use fx_c_ast::checked::{TMember, TProgram, Ty};
use fx_c_ast::layout::Layout;
use fx_c_mean_control::layouts::{layout, member_offset};
use std::alloc::{AllocError, Global};

/// A program with the layouts of its structs and the stack use of its functions.
#[derive(Drop)]
pub struct Sizes<'p> {
    pub program: &'p TProgram,
    pub layouts: Vec<Layout>,
    pub frames: Vec<u32>,
    ghost tables: { layouts.items ≡ all_layouts (struct_types program.now.structs) },
    ghost uses: { frames.items ≡ map (λ (f : Function). f.frame) (program_of program.now).functions },
}

impl<'p> Sizes<'p> {
    /// The stack use of a call of a function.
    pub fn frame(&self, f: u32) -> u32
        ensures { result ≡ (function_at (program_of self.now.program.now) f).frame }
    {
        match self.frames.get(f as usize) {
            Some(bytes) => *bytes,
            None => 0,
        }
    }

    /// The bytes of a type. An object of 2^32 bytes or more is want of memory.
    pub fn size(&self, ty: &Ty) -> Result<u32, AllocError>
        ensures { IfOk result (λ n. n ≡ size_in (program_of self.now.program.now) (ty_tree ty.now)) }
    {
        match layout(&self.layouts, ty) {
            Some(layout) => match u32::try_from(layout.size) {
                Ok(size) => Ok(size),
                Err(_) => Err(AllocError),
            },
            None => Err(AllocError),
        }
    }

    /// The members of a struct.
    fn members(&self, n: u32) -> &'p [TMember]
        ensures { member_types result.now ≡ slice_index_or (struct_types self.now.program.now.structs) n [] }
    {
        match self.program.structs.as_slice().get(n as usize) {
            Some(of) => of.members.as_slice(),
            None => &[],
        }
    }

    /// Where a member of a struct begins. A place of 2^32 or more is want of memory.
    pub fn offset(&self, n: u32, member: u32) -> Result<u32, AllocError>
        ensures { IfOk result (λ k. k ≡ offset_of (program_of self.now.program.now) n member) }
    {
        match member_offset(&self.layouts, self.members(n), member as usize) {
            Some(offset) => match u32::try_from(offset) {
                Ok(offset) => Ok(offset),
                Err(_) => Err(AllocError),
            },
            None => Err(AllocError),
        }
    }
}

/// The tables of a program. Structs of 2^64 bytes or more and stack uses of 2^32 bytes
/// or more are want of memory.
pub fn sizes_of<'p>(alloc: Global, program: &'p TProgram) -> Result<Sizes<'p>, AllocError>
    ensures { IfOk result (λ s. s.program ≡ program.entry) }
{
    let layouts = layouts_of(alloc, program)?;
    let frames = frames_of(alloc, program, &layouts)?;
    Ok(Sizes {
        program,
        layouts,
        frames,
    })
}
