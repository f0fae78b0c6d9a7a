//! What a run looks things up in.

ghost use Rattle.std.specs.Prelude.{◌≡◌, [], IfOk, MatchOption, map, pos, slice_index_or};
ghost use Rattle.fx_c_ast.specs.CheckedTrees.{VoidTy, ty_tree, tstmt_trees, member_types, struct_types};
ghost use Rattle.fx_c_mean_model.specs.Programs.{Function, program_of, function_at, variable_of, size_in, offset_of};
ghost use Rattle.fx_c_mean_model.specs.Steps.{member_of};
ghost use Rattle.fx_c_mean_acts.specs.Layers.{all_layouts};

use crate::tables::{frames_of, layouts_of};
use fx_c_ast::checked::{TLocal, TMember, TProgram, TStmt, Ty};
use fx_c_ast::layout::Layout;
use fx_c_mean_control::code::function;
use fx_c_mean_control::layouts::{layout, member_offset};
use fx_c_mean_model::rights::Rights;
use std::alloc::{AllocError, Global};

/// A program with its rights, the layouts of its structs and the stack use of its functions.
#[derive(Drop)]
pub struct Source<'p> {
    pub program: &'p TProgram,
    pub rights: Rights,
    pub layouts: Vec<Layout>,
    pub frames: Vec<u32>,
    ghost tables: { layouts.items ≡ all_layouts (struct_types program.now.structs) },
    ghost uses: { frames.items ≡ map (λ (f : Function). f.frame) (program_of program.now).functions },
}

impl<'p> Source<'p> {
    /// The stack use of a call of a function.
    pub fn frame(&self, f: u32) -> u32
        ensures { result ≡ (function_at (program_of self.now.program.now) f).frame }
    {
        match self.frames.get(f as usize) {
            Some(bytes) => *bytes,
            None => 0,
        }
    }

    /// The parameters and locals of a function.
    pub fn variables(&self, f: u32) -> &'p [TLocal]
        ensures { map variable_of result.now ≡ (function_at (program_of self.now.program.now) f).variables }
    {
        match function(self.program, f) {
            Some(function) => function.locals.as_slice(),
            None => &[],
        }
    }

    /// The body of a function.
    pub fn body(&self, f: u32) -> &'p [TStmt]
        ensures { tstmt_trees result.now ≡ (function_at (program_of self.now.program.now) f).body }
    {
        match function(self.program, f) {
            Some(function) => function.body.as_slice(),
            None => &[],
        }
    }

    /// The type of a function's value.
    pub fn result(&self, f: u32) -> Option<&'p Ty>
        ensures { MatchOption result ((function_at (program_of self.now.program.now) f).gives ≡ VoidTy) (λ t. (function_at (program_of self.now.program.now) f).gives ≡ ty_tree t.now) }
    {
        match function(self.program, f) {
            Some(function) => Some(&function.result),
            None => None,
        }
    }

    /// The bytes of a type. An object of 2^32 bytes or more is want of memory.
    pub fn size(&self, ty: &Ty) -> Result<u32, AllocError>
        ensures { IfOk result (λ n. n ≡ size_in (program_of self.now.program.now) (ty_tree ty.now)) }
    {
        match layout(&self.layouts, ty) {
            Some(layout) => match u32::try_from(layout.size) {
                Ok(size) => Ok(size),
                Err(_) => Err(AllocError),
            },
            None => Err(AllocError),
        }
    }

    /// The members of a struct.
    fn members(&self, n: u32) -> &'p [TMember]
        ensures { member_types result.now ≡ slice_index_or (struct_types self.now.program.now.structs) n [] }
    {
        match self.program.structs.as_slice().get(n as usize) {
            Some(of) => of.members.as_slice(),
            None => &[],
        }
    }

    /// Where a member of a struct begins. A place of 2^32 or more is want of memory.
    fn offset(&self, n: u32, member: u32) -> Result<u32, AllocError>
        ensures { IfOk result (λ k. k ≡ offset_of (program_of self.now.program.now) n member) }
    {
        match member_offset(&self.layouts, self.members(n), member as usize) {
            Some(offset) => match u32::try_from(offset) {
                Ok(offset) => Ok(offset),
                Err(_) => Err(AllocError),
            },
            None => Err(AllocError),
        }
    }

    /// Where a member of a struct begins; what is no struct has none but at its first byte.
    pub fn member(&self, ty: &Ty, member: u32) -> Result<u32, AllocError>
        ensures { IfOk result (λ n. pos n ≡ member_of (program_of self.now.program.now) (ty_tree ty.now) member) }
    {
        match ty {
            Ty::Struct(n) => {
                let offset = self.offset(*n, member)?;
                Ok(offset)
            }
            _ => Ok(0),
        }
    }
}

/// What a run of a program looks things up in. Structs of 2^64 bytes or more and stack uses of 2^32 bytes
/// or more are want of memory.
pub fn source_of<'p>(
    alloc: Global,
    program: &'p TProgram,
    rights: Rights,
) -> Result<Source<'p>, AllocError>
    ensures program { IfOk result (λ s. s.program ≡ program.entry) }
    ensures rights { IfOk result (λ s. s.rights ≡ rights) }
{
    let layouts = layouts_of(alloc, program)?;
    let frames = frames_of(alloc, program, &layouts)?;
    Ok(Source {
        program,
        rights,
        layouts,
        frames,
    })
}
