//! Where the objects of a program stand in the machine's memory.

ghost use Rattle.std.specs.Prelude.{◌≡◌, ◌+◌, ◌*◌, ◌<◌, ◌≤◌, ◌^◌, IfOk, All, length, slice_index, map};
ghost use Rattle.fx_c_ast.specs.CheckedTrees.{struct_types};
ghost use Rattle.fx_shadow.specs.Frames.{HasFrames};
ghost use Rattle.fx_match_rel.specs.Frames.{table_of, IsFrame};
ghost use Rattle.fx_match_rel.specs.Addresses.{addresses_of, runtime_addresses, stack_size, lift, local_address};

use crate::frames::{FrameTable, table};
use fx_c_ast::checked::TProgram;
use fx_c_ast::sequence::Sequence;
use fx_config::{Config, Mechanism};
use fx_sections::placement::{PlacedSection, Placement};
use fx_shadow::frame;
use fx_shadow::stacks::has_halves;
use std::alloc::{AllocError, Global};

/// Where the objects of a program stand in the machine's memory, and the tables of its functions: all
/// that code generation asks of a program, its placement and its configuration.
#[derive(Drop)]
pub struct Addresses {
    /// The address of each global.
    pub globals: Sequence<u64>,
    /// The address of each literal.
    pub literals: Sequence<u64>,
    /// The address of the runtime's object of each compartment.
    pub runtime: Sequence<u64>,
    /// The table of each function.
    pub frames: Sequence<FrameTable>,
    pub mechanism: Mechanism,
    /// The pages of a stack, or of each of its halves.
    pub stack_pages: u8,
    /// How many compartments there are.
    pub compartments: u8,
}

fn copied(alloc: Global, items: &[u64]) -> Result<Vec<u64>, AllocError>
    ensures { IfOk result (λ v. v.items ≡ items.now) }
{
    items.to_vec(alloc)
}

fn runtime(alloc: Global, sections: &[PlacedSection]) -> Result<Vec<u64>, AllocError>
    ensures { IfOk result (λ v. v.items ≡ runtime_addresses sections.now) }
{
    sections
        .iter()
        .map(|s| 4096 * u64::from(s.page))
        .collect(alloc)
}

fn frames(alloc: Global, p: &TProgram) -> Result<Vec<FrameTable>, AllocError>
    requires program { HasFrames p.now }
    requires few { length p.now.functions < 2 ^ 32 }
    ensures { IfOk result (λ v. v.items ≡ map (table_of (struct_types p.now.structs)) p.now.functions) }
{
    let mut tables = Vec::new(alloc);
    for (number, f) in p.functions.as_slice().iter().enumerate() {
        tables.push(table(alloc, p, f, frame(p, number as u32))?)?;
    }
    Ok(tables)
}

impl Addresses {
    /// The addresses of a program's objects by its placement (this project's own layout).
    pub fn of(
        alloc: Global,
        p: &TProgram,
        at: &Placement,
        c: &Config,
    ) -> Result<Addresses, AllocError>
        requires program { HasFrames p.now }
        requires functions { length p.now.functions < 2 ^ 32 }
        requires few { length c.now.compartments ≤ 16 }
        requires sections { length c.now.compartments ≤ length at.now.sections }
        ensures whole { IfOk result (λ a. a ≡ addresses_of p.now at.now c.now) }
        ensures frames { IfOk result (λ (a : Addresses). All IsFrame a.frames) }
    {
        let count = c.compartments.as_slice().len();
        let globals = copied(alloc, at.globals.as_slice())?;
        let literals = copied(alloc, at.literals.as_slice())?;
        let runtime = runtime(alloc, &at.sections.as_slice()[..count])?;
        let frames = frames(alloc, p)?;
        Ok(Addresses {
            globals: Sequence::from_vec(globals),
            literals: Sequence::from_vec(literals),
            runtime: Sequence::from_vec(runtime),
            frames: Sequence::from_vec(frames),
            mechanism: c.mechanism,
            stack_pages: c.stack_pages,
            compartments: count as u8,
        })
    }

    /// The address of a global.
    pub fn global(&self, object: u32) -> u64
        requires { object < length self.now.globals }
        ensures { result ≡ slice_index self.now.globals object }
    {
        self.globals.as_slice()[object as usize]
    }

    /// The address of a literal.
    pub fn literal(&self, literal: u32) -> u64
        requires { literal < length self.now.literals }
        ensures { result ≡ slice_index self.now.literals literal }
    {
        self.literals.as_slice()[literal as usize]
    }

    /// The address of the runtime's object of a compartment.
    pub fn rt(&self, compartment: u8) -> u64
        requires { compartment < length self.now.runtime }
        ensures { result ≡ slice_index self.now.runtime compartment }
    {
        self.runtime.as_slice()[compartment as usize]
    }

    /// The address of a parameter or a local whose frame is entered with so many bytes of its stack in
    /// use, and whose slot begins so many bytes below the frame pointer.
    pub fn local(&self, thread: u8, compartment: u8, in_use: u64, below: u32, shared: bool) -> u64
        requires { in_use + below + 48 ≤ stack_size self.now }
        ensures { result ≡ local_address self.now thread compartment in_use below shared }
    {
        let size = 4096 * u64::from(self.stack_pages);
        let number = if has_halves(self.mechanism) {
            u64::from(thread) * u64::from(self.compartments) + u64::from(compartment)
        } else {
            u64::from(thread)
        };
        let low = 0x2000_1000 + number * (2 * size + 0x2000);
        low + size - 48 - in_use - u64::from(below) + self.lift(shared)
    }

    /// How far above its place in the frame a local stands: a shared one in the high half, where stacks
    /// have halves.
    pub fn lift(&self, shared: bool) -> u64
        ensures { result ≡ lift self.now shared }
    {
        if shared && has_halves(self.mechanism) {
            4096 * u64::from(self.stack_pages)
        } else {
            0
        }
    }
}
