//! The state before the first step.

ghost use Rattle.std.specs.Prelude.{◌≡◌, ◌+◌, ◌-◌, ◌++◌, ◌∷◌, [], length, take, slice_index, IfOk, OnOk};
ghost use Rattle.fx_c_ast.specs.CheckedTrees.{ty_tree};
ghost use Rattle.fx_c_mean_model.specs.Programs.{program_of, first_cells, first_memory, byte_cells, zeros, size_in, live_object, global_objects, literal_objects};
ghost use Rattle.fx_c_mean_model.specs.Steps.{first_state};
ghost use Rattle.fx_c_mean_blocks.specs.Blocks.{bytes_of};
ghost use Rattle.fx_c_mean_blocks.specs.declared.block.Place.TheVariants.{Global as GlobalPlace, Literal as LiteralPlace};
ghost use Rattle.fx_c_mean_acts.specs.Cores.{state_of};

use fx_c_ast::checked::TGlobal;
use fx_c_ast::parsed::{Bytes, Init};
use fx_c_mean_acts::source::Source;
use fx_c_mean_acts::state::{Core, Thread};
use fx_c_mean_blocks::block::{Cells, Object, Place};
use fx_c_mean_blocks::memory::Memory;
use fx_c_mean_blocks::value::{Cell, Value};
use fx_c_mean_control::frames::{ARGUMENTS, Act, Call, Now, Values, Way};
use fx_c_mean_control::stack::Stack;
use std::alloc::{AllocError, Global};

/// The byte at a place, or 0 past the end.
fn byte_at(bytes: &[u8], i: usize) -> u8
    ensures { result ≡ slice_index bytes.now i }
{
    match bytes.get(i) {
        Some(byte) => *byte,
        None => 0,
    }
}

/// Bytes as cells, with zeros behind them, or those of them that so many cells hold.
fn cells_from(alloc: Global, size: u32, bytes: &[u8]) -> Result<Cells, AllocError>
    ensures { IfOk result (λ c. c ≡ take size (byte_cells bytes.now ++ zeros (size - length bytes.now))) }
{
    let mut cells = Vec::with_capacity(alloc, size as usize)?;
    for i in 0..size as usize {
        cells.push(Cell::Byte(byte_at(bytes, i)))?;
    }
    Ok(Cells::from_vec(cells))
}

/// The cells of a global before the run: zeros, a number cut to its type, or a string with zeros behind
/// it.
fn global_cells(alloc: Global, size: u32, init: &Init) -> Result<Cells, AllocError>
    ensures { IfOk result (λ c. c ≡ first_cells size init.now) }
{
    match init {
        Init::Zero => {
            let cells = vec![in alloc; Cell::Byte(0); size as usize]?;
            Ok(Cells::from_vec(cells))
        }
        Init::Number(n) => number_cells(alloc, size, *n),
        Init::Text(bytes) => cells_from(alloc, size, bytes.as_slice()),
    }
}

/// So many lowest bytes of a number.
fn number_cells(alloc: Global, size: u32, n: u64) -> Result<Cells, AllocError>
    ensures { IfOk result (λ c. c ≡ bytes_of size n) }
{
    let mut cells = Vec::with_capacity(alloc, size as usize)?;
    let mut above = n;
    for _i in 0..size {
        cells.push(Cell::Byte((above % 256) as u8))?;
        above /= 256;
    }
    Ok(Cells::from_vec(cells))
}

fn add_global(
    memory: &mut Memory,
    source: &Source<'_>,
    alloc: Global,
    number: u32,
    global: &TGlobal,
) -> Result<(), AllocError>
    ensures { OnOk result
        (memory.new
        ≡ memory.old
        ++ live_object (GlobalPlace number)
        (size_in (program_of source.now.program.now) (ty_tree global.now.ty))
        (first_cells
        (size_in (program_of source.now.program.now) (ty_tree global.now.ty))
        global.now.init)
        ∷ []) }
{
    let size = source.size(&global.ty)?;
    let cells = global_cells(alloc, size, &global.init)?;
    memory.push(Object {
        place: Place::Global(number),
        size,
        live: true,
        cells,
    })
}

fn add_literal(
    memory: &mut Memory,
    alloc: Global,
    number: u32,
    bytes: &Bytes,
) -> Result<(), AllocError>
    ensures { OnOk result (memory.new ≡ memory.old ++ live_object (LiteralPlace number) (length bytes.now) (byte_cells bytes.now) ∷ []) }
{
    match u32::try_from(bytes.len()) {
        Ok(size) => {
            let cells = cells_from(alloc, size, bytes.as_slice())?;
            memory.push(Object {
                place: Place::Literal(number),
                size,
                live: true,
                cells,
            })
        }
        Err(_) => Err(AllocError),
    }
}

/// One more; 2^32 objects are want of memory.
fn next(number: u32) -> Result<u32, AllocError>
    ensures { IfOk result (λ n. n ≡ number + 1) }
{
    match number.checked_add(1) {
        Some(next) => Ok(next),
        None => Err(AllocError),
    }
}

fn add_globals(memory: &mut Memory, source: &Source<'_>, alloc: Global) -> Result<(), AllocError>
    ensures { OnOk result (memory.new ≡ memory.old ++ global_objects (program_of source.now.program.now) 0 (program_of source.now.program.now).globals) }
{
    let mut number: u32 = 0;
    for global in source.program.globals.as_slice() {
        add_global(memory, source, alloc, number, global)?;
        number = next(number)?;
    }
    Ok(())
}

fn add_literals(memory: &mut Memory, alloc: Global, literals: &[Bytes]) -> Result<(), AllocError>
    ensures { OnOk result (memory.new ≡ memory.old ++ literal_objects 0 literals.now) }
{
    let mut number: u32 = 0;
    for literal in literals {
        add_literal(memory, alloc, number, literal)?;
        number = next(number)?;
    }
    Ok(())
}

/// Memory before the run: the globals, then the literals.
fn memory_of(alloc: Global, source: &Source<'_>) -> Result<Memory, AllocError>
    ensures { IfOk result (λ m. m ≡ first_memory (program_of source.now.program.now)) }
{
    let mut memory = Memory::new(alloc);
    add_globals(&mut memory, source, alloc)?;
    add_literals(&mut memory, alloc, source.program.literals.as_slice())?;
    Ok(memory)
}

/// The state before the first step, which calls `main` on thread 0.
pub fn first_core<'p>(alloc: Global, source: &Source<'p>) -> Result<Core<'p>, AllocError>
    ensures { IfOk result (λ c. state_of c ≡ first_state (program_of source.now.program.now)) }
{
    let memory = memory_of(alloc, source)?;
    let mut threads = Vec::new(alloc);
    threads.push(Thread::Running)?;
    let main = source.program.main;
    Ok(Core {
        alloc,
        memory,
        threads,
        current: 0,
        call: Call {
            function: main,
            base: 0,
        },
        here: Now::Does(Act::Enter {
            function: main,
            way: Way::First,
            values: Values {
                items: [Value::Void; ARGUMENTS],
                len: 0,
            },
        }),
        frames: Stack::new(alloc),
    })
}
