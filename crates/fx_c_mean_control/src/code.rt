//! A program and its rights.

ghost use Rattle.std.specs.Prelude.{◌≡◌, MatchOption, slice_index, if◌then◌else◌};
ghost use Rattle.fx_c_ast.specs.CheckedTrees.{struct_types};
ghost use Rattle.fx_c_mean_model.specs.Programs.{program_of, function_of, function_at, no_function};
ghost use Rattle.fx_c_mean_model.specs.Rights.{home, may, is_member, is_shared, stack_of, stack_size};

use fx_c_ast::checked::{TFunction, TProgram};
use fx_c_mean_blocks::block::Place;
use fx_c_mean_model::rights::Rights;

/// The function of a number, if there is one.
pub fn function(program: &TProgram, f: u32) -> Option<&TFunction>
    ensures { MatchOption result (function_at (program_of program.now) f ≡ no_function) (λ g. function_at (program_of program.now) f ≡ function_of (struct_types program.now.structs) g.now) }
{
    program.functions.as_slice().get(f as usize)
}

fn library(program: &TProgram, f: u32) -> u8
    ensures { result ≡ (function_at (program_of program.now) f).library }
{
    match function(program, f) {
        Some(function) => function.library,
        None => 0,
    }
}

/// The compartment of a function: that of its library.
pub fn home_of(program: &TProgram, rights: &Rights, f: u32) -> u8
    ensures { result ≡ home (program_of program.now) rights.now f }
{
    let library = library(program, f);
    match rights.homes.as_slice().get(usize::from(library)) {
        Some(compartment) => *compartment,
        None => 0,
    }
}

/// Whether a set of compartments has one; it has none from 16 on.
fn has(set: u16, compartment: u8) -> bool
    ensures { result ≡ is_member compartment set }
{
    if compartment < 16 {
        (set >> compartment) % 2 == 1
    } else {
        false
    }
}

fn sets_at(sets: &[u16], n: u32) -> u16
    ensures { result ≡ slice_index sets.now n }
{
    match sets.get(n as usize) {
        Some(set) => *set,
        None => 0,
    }
}

fn is_shared_local(program: &TProgram, f: u32, local: u16) -> bool
    ensures { result ≡ is_shared (program_of program.now) f local }
{
    let Some(function) = function(program, f) else {
        return false;
    };
    match function.locals.as_slice().get(usize::from(local)) {
        Some(local) => local.shared,
        None => false,
    }
}

/// Whether a compartment may read, or write, an object.
pub fn is_granted(
    program: &TProgram,
    rights: &Rights,
    compartment: u8,
    place: Place,
    write: bool,
) -> bool
    ensures { result ≡ may (program_of program.now) rights.now compartment place write }
{
    match place {
        Place::Literal(_) => !write,
        Place::Global(n) => { !rights.guarded || has(set_of(rights, n, write), compartment) }
        Place::Local { function, local } => {
            !rights.guarded
                || !rights.own_stacks
                || is_shared_local(program, function, local)
                || compartment == home_of(program, rights, function)
        }
    }
}

fn set_of(rights: &Rights, n: u32, write: bool) -> u16
    ensures { result ≡ slice_index (if write then rights.now.writers else rights.now.readers) n }
{
    if write {
        sets_at(rights.writers.as_slice(), n)
    } else {
        sets_at(rights.readers.as_slice(), n)
    }
}

/// The number of the stack of a thread that a function's frames stand on.
pub fn stack_number(program: &TProgram, rights: &Rights, f: u32) -> u8
    ensures { result ≡ stack_of (program_of program.now) rights.now f }
{
    if rights.own_stacks {
        home_of(program, rights, f)
    } else {
        0
    }
}

/// The bytes of a stack.
pub fn stack_bytes(rights: &Rights) -> u32
    ensures { result ≡ stack_size rights.now }
{
    4096 * u32::from(rights.stack_pages)
}
