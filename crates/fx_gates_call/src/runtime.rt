//! What an image under plain calls has beside its compartments' code: the start, the thread switch
//! and the abort stub.

ghost use Rattle.std.specs.Prelude.{◌≡◌, ◌+◌, ◌*◌, ◌<◌, ◌^◌, ◌++◌, OnOk, OnErr, IfOk, length, slice_get};
ghost use Rattle.fx_c_ast.specs.CheckedTrees.{ty_tree};
ghost use Rattle.fx_shadow.specs.Stacks.{stack_span};
ghost use Rattle.fx_gates_call.specs.Runtime.{as_number, integer_value, exit_value, exit_value_in, start, table_at, first_word, switch_at, first_table, table_of, tables_from, up_to_abort, runtime_pieces, map_with, runtime_map};

use crate::threads::{Stacks, put_stop, put_thread_switch};
use fx_c_ast::checked::{TProgram, Ty};
use fx_c_ast::operator::IntType;
use fx_config::{Compartment, Config};
use fx_grants::Grants;
use fx_image::{Bytes, List};
use fx_image_runtime::{Initials, RuntimeMap};
use fx_match_rel::frames::{is_signed, width_of};
use fx_sections::{PlacedSection, Placement};
use fx_templates_core::put::{ahead, call, copy, put, set};
use fx_x64_forms::inst::Inst;
use fx_x64_forms::operand::{Reg, Width};
use fx_x64_forms::piece::{Piece, Target};
use std::alloc::{AllocError, Global};

/// The lowest byte of the first stack (this project's own layout).
const FIRST_STACK: u32 = 0x2000_1000;

/// RAX, a word of an integer type, as a number of 64 bits.
fn put_as_number(out: &mut Vec<Piece>, signed: bool, w: Width) -> Result<(), AllocError>
    ensures { OnOk result (out.new.items ≡ out.old.items ++ as_number signed w) }
{
    let dst = Reg::Rax;
    let src = Reg::Rax;
    if signed {
        match w {
            Width::W64 => Ok(()),
            Width::W32 | Width::W16 | Width::W8 => put(out, Inst::Sign { from: w, dst, src }),
        }
    } else {
        Ok(())
    }
}

fn put_integer(out: &mut Vec<Piece>, i: IntType) -> Result<(), AllocError>
    ensures { OnOk result (out.new.items ≡ out.old.items ++ integer_value i) }
{
    put_as_number(out, is_signed(i), width_of(i))?;
    copy(out, Reg::Rdi, Reg::Rax)
}

/// What a run exits with: the integer that `main` gives, else 0.
fn put_exit_value(out: &mut Vec<Piece>, gives: &Ty) -> Result<(), AllocError>
    ensures { OnOk result (out.new.items ≡ out.old.items ++ exit_value (ty_tree gives.now)) }
{
    match gives {
        Ty::Int(i) => put_integer(out, *i),
        Ty::Void | Ty::Struct(_) | Ty::Ptr(_) | Ty::Array(..) => set(out, Reg::Rdi, 0),
    }
}

fn put_exit_of_main(out: &mut Vec<Piece>, p: &TProgram) -> Result<(), AllocError>
    ensures { OnOk result (out.new.items ≡ out.old.items ++ exit_value_in (slice_get p.now.functions p.now.main)) }
{
    match p.functions.as_slice().get(p.main as usize) {
        Some(f) => put_exit_value(out, &f.result),
        None => set(out, Reg::Rdi, 0),
    }
}

/// `main` is called, and the machine stops with 0 and its value.
fn put_start(out: &mut Vec<Piece>, p: &TProgram) -> Result<(), AllocError>
    ensures { OnOk result (out.new.items ≡ out.old.items ++ start p.now) }
{
    call(out, Target::Function(p.main))?;
    put_exit_of_main(out, p)?;
    put_stop(out, 0)
}

/// The lowest byte of a section, which its compartment's table begins with.
fn low_of(s: PlacedSection) -> u64
    ensures value { result ≡ 4096 * s.page }
    ensures small { result < 2 ^ 44 }
{
    4096 * u64::from(s.page)
}

/// The table of the scheduler's compartment.
fn table_at(at: &Placement, k: &Config) -> u64
    ensures value { result ≡ table_at at.now k.now }
    ensures small { result < 2 ^ 44 }
{
    match at.sections.as_slice().get(usize::from(k.scheduler)) {
        Some(s) => low_of(*s),
        None => 0,
    }
}

/// The stacks of threads.
fn stacks(at: &Placement, k: &Config) -> Stacks
    ensures table { result.table ≡ table_at at.now k.now }
    ensures stride { result.stride ≡ stack_span k.now }
    ensures top { result.top ≡ first_word k.now }
    ensures small { result.table < 2 ^ 44 }
    ensures near { result.stride < 2 ^ 31 }
    ensures low { result.top < 2 ^ 31 }
{
    let size = 4096 * u32::from(k.stack_pages);
    Stacks {
        table: table_at(at, k),
        stride: 2 * size + 0x2000,
        top: FIRST_STACK + size - 48,
    }
}

fn put_switch(
    out: &mut Vec<Piece>,
    at: &Placement,
    k: &Config,
    first: u32,
) -> Result<(), AllocError>
    ensures { OnOk result (out.new.items ≡ out.old.items ++ switch_at at.now k.now (first + length out.old.items)) }
{
    put_thread_switch(out, first, stacks(at, k))
}

/// Thread 0 is live, and one thread has been made.
fn first_table(alloc: Global) -> Result<Vec<u8>, AllocError>
    ensures { IfOk result (λ v. v.items ≡ first_table) }
{
    let mut bytes = Vec::new(alloc);
    bytes.extend_from_slice(&[0; 128])?;
    bytes.push(1)?;
    bytes.extend_from_slice(&[0; 127])?;
    bytes.push(1)?;
    Ok(bytes)
}

/// The table of a compartment at boot.
fn table_of(alloc: Global, scheduler: u8, c: usize) -> Result<Bytes, AllocError>
    ensures { IfOk result (λ b. b ≡ table_of scheduler c) }
{
    if c == usize::from(scheduler) {
        Ok(Bytes::from_vec(first_table(alloc)?))
    } else {
        Ok(Bytes::from_vec(Vec::new(alloc)))
    }
}

/// The tables of the compartments at boot.
fn tables(
    alloc: Global,
    scheduler: u8,
    compartments: &[Compartment],
) -> Result<Initials, AllocError>
    ensures { IfOk result (λ v. v ≡ tables_from scheduler 0 compartments.now) }
{
    let mut found = Vec::new(alloc);
    for (c, _) in compartments.iter().enumerate() {
        found.push(table_of(alloc, scheduler, c)?)?;
    }
    Ok(List::from_vec(found))
}

/// The runtime's code, and the numbers of the pieces at which its parts begin.
#[derive(Drop)]
struct Built {
    code: Vec<Piece>,
    switch: u32,
    abort: u32,
}

/// The runtime's code that begins at the piece `first`.
fn build(
    alloc: Global,
    p: &TProgram,
    at: &Placement,
    k: &Config,
    first: u32,
) -> Result<Built, AllocError>
    ensures code { IfOk result (λ (b : Built). b.code.items ≡ runtime_pieces p.now at.now k.now first) }
    ensures switch { IfOk result (λ (b : Built). b.switch ≡ first + length (start p.now)) }
    ensures abort { IfOk result (λ (b : Built). b.abort ≡ first + length (up_to_abort p.now at.now k.now first)) }
{
    let mut code = Vec::new(alloc);
    put_start(&mut code, p)?;
    let switch = ahead(&code, first, 0)?;
    put_switch(&mut code, at, k, first)?;
    let abort = ahead(&code, first, 0)?;
    put_stop(&mut code, 4)?;
    Ok(Built {
        code,
        switch,
        abort,
    })
}

/// Where the parts of a runtime stand that begins at the piece `first`.
fn map_of(
    alloc: Global,
    k: &Config,
    first: u32,
    switch: u32,
    abort: u32,
) -> Result<RuntimeMap, AllocError>
    ensures { IfOk result (λ m. m ≡ map_with k.now first switch abort) }
{
    let mut starts = Vec::new(alloc);
    starts.push(first)?;
    Ok(RuntimeMap {
        stubs: List::from_vec(Vec::new(alloc)),
        abort,
        idle: 0,
        switch,
        starts: List::from_vec(starts),
        initials: tables(alloc, k.scheduler, k.compartments.as_slice())?,
    })
}

/// Appends the runtime of an image whose gates are plain calls: its start, the thread switch and the
/// abort stub. Where there is no memory, `out` is as it was.
pub fn emit_runtime(
    alloc: Global,
    p: &TProgram,
    _g: &Grants,
    at: &Placement,
    c: &Config,
    out: &mut Vec<Piece>,
) -> Result<RuntimeMap, AllocError>
    ensures code { OnOk result (out.new.items ≡ out.old.items ++ runtime_pieces p.now at.now c.now (length out.old.items)) }
    ensures map { IfOk result (λ m. m ≡ runtime_map p.now at.now c.now (length out.old.items)) }
    ensures kept { OnErr result (out.new.items ≡ out.old.items) }
{
    let first = ahead(out, 0, 0)?;
    let built = build(alloc, p, at, c, first)?;
    let map = map_of(alloc, c, first, built.switch, built.abort)?;
    out.extend_from_slice(built.code.as_slice())?;
    Ok(map)
}
