//! The code of a function.

ghost use Rattle.std.specs.Prelude.{◌≡◌, ◌<◌, ◌+◌, ◌%◌, ◌^◌, ◌++◌, [], OnOk, IfOk, IsNone, All};
ghost use Rattle.std.specs.Prelude.{length, map, slice_index};
ghost use Rattle.fx_c_lin.specs.Ops.{op_of, step_of};
ghost use Rattle.fx_linker.specs.Entries.{homes};
ghost use Rattle.fx_match_rel.specs.Frames.{IsFrame};
ghost use Rattle.fx_templates.specs.Ops.{IsNoGate};
ghost use Rattle.fx_templates.specs.Beginnings.{pieces_of_enter};
ghost use Rattle.fx_build_parts.specs.Functions.{site_of, gate_of, op_pieces, label_of};
ghost use Rattle.fx_build_parts.specs.Functions.{step_pieces, places_from, body_from, body_with};
ghost use Rattle.fx_build_parts.specs.Functions.{body_pieces, function_pieces};

use crate::pending::{leads_to, pending_before};
use crate::plan::Plan;
use fx_c_ast::checked::TProgram;
use fx_c_lin::op::{Op, Step};
use fx_gates_call::emit_gate;
use fx_linker::PartSpot;
use fx_match_rel::{Context, GateSite};
use fx_templates::{emit, emit_enter};
use fx_templates_core::put::ahead;
use fx_x64_forms::piece::Piece;
use std::alloc::{AllocError, Global};

/// A function whose code is made.
#[derive(Clone, Copy)]
pub(crate) struct Subject<'a> {
    pub program: &'a TProgram,
    pub plan: &'a Plan,
    pub compartment: u8,
    pub function: u32,
}

impl<'a> Subject<'a> {
    /// What is told to code generation with an op.
    fn context(&self, depth: u16, label: u32) -> Context<'a>
        ensures at { result.at.now ≡ self.now.plan.now.at }
        ensures compartment { result.compartment ≡ self.now.compartment }
        ensures function { result.function ≡ self.now.function }
        ensures depth { result.depth ≡ depth }
        ensures label { result.label ≡ label }
    {
        Context {
            program: self.program,
            at: &self.plan.at,
            mechanism: self.plan.at.mechanism,
            compartment: self.compartment,
            function: self.function,
            depth,
            label,
        }
    }
}

/// The compartment of a function; 0 of one that isn't there.
pub(crate) fn home_of(spots: &[PartSpot], f: u32) -> u8
    ensures { result ≡ slice_index (homes spots.now) f }
{
    match spots.get(f as usize) {
        Some(spot) => spot.compartment,
        None => 0,
    }
}

/// The lowest 16 bits of the number of a function among the entries of its compartment.
fn entry_of(numbers: &[u32], f: u32) -> u16
    ensures { result ≡ slice_index numbers.now f % 2 ^ 16 }
{
    match numbers.get(f as usize) {
        Some(number) => (*number % 65_536) as u16,
        None => 0,
    }
}

/// A gate from a compartment to an entry function.
fn site_of(plan: &Plan, compartment: u8, f: u32) -> GateSite
    ensures { result ≡ site_of plan.now compartment f }
{
    GateSite {
        from: compartment,
        to: home_of(plan.spots.as_slice(), f),
        function: f,
        entry: entry_of(plan.numbers.as_slice(), f),
    }
}

/// The entry function to which an op is a gate.
fn gate_of(op: &Op) -> Option<u32>
    ensures value { result ≡ gate_of (op_of op.now) }
    ensures none { IsNone result → IsNoGate (op_of op.now) }
{
    match op {
        Op::Gate(f) => Some(*f),
        Op::Number(_)
        | Op::LocalAddr(_)
        | Op::LoadLocal(_)
        | Op::StoreLocal(_)
        | Op::GlobalAddr(_)
        | Op::LiteralAddr(_)
        | Op::Load(_)
        | Op::Store(_)
        | Op::Copy(_)
        | Op::Unary(..)
        | Op::Binary(..)
        | Op::PtrCompare(..)
        | Op::CompareJump(..)
        | Op::Convert(..)
        | Op::Index(..)
        | Op::IndexLeft(_)
        | Op::Back(_)
        | Op::Difference(_)
        | Op::Offset(_)
        | Op::Jump(_)
        | Op::JumpZero(_)
        | Op::Call(_)
        | Op::Spawn(_)
        | Op::Switch
        | Op::Me
        | Op::DevLoad(..)
        | Op::DevStore(..)
        | Op::Getc
        | Op::Putc
        | Op::Drop
        | Op::Return => None,
    }
}

/// Appends the code of an op before which so many operands are pending, and which leads to a piece.
fn put_op(
    alloc: Global,
    s: &Subject<'_>,
    count: u16,
    label: u32,
    op: &Op,
    out: &mut Vec<Piece>,
) -> Result<(), AllocError>
    requires { All IsFrame s.now.plan.now.at.frames }
    ensures { OnOk result (out.new.items ≡ out.old.items
        ++ op_pieces s.now.plan.now s.now.compartment s.now.function (length out.old.items) label
        count (op_of op.now)) }
{
    let cx = s.context(count, label);
    match gate_of(op) {
        Some(to) => emit_gate(alloc, &cx, &site_of(s.plan, s.compartment, to), out),
        None => emit(alloc, op, &cx, out),
    }
}

/// The piece of a place; 0 of one that isn't there.
fn label_of(places: &[u32], to: Option<u32>) -> u32
    ensures { result ≡ label_of places.now to }
{
    match to {
        Some(to) => match places.get(to as usize) {
            Some(piece) => *piece,
            None => 0,
        },
        None => 0,
    }
}

/// The operands that are pending at a place; 0 at one that isn't there.
fn count_at(counts: &[u16], k: usize) -> u16
    ensures { result ≡ slice_index counts.now k }
{
    match counts.get(k) {
        Some(count) => *count,
        None => 0,
    }
}

/// Appends the code of the op at a place.
fn put_step(
    alloc: Global,
    s: &Subject<'_>,
    counts: &[u16],
    places: &[u32],
    k: usize,
    op: &Op,
    out: &mut Vec<Piece>,
) -> Result<(), AllocError>
    requires { All IsFrame s.now.plan.now.at.frames }
    ensures { OnOk result (out.new.items ≡ out.old.items
        ++ step_pieces s.now.plan.now s.now.compartment s.now.function counts.now places.now k
        (length out.old.items) (op_of op.now)) }
{
    let label = label_of(places, leads_to(op));
    put_op(alloc, s, count_at(counts, k), label, op, out)
}

/// The pieces at which ops begin, and the one behind them, where the first one begins behind `out`.
/// They are written behind `out` for that, and taken away again.
fn places_of(
    alloc: Global,
    s: &Subject<'_>,
    counts: &[u16],
    steps: &[Step],
    out: &mut Vec<Piece>,
) -> Result<Vec<u32>, AllocError>
    requires { All IsFrame s.now.plan.now.at.frames }
    ensures places { IfOk result (λ v. v.items
        ≡ places_from s.now.plan.now s.now.compartment s.now.function counts.now 0
        (length out.old.items) (map step_of steps.now)) }
    ensures kept { OnOk result (out.new.items ≡ out.old.items) }
{
    let start = out.len();
    let mut places = Vec::new(alloc);
    for (k, step) in steps.iter().enumerate() {
        places.push(ahead(out, 0, 0)?)?;
        put_step(alloc, s, counts, &[], k, &step.op, out)?;
    }
    places.push(ahead(out, 0, 0)?)?;
    out.truncate(start);
    Ok(places)
}

/// Appends the code of ops that begin at these pieces.
fn put_steps(
    alloc: Global,
    s: &Subject<'_>,
    counts: &[u16],
    places: &[u32],
    steps: &[Step],
    out: &mut Vec<Piece>,
) -> Result<(), AllocError>
    requires { All IsFrame s.now.plan.now.at.frames }
    ensures { OnOk result (out.new.items ≡ out.old.items
        ++ body_from s.now.plan.now s.now.compartment s.now.function counts.now places.now 0
        (length out.old.items) (map step_of steps.now)) }
{
    for (k, step) in steps.iter().enumerate() {
        put_step(alloc, s, counts, places, k, &step.op, out)?;
    }
    Ok(())
}

/// Appends the code of a function's ops.
fn put_body(
    alloc: Global,
    s: &Subject<'_>,
    steps: &[Step],
    out: &mut Vec<Piece>,
) -> Result<(), AllocError>
    requires { All IsFrame s.now.plan.now.at.frames }
    ensures { OnOk result (out.new.items ≡ out.old.items
        ++ body_pieces s.now.plan.now s.now.compartment s.now.function (length out.old.items)
        (map step_of steps.now)) }
{
    let counts = pending_before(alloc, &s.plan.at, steps)?;
    let places = places_of(alloc, s, &counts, steps, out)?;
    put_steps(alloc, s, &counts, &places, steps, out)
}

/// Appends the code of a function: its beginning, and its ops.
pub(crate) fn put_function(
    alloc: Global,
    s: &Subject<'_>,
    steps: &[Step],
    out: &mut Vec<Piece>,
) -> Result<(), AllocError>
    requires { All IsFrame s.now.plan.now.at.frames }
    ensures { OnOk result (out.new.items ≡ out.old.items
        ++ function_pieces s.now.plan.now s.now.compartment s.now.function (length out.old.items)
        (map step_of steps.now)) }
{
    emit_enter(alloc, &s.context(0, 0), out)?;
    put_body(alloc, s, steps, out)
}
