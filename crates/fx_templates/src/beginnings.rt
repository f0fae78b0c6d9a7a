//! The beginning of a function: whether its frame fits in the stack, the frame, zeroed locals and
//! parameters.

ghost use Rattle.std.specs.Prelude.{◌≡◌, ◌≤◌, ◌<◌, ◌^◌, ◌+◌, ◌++◌, OnOk, length, pos, All};
ghost use Rattle.fx_match_rel.specs.Addresses.{stack_span};
ghost use Rattle.fx_match_rel.specs.Frames.{IsNear, IsFrame};
ghost use Rattle.fx_templates.specs.Beginnings.{stride, least_pointer, to_least_pointer, test_room};
ghost use Rattle.fx_templates.specs.Beginnings.{named_stack, stack_full, make_frame, zero_words};
ghost use Rattle.fx_templates.specs.Beginnings.{zero_round, next_round, zero_rounds, zero_bytes};
ghost use Rattle.fx_templates.specs.Beginnings.{zero_block, zero_local, store_parameter};
ghost use Rattle.fx_templates.specs.Beginnings.{begin_slot, begin_slots, zero_first, open_frame};
ghost use Rattle.fx_templates.specs.Beginnings.{begins_as};

use crate::variables::slot_mem;
use fx_match_rel::{Addresses, FrameTable, Slot};
use fx_shadow::stacks::has_halves;
use fx_templates_core::calls::argument;
use fx_templates_core::functions::width_in;
use fx_templates_core::memory::put_thread_number;
use fx_templates_core::put::{ahead, alu, alu_number, branch, copy, put, set, store};
use fx_x64_forms::inst::{AluOp, Inst};
use fx_x64_forms::operand::{Cond, Mem, Reg, Width};
use fx_x64_forms::piece::Piece;
use std::alloc::AllocError;

/// The lowest byte of the first stack (this project's own layout).
const FIRST_STACK: u32 = 0x2000_1000;

fn stack_span(a: &Addresses) -> u32
    ensures value { result ≡ stack_span a.now }
    ensures small { result ≤ 2097152 }
{
    let pages = a.stack_pages;
    2 * 4096 * u32::from(pages) + 0x2000
}

/// From the stack of a compartment in one thread to that in the next.
#[tactic(auto, using(crate::proofs::Products::span_bound))]
fn stride(a: &Addresses) -> i32
    ensures { result ≡ pos (stride a.now) }
{
    let span = stack_span(a);
    if has_halves(a.mechanism) {
        (u32::from(a.compartments) * span) as i32
    } else {
        span as i32
    }
}

/// The least RSP, in thread 0, with which a function may begin whose frame has so many bytes.
#[tactic(auto, using(crate::proofs::Products::span_bound))]
fn least_pointer(a: &Addresses, compartment: u8, size: u32) -> i32
    requires { size ≤ 65536 }
    ensures { result ≡ pos (least_pointer a.now compartment size) }
{
    let number = if has_halves(a.mechanism) {
        u32::from(compartment)
    } else {
        0
    };
    (FIRST_STACK + number * stack_span(a) + 56 + size) as i32
}

/// R10 to the least RSP in the running thread, whose number is in R11.
fn put_least_pointer(
    out: &mut Vec<Piece>,
    a: &Addresses,
    compartment: u8,
    size: u32,
) -> Result<(), AllocError>
    requires { size ≤ 65536 }
    ensures { let code = to_least_pointer a.now compartment size in
        OnOk result (out.new.items ≡ out.old.items ++ code) }
{
    let w = Width::W64;
    let dst = Reg::R10;
    let src = Reg::R11;
    set(out, dst, stride(a))?;
    put(out, Inst::Imul { w, dst, src })?;
    alu_number(out, AluOp::Add, dst, least_pointer(a, compartment, size))
}

/// The running thread's number to R11, and on to a piece where there is room for a frame.
fn put_test_room(
    out: &mut Vec<Piece>,
    a: &Addresses,
    compartment: u8,
    size: u32,
    over: u32,
) -> Result<(), AllocError>
    requires { size ≤ 65536 }
    ensures { OnOk result (out.new.items ≡ out.old.items ++ test_room a.now compartment size over) }
{
    put_thread_number(out, Reg::R11, Reg::R10)?;
    put_least_pointer(out, a, compartment, size)?;
    alu(out, AluOp::Cmp, Reg::Rsp, Reg::R10)?;
    branch(out, Cond::Ae, over)
}

fn named_stack(a: &Addresses, compartment: u8) -> i32
    ensures { result ≡ pos (named_stack a.now compartment) }
{
    if has_halves(a.mechanism) {
        i32::from(compartment)
    } else {
        0
    }
}

/// The machine stops with 1, the thread and the stack.
fn put_stack_full(out: &mut Vec<Piece>, a: &Addresses, compartment: u8) -> Result<(), AllocError>
    ensures { OnOk result (out.new.items ≡ out.old.items ++ stack_full a.now compartment) }
{
    set(out, Reg::Rax, 1)?;
    copy(out, Reg::Rdi, Reg::R11)?;
    set(out, Reg::Rsi, named_stack(a, compartment))?;
    put(out, Inst::Hlt)
}

/// The saved frame pointer, and the bytes below it.
fn put_make_frame(out: &mut Vec<Piece>, size: u32) -> Result<(), AllocError>
    requires { size ≤ 65536 }
    ensures { OnOk result (out.new.items ≡ out.old.items ++ make_frame size) }
{
    put(out, Inst::Push { reg: Reg::Rbp })?;
    copy(out, Reg::Rbp, Reg::Rsp)?;
    alu_number(out, AluOp::Sub, Reg::Rsp, size.saturating_sub(16) as i32)
}

/// So many words from R10 on are 0, as RAX is.
fn put_zero_words(out: &mut Vec<Piece>, count: u32) -> Result<(), AllocError>
    requires { count ≤ 16 }
    ensures { OnOk result (out.new.items ≡ out.old.items ++ zero_words count) }
{
    let mut n = count;
    while n > 0 {
        n -= 1;
        store(out, Reg::R10, (8 * n) as i32, Reg::Rax)?;
    }
    Ok(())
}

fn put_zero_round(out: &mut Vec<Piece>, n: u32) -> Result<(), AllocError>
    requires { n < 2 ^ 31 }
    ensures { OnOk result (out.new.items ≡ out.old.items ++ zero_round n) }
{
    set(out, Reg::R11, n as i32)?;
    store(out, Reg::R10, 0, Reg::Rax)?;
    store(out, Reg::R10, 8, Reg::Rax)
}

fn put_next_round(out: &mut Vec<Piece>, top: u32) -> Result<(), AllocError>
    ensures { OnOk result (out.new.items ≡ out.old.items ++ next_round top) }
{
    alu_number(out, AluOp::Add, Reg::R10, 16)?;
    alu_number(out, AluOp::Sub, Reg::R11, 1)?;
    branch(out, Cond::Ne, top)
}

/// So many times sixteen bytes from R10 on are 0, by a loop.
fn put_zero_rounds(out: &mut Vec<Piece>, first: u32, n: u32) -> Result<(), AllocError>
    requires { n < 2 ^ 31 }
    ensures { let here = first + length out.old.items in
        OnOk result (out.new.items ≡ out.old.items ++ zero_rounds here n) }
{
    let top = ahead(out, first, 1)?;
    put_zero_round(out, n)?;
    put_next_round(out, top)
}

fn put_zero_bytes(out: &mut Vec<Piece>, first: u32, bytes: u32) -> Result<(), AllocError>
    requires { bytes ≤ 65536 }
    ensures { let here = first + length out.old.items in
        OnOk result (out.new.items ≡ out.old.items ++ zero_bytes here bytes) }
{
    if bytes <= 128 {
        put_zero_words(out, bytes / 8)
    } else {
        put_zero_rounds(out, first, bytes / 16)
    }
}

fn put_zero_block(out: &mut Vec<Piece>, first: u32, mem: Mem, bytes: u32) -> Result<(), AllocError>
    requires { bytes ≤ 65536 }
    ensures { let here = first + length out.old.items in
        OnOk result (out.new.items ≡ out.old.items ++ zero_block here mem bytes) }
{
    let dst = Reg::R10;
    put(out, Inst::Lea { dst, mem })?;
    put_zero_bytes(out, first, bytes)
}

/// A local is 0.
fn put_zero_local(
    out: &mut Vec<Piece>,
    a: &Addresses,
    first: u32,
    s: &Slot,
) -> Result<(), AllocError>
    requires { IsNear s.now }
    ensures { let here = first + length out.old.items in
        OnOk result (out.new.items ≡ out.old.items ++ zero_local a.now here s.now) }
{
    let w = Width::W64;
    let mem = slot_mem(a, s);
    let src = Reg::Rax;
    match s.scalar {
        None => put_zero_block(out, first, mem, s.room),
        Some(_) => put(out, Inst::Store { w, mem, src }),
    }
}

/// A parameter is what was passed.
fn put_store_parameter(
    out: &mut Vec<Piece>,
    a: &Addresses,
    i: usize,
    s: &Slot,
) -> Result<(), AllocError>
    requires { IsNear s.now }
    ensures { OnOk result (out.new.items ≡ out.old.items ++ store_parameter a.now i s.now) }
{
    let w = width_in(s.scalar);
    let mem = slot_mem(a, s);
    let src = argument(i);
    put(out, Inst::Store { w, mem, src })
}

/// Slot i, of which the first `params` are parameters.
fn put_begin_slot(
    out: &mut Vec<Piece>,
    a: &Addresses,
    params: u16,
    first: u32,
    i: usize,
    s: &Slot,
) -> Result<(), AllocError>
    requires { IsNear s.now }
    ensures { let here = first + length out.old.items in
        OnOk result (out.new.items ≡ out.old.items ++ begin_slot a.now params here i s.now) }
{
    if i < usize::from(params) {
        put_store_parameter(out, a, i, s)
    } else {
        put_zero_local(out, a, first, s)
    }
}

fn put_begin_slots(
    out: &mut Vec<Piece>,
    a: &Addresses,
    params: u16,
    first: u32,
    slots: &[Slot],
) -> Result<(), AllocError>
    requires { All IsNear slots.now }
    ensures { let here = first + length out.old.items in
        OnOk result (out.new.items ≡ out.old.items ++ begin_slots a.now params here 0 slots.now) }
{
    for (i, s) in slots.iter().enumerate() {
        put_begin_slot(out, a, params, first, i, s)?;
    }
    Ok(())
}

/// RAX is 0 where there are locals.
fn put_zero_first(out: &mut Vec<Piece>, params: u16, count: usize) -> Result<(), AllocError>
    ensures { OnOk result (out.new.items ≡ out.old.items ++ zero_first params count) }
{
    if usize::from(params) < count {
        set(out, Reg::Rax, 0)
    } else {
        Ok(())
    }
}

/// The beginning up to the slots.
fn put_open_frame(
    out: &mut Vec<Piece>,
    a: &Addresses,
    compartment: u8,
    first: u32,
    t: &FrameTable,
) -> Result<(), AllocError>
    requires { IsFrame t.now }
    ensures { let here = first + length out.old.items in
        OnOk result (out.new.items ≡ out.old.items ++ open_frame a.now compartment here t.now) }
{
    let over = ahead(out, first, 12)?;
    put_test_room(out, a, compartment, t.size, over)?;
    put_stack_full(out, a, compartment)?;
    put_make_frame(out, t.size)?;
    put_zero_first(out, t.params, t.slots.len())
}

/// The beginning of a function whose table is `t`.
pub(crate) fn put_begins(
    out: &mut Vec<Piece>,
    a: &Addresses,
    compartment: u8,
    first: u32,
    t: &FrameTable,
) -> Result<(), AllocError>
    requires { IsFrame t.now }
    ensures { let here = first + length out.old.items in
        OnOk result (out.new.items ≡ out.old.items ++ begins_as a.now compartment here t.now) }
{
    put_open_frame(out, a, compartment, first, t)?;
    put_begin_slots(out, a, t.params, first, t.slots.as_slice())
}
