//! The thread switch.

ghost use Rattle.std.specs.Prelude.{◌≡◌, ◌+◌, ◌<◌, ◌^◌, ◌++◌, pos, OnOk, length};
ghost use Rattle.fx_gates_call.specs.Threads.{words_of, stop, if_begins, running_words, if_ends, dispatch, unless_self, if_no_number, other_words, if_not_live, wait_here, to_other, not_live, end_running, resume_other, next_number, new_words, one_more, now_live, new_stack, begin_there, count_thread, make_thread, leave_running, go_on, thread_switch};

use fx_templates_core::memory::put_thread_number;
use fx_templates_core::put::{ahead, alu, alu_number, branch, copy, jump, load, put, set, store};
use fx_x64_forms::inst::{AluOp, Inst};
use fx_x64_forms::operand::{Cond, Reg, Width};
use fx_x64_forms::piece::{Piece, Target};
use std::alloc::AllocError;

/// In the scheduler's table, of each thread: whether it is live.
const LIVE: i32 = 128;

/// In the scheduler's table: how many threads have been made.
const COUNT: u64 = 256;

/// How many threads there may be.
const THREADS: i32 = 16;

/// The numbers of a thread switch: where its table is, from one thread's stack to the next, and the
/// word at which thread 0 would begin.
#[derive(Clone, Copy, Debug, PartialEq, Eq)]
pub struct Stacks {
    pub table: u64,
    pub stride: u32,
    pub top: u32,
}

/// The number of a thread in a register becomes the place of its words in the table.
fn put_words_of(out: &mut Vec<Piece>, reg: Reg, table: u64) -> Result<(), AllocError>
    ensures { OnOk result (out.new.items ≡ out.old.items ++ words_of reg table) }
{
    let w = Width::W64;
    let src = Reg::Rcx;
    set(out, src, 8)?;
    put(out, Inst::Imul { w, dst: reg, src })?;
    put(
        out,
        Inst::MovImm64 {
            dst: src,
            imm: table,
        },
    )?;
    alu(out, AluOp::Add, reg, src)
}

/// The machine stops with a number.
pub fn put_stop(out: &mut Vec<Piece>, code: u8) -> Result<(), AllocError>
    ensures { OnOk result (out.new.items ≡ out.old.items ++ stop code) }
{
    set(out, Reg::Rax, i32::from(code))?;
    put(out, Inst::Hlt)
}

fn put_if_begins(out: &mut Vec<Piece>, to: u32) -> Result<(), AllocError>
    ensures { OnOk result (out.new.items ≡ out.old.items ++ if_begins to) }
{
    alu_number(out, AluOp::Cmp, Reg::Rsi, 2)?;
    branch(out, Cond::E, to)
}

/// The running thread's number to R8, its words to R11.
fn put_running_words(out: &mut Vec<Piece>, table: u64) -> Result<(), AllocError>
    ensures { OnOk result (out.new.items ≡ out.old.items ++ running_words table) }
{
    put_thread_number(out, Reg::R8, Reg::Rdx)?;
    copy(out, Reg::R11, Reg::R8)?;
    put_words_of(out, Reg::R11, table)
}

fn put_if_ends(out: &mut Vec<Piece>, to: u32) -> Result<(), AllocError>
    ensures { OnOk result (out.new.items ≡ out.old.items ++ if_ends to) }
{
    alu_number(out, AluOp::Cmp, Reg::Rsi, 0)?;
    branch(out, Cond::E, to)
}

fn put_dispatch(out: &mut Vec<Piece>, table: u64, begin: u32, ending: u32) -> Result<(), AllocError>
    ensures { OnOk result (out.new.items ≡ out.old.items ++ dispatch table begin ending) }
{
    put_if_begins(out, begin)?;
    put_running_words(out, table)?;
    put_if_ends(out, ending)
}

/// To oneself there is nothing to do.
fn put_unless_self(out: &mut Vec<Piece>, to: u32) -> Result<(), AllocError>
    ensures { OnOk result (out.new.items ≡ out.old.items ++ unless_self to) }
{
    alu(out, AluOp::Cmp, Reg::Rdi, Reg::R8)?;
    branch(out, Cond::Ne, to)?;
    put(out, Inst::Ret)
}

fn put_if_no_number(out: &mut Vec<Piece>, to: u32) -> Result<(), AllocError>
    ensures { OnOk result (out.new.items ≡ out.old.items ++ if_no_number to) }
{
    alu_number(out, AluOp::Cmp, Reg::Rdi, THREADS)?;
    branch(out, Cond::Ae, to)
}

/// The words of the other thread to R9.
fn put_other_words(out: &mut Vec<Piece>, table: u64) -> Result<(), AllocError>
    ensures { OnOk result (out.new.items ≡ out.old.items ++ other_words table) }
{
    copy(out, Reg::R9, Reg::Rdi)?;
    put_words_of(out, Reg::R9, table)
}

fn put_if_not_live(out: &mut Vec<Piece>, to: u32) -> Result<(), AllocError>
    ensures { OnOk result (out.new.items ≡ out.old.items ++ if_not_live to) }
{
    load(out, Reg::Rax, Reg::R9, LIVE)?;
    alu_number(out, AluOp::Cmp, Reg::Rax, 1)?;
    branch(out, Cond::Ne, to)
}

/// The running thread waits at the address on its stack.
fn put_wait_here(out: &mut Vec<Piece>, to: u32) -> Result<(), AllocError>
    ensures { OnOk result (out.new.items ≡ out.old.items ++ wait_here to) }
{
    store(out, Reg::R11, 0, Reg::Rsp)?;
    jump(out, Target::Label(to))
}

fn put_to_other(out: &mut Vec<Piece>, table: u64, bad: u32, resume: u32) -> Result<(), AllocError>
    ensures { OnOk result (out.new.items ≡ out.old.items ++ to_other table bad resume) }
{
    put_if_no_number(out, bad)?;
    put_other_words(out, table)?;
    put_if_not_live(out, bad)?;
    put_wait_here(out, resume)
}

fn put_not_live(out: &mut Vec<Piece>) -> Result<(), AllocError>
    ensures { OnOk result (out.new.items ≡ out.old.items ++ not_live) }
{
    set(out, Reg::Rax, 0)?;
    store(out, Reg::R11, LIVE, Reg::Rax)
}

/// The running thread has ended.
fn put_end_running(out: &mut Vec<Piece>, table: u64) -> Result<(), AllocError>
    ensures { OnOk result (out.new.items ≡ out.old.items ++ end_running table) }
{
    put_not_live(out)?;
    put_other_words(out, table)
}

/// The other thread runs where it waited.
fn put_resume_other(out: &mut Vec<Piece>) -> Result<(), AllocError>
    ensures { OnOk result (out.new.items ≡ out.old.items ++ resume_other) }
{
    store(out, Reg::Rdx, 0, Reg::Rdi)?;
    load(out, Reg::Rsp, Reg::R9, 0)?;
    put(out, Inst::Ret)
}

/// The number of a new thread to RAX.
fn put_next_number(out: &mut Vec<Piece>, table: u64, full: u32) -> Result<(), AllocError>
    requires { table + 256 < 2 ^ 64 }
    ensures { OnOk result (out.new.items ≡ out.old.items ++ next_number table full) }
{
    let dst = Reg::Rdx;
    let imm = table + COUNT;
    put(out, Inst::MovImm64 { dst, imm })?;
    load(out, Reg::Rax, dst, 0)?;
    alu_number(out, AluOp::Cmp, Reg::Rax, THREADS)?;
    branch(out, Cond::Ae, full)
}

/// The words of a new thread to R9.
fn put_new_words(out: &mut Vec<Piece>, table: u64) -> Result<(), AllocError>
    ensures { OnOk result (out.new.items ≡ out.old.items ++ new_words table) }
{
    copy(out, Reg::R9, Reg::Rax)?;
    put_words_of(out, Reg::R9, table)
}

fn put_one_more(out: &mut Vec<Piece>) -> Result<(), AllocError>
    ensures { OnOk result (out.new.items ≡ out.old.items ++ one_more) }
{
    copy(out, Reg::Rcx, Reg::Rax)?;
    alu_number(out, AluOp::Add, Reg::Rcx, 1)?;
    store(out, Reg::Rdx, 0, Reg::Rcx)
}

fn put_now_live(out: &mut Vec<Piece>) -> Result<(), AllocError>
    ensures { OnOk result (out.new.items ≡ out.old.items ++ now_live) }
{
    set(out, Reg::Rcx, 1)?;
    store(out, Reg::R9, LIVE, Reg::Rcx)
}

/// RDX to the word on its stack at which a new thread begins.
fn put_new_stack(out: &mut Vec<Piece>, stride: u32, top: u32) -> Result<(), AllocError>
    requires stride { stride < 2 ^ 31 }
    requires top { top < 2 ^ 31 }
    ensures { OnOk result (out.new.items ≡ out.old.items ++ new_stack stride top) }
{
    let w = Width::W64;
    let dst = Reg::Rdx;
    let src = Reg::Rax;
    set(out, dst, stride as i32)?;
    put(out, Inst::Imul { w, dst, src })?;
    alu_number(out, AluOp::Add, dst, top as i32)
}

/// The start's address, and above it the argument.
fn put_begin_there(out: &mut Vec<Piece>) -> Result<(), AllocError>
    ensures { OnOk result (out.new.items ≡ out.old.items ++ begin_there) }
{
    load(out, Reg::Rcx, Reg::Rsp, 8)?;
    store(out, Reg::Rdx, 0, Reg::Rcx)?;
    store(out, Reg::Rdx, 8, Reg::Rdi)?;
    store(out, Reg::R9, 0, Reg::Rdx)
}

fn put_count_thread(out: &mut Vec<Piece>, table: u64, full: u32) -> Result<(), AllocError>
    requires { table + 256 < 2 ^ 64 }
    ensures { OnOk result (out.new.items ≡ out.old.items ++ count_thread table full) }
{
    put_next_number(out, table, full)?;
    put_new_words(out, table)?;
    put_one_more(out)?;
    put_now_live(out)
}

/// A thread is made.
fn put_make_thread(out: &mut Vec<Piece>, s: Stacks, full: u32) -> Result<(), AllocError>
    requires table { s.table + 256 < 2 ^ 64 }
    requires stride { s.stride < 2 ^ 31 }
    requires top { s.top < 2 ^ 31 }
    ensures { OnOk result (out.new.items ≡ out.old.items ++ make_thread s.table s.stride s.top full) }
{
    put_count_thread(out, s.table, full)?;
    put_new_stack(out, s.stride, s.top)?;
    put_begin_there(out)?;
    put(out, Inst::Ret)
}

/// What is asked, and the running thread waits.
fn put_leave_running(out: &mut Vec<Piece>, table: u64, here: u32) -> Result<(), AllocError>
    requires { here + 64 < 2 ^ 32 }
    ensures { OnOk result (out.new.items ≡ out.old.items ++ leave_running table here) }
{
    put_dispatch(out, table, here + 39, here + 27)?;
    put_unless_self(out, here + 15)?;
    put_to_other(out, table, here + 37, here + 34)
}

fn put_go_on(out: &mut Vec<Piece>, table: u64) -> Result<(), AllocError>
    ensures { OnOk result (out.new.items ≡ out.old.items ++ go_on table) }
{
    put_end_running(out, table)?;
    put_resume_other(out)?;
    put_stop(out, 2)
}

fn put_parts(out: &mut Vec<Piece>, s: Stacks, here: u32) -> Result<(), AllocError>
    requires table { s.table + 256 < 2 ^ 64 }
    requires stride { s.stride < 2 ^ 31 }
    requires top { s.top < 2 ^ 31 }
    requires room { here + 64 < 2 ^ 32 }
    ensures { OnOk result (out.new.items ≡ out.old.items ++ thread_switch s.table s.stride s.top here) }
{
    put_leave_running(out, s.table, here)?;
    put_go_on(out, s.table)?;
    put_make_thread(out, s, here + 61)?;
    put_stop(out, 3)
}

/// The thread switch. The first piece of `out` is number `first` of its list.
pub fn put_thread_switch(out: &mut Vec<Piece>, first: u32, s: Stacks) -> Result<(), AllocError>
    requires table { s.table + 256 < 2 ^ 64 }
    requires stride { s.stride < 2 ^ 31 }
    requires top { s.top < 2 ^ 31 }
    ensures { OnOk result (out.new.items ≡ out.old.items ++ thread_switch s.table s.stride s.top (first + length out.old.items)) }
{
    let _last = ahead(out, first, 64)?;
    let here = ahead(out, first, 0)?;
    put_parts(out, s, here)
}
