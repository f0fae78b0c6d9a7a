//! Calls, returns and threads. Arguments go by registers (System V ABI for x86-64); a result is in RAX.

ghost use Rattle.std.specs.Prelude.{◌≡◌, ◌≤◌, ◌<◌, ◌^◌, ◌+◌, ◌++◌, OnOk, length};
ghost use Rattle.fx_templates_core.specs.Calls.{argument, load_arguments, arguments, call_with, default_result, leave, return, ask, ask_over, wait, switch, end_thread, thread_start, spawn};

use crate::put::{ahead, call, copy, jump, put, set};
use crate::slots::{load_slot, spill};
use fx_x64_forms::inst::Inst;
use fx_x64_forms::operand::Reg;
use fx_x64_forms::piece::{Piece, Target};
use std::alloc::AllocError;

/// What the thread switch is asked for, in RSI: the running thread has ended.
pub const ENDS: u8 = 0;

/// The running thread goes to another one.
pub const SWITCHES: u8 = 1;

/// A thread is made.
pub const BEGINS: u8 = 2;

/// The register of argument i, of six.
pub fn argument(i: usize) -> Reg
    ensures { result ≡ argument i }
{
    match i {
        0 => Reg::Rdi,
        1 => Reg::Rsi,
        2 => Reg::Rdx,
        3 => Reg::Rcx,
        4 => Reg::R8,
        _ => Reg::R9,
    }
}

/// The first `count` arguments from their slots, with k operands below them.
fn load_arguments(out: &mut Vec<Piece>, locals: u32, k: u16, count: u16) -> Result<(), AllocError>
    requires frame { locals ≤ 65536 }
    requires few { k + count < 2 ^ 16 }
    ensures { OnOk result (out.new.items ≡ out.old.items ++ load_arguments locals k count) }
{
    let mut i = count;
    while i > 0 {
        i -= 1;
        load_slot(out, argument(usize::from(i)), locals, k + i)?;
    }
    Ok(())
}

/// The arguments of a call, with k operands below them.
pub fn put_arguments(
    out: &mut Vec<Piece>,
    locals: u32,
    k: u16,
    count: u16,
) -> Result<(), AllocError>
    requires frame { locals ≤ 65536 }
    requires few { k + count < 2 ^ 16 }
    ensures { OnOk result (out.new.items ≡ out.old.items ++ arguments locals k count) }
{
    if count == 0 {
        spill(out, locals, k)
    } else {
        copy(out, argument(usize::from(count - 1)), Reg::Rax)?;
        load_arguments(out, locals, k, count - 1)
    }
}

/// A call with arguments.
pub fn put_call(
    out: &mut Vec<Piece>,
    locals: u32,
    k: u16,
    count: u16,
    to: Target,
) -> Result<(), AllocError>
    requires frame { locals ≤ 65536 }
    requires few { k + count < 2 ^ 16 }
    ensures { OnOk result (out.new.items ≡ out.old.items ++ call_with locals k count to) }
{
    put_arguments(out, locals, k, count)?;
    call(out, to)
}

/// 0 or null, where a result is due and none is pending.
fn put_default(out: &mut Vec<Piece>, due: bool, count: u16) -> Result<(), AllocError>
    ensures { OnOk result (out.new.items ≡ out.old.items ++ default_result due count) }
{
    if due && count == 0 {
        set(out, Reg::Rax, 0)
    } else {
        Ok(())
    }
}

fn put_leave(out: &mut Vec<Piece>) -> Result<(), AllocError>
    ensures { OnOk result (out.new.items ≡ out.old.items ++ leave) }
{
    copy(out, Reg::Rsp, Reg::Rbp)?;
    put(out, Inst::Pop { reg: Reg::Rbp })?;
    put(out, Inst::Ret)
}

/// A return with the pending value, or with 0 or null where one is due.
pub fn put_return(out: &mut Vec<Piece>, due: bool, count: u16) -> Result<(), AllocError>
    ensures { OnOk result (out.new.items ≡ out.old.items ++ return due count) }
{
    put_default(out, due, count)?;
    put_leave(out)
}

/// What the thread switch is to do, with what is in RAX.
fn put_ask(out: &mut Vec<Piece>, what: u8) -> Result<(), AllocError>
    ensures { OnOk result (out.new.items ≡ out.old.items ++ ask what) }
{
    copy(out, Reg::Rdi, Reg::Rax)?;
    set(out, Reg::Rsi, i32::from(what))
}

/// The frame pointer waits above the return address.
fn put_wait(out: &mut Vec<Piece>) -> Result<(), AllocError>
    ensures { OnOk result (out.new.items ≡ out.old.items ++ wait) }
{
    put(out, Inst::Push { reg: Reg::Rbp })?;
    call(out, Target::Switch)?;
    put(out, Inst::Pop { reg: Reg::Rbp })
}

/// To the thread whose number is in RAX.
pub fn put_switch(out: &mut Vec<Piece>) -> Result<(), AllocError>
    ensures { OnOk result (out.new.items ≡ out.old.items ++ switch) }
{
    put_ask(out, SWITCHES)?;
    put_wait(out)
}

/// A thread ends in favour of thread 0.
fn put_end_thread(out: &mut Vec<Piece>) -> Result<(), AllocError>
    ensures { OnOk result (out.new.items ≡ out.old.items ++ end_thread) }
{
    set(out, Reg::Rdi, 0)?;
    set(out, Reg::Rsi, i32::from(ENDS))?;
    jump(out, Target::Switch)
}

/// A thread begins with its argument on its stack, and calls its function.
fn put_thread_start(out: &mut Vec<Piece>, f: u32) -> Result<(), AllocError>
    ensures { OnOk result (out.new.items ≡ out.old.items ++ thread_start f) }
{
    put(out, Inst::Pop { reg: Reg::Rdi })?;
    call(out, Target::Function(f))?;
    put_end_thread(out)
}

/// The call over the start of a thread that is to be made.
fn put_ask_over(out: &mut Vec<Piece>, over: u32) -> Result<(), AllocError>
    ensures { OnOk result (out.new.items ≡ out.old.items ++ ask_over over) }
{
    put_ask(out, BEGINS)?;
    call(out, Target::Label(over))
}

/// A thread that will call a function with what is in RAX. The first piece of `out` is number `first` of its
/// list.
pub fn put_spawn(out: &mut Vec<Piece>, first: u32, f: u32) -> Result<(), AllocError>
    ensures { OnOk result (out.new.items ≡ out.old.items ++ spawn (first + length out.old.items) f) }
{
    let over = ahead(out, first, 8)?;
    put_ask_over(out, over)?;
    put_thread_start(out, f)?;
    call(out, Target::Switch)?;
    put(out, Inst::Pop { reg: Reg::Rcx })
}
