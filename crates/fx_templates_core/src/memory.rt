//! Ops on constants, variables, memory and devices.

ghost use Rattle.std.specs.Prelude.{◌≡◌, ◌≤◌, ◌<◌, ◌^◌, ◌++◌, OnOk};
ghost use Rattle.fx_templates_core.specs.Memory.{at_reg, push_number, push_address, push_variable, store_variable, load_through, store_through, device_place, device_load, device_store, thread_number, push_thread};

use crate::constants::put_constant;
use crate::operands::Variable;
use crate::put::{alu_number, load, put, set, store};
use crate::slots::{load_of, load_slot, reload, spill};
use fx_x64_forms::inst::{AluOp, Inst};
use fx_x64_forms::operand::{Mem, Reg, Width};
use fx_x64_forms::piece::Piece;
use std::alloc::AllocError;

/// Where the running thread's number is.
const THREAD: i32 = 0xf00_0000;

/// What a register points to.
pub fn at_reg(base: Reg) -> Mem
    ensures { result ≡ at_reg base }
{
    Mem { base, disp: 0 }
}

/// A constant becomes the latest operand above `count` others.
pub fn put_push_number(
    out: &mut Vec<Piece>,
    locals: u32,
    count: u16,
    n: u64,
) -> Result<(), AllocError>
    requires { locals ≤ 65536 }
    ensures { OnOk result (out.new.items ≡ out.old.items ++ push_number locals count n) }
{
    spill(out, locals, count)?;
    put_constant(out, Reg::Rax, n)
}

/// The address of a variable becomes the latest operand above `count` others.
pub fn put_push_address(
    out: &mut Vec<Piece>,
    locals: u32,
    count: u16,
    mem: Mem,
) -> Result<(), AllocError>
    requires { locals ≤ 65536 }
    ensures { OnOk result (out.new.items ≡ out.old.items ++ push_address locals count mem) }
{
    let dst = Reg::Rax;
    spill(out, locals, count)?;
    put(out, Inst::Lea { dst, mem })
}

/// The value of a variable becomes the latest operand above `count` others.
pub fn put_push_variable(
    out: &mut Vec<Piece>,
    locals: u32,
    count: u16,
    v: Variable,
) -> Result<(), AllocError>
    requires { locals ≤ 65536 }
    ensures { OnOk result (out.new.items ≡ out.old.items ++ push_variable locals count v) }
{
    spill(out, locals, count)?;
    put(out, load_of(v.width, Reg::Rax, v.mem))
}

/// The latest operand goes to a variable; k others stay.
pub fn put_store_variable(
    out: &mut Vec<Piece>,
    locals: u32,
    k: u16,
    v: Variable,
) -> Result<(), AllocError>
    requires { locals ≤ 65536 }
    ensures { OnOk result (out.new.items ≡ out.old.items ++ store_variable locals k v) }
{
    let w = v.width;
    let mem = v.mem;
    let src = Reg::Rax;
    put(out, Inst::Store { w, mem, src })?;
    reload(out, locals, k)
}

/// The latest operand, a pointer, becomes what it points to.
pub fn put_load_through(out: &mut Vec<Piece>, w: Width) -> Result<(), AllocError>
    ensures { OnOk result (out.new.items ≡ out.old.items ++ load_through w) }
{
    put(out, load_of(w, Reg::Rax, at_reg(Reg::Rax)))
}

/// The latest operand goes where the one below it points; k others stay.
pub fn put_store_through(
    out: &mut Vec<Piece>,
    w: Width,
    locals: u32,
    k: u16,
) -> Result<(), AllocError>
    requires { locals ≤ 65536 }
    ensures { OnOk result (out.new.items ≡ out.old.items ++ store_through w locals k) }
{
    let mem = at_reg(Reg::Rcx);
    let src = Reg::Rax;
    load_slot(out, Reg::Rcx, locals, k)?;
    put(out, Inst::Store { w, mem, src })?;
    reload(out, locals, k)
}

/// Where a register of a device is (this project's own layout).
fn device_place(device: u16, register: u16) -> u32
    ensures value { result ≡ device_place device register }
    ensures small { result < 2 ^ 30 }
{
    0xf10_0000 + 0x1000 * u32::from(device) + 8 * u32::from(register)
}

/// A word from a device becomes the latest operand above `count` others.
pub fn put_device_load(
    out: &mut Vec<Piece>,
    locals: u32,
    count: u16,
    device: u16,
    register: u16,
) -> Result<(), AllocError>
    requires { locals ≤ 65536 }
    ensures { OnOk result (out.new.items ≡ out.old.items ++ device_load locals count device register) }
{
    spill(out, locals, count)?;
    set(out, Reg::Rax, device_place(device, register) as i32)?;
    load(out, Reg::Rax, Reg::Rax, 0)
}

/// The latest operand goes to a device; what stays stands for the value that such an op leaves.
pub fn put_device_store(out: &mut Vec<Piece>, device: u16, register: u16) -> Result<(), AllocError>
    ensures { OnOk result (out.new.items ≡ out.old.items ++ device_store device register) }
{
    set(out, Reg::Rcx, device_place(device, register) as i32)?;
    store(out, Reg::Rcx, 0, Reg::Rax)
}

/// The running thread's number, of sixteen, to a register. Its address stands in `base` until then.
pub fn put_thread_number(out: &mut Vec<Piece>, dst: Reg, base: Reg) -> Result<(), AllocError>
    ensures { OnOk result (out.new.items ≡ out.old.items ++ thread_number dst base) }
{
    set(out, base, THREAD)?;
    load(out, dst, base, 0)?;
    alu_number(out, AluOp::And, dst, 15)
}

/// The running thread's number becomes the latest operand above `count` others.
pub fn put_push_thread(out: &mut Vec<Piece>, locals: u32, count: u16) -> Result<(), AllocError>
    requires { locals ≤ 65536 }
    ensures { OnOk result (out.new.items ≡ out.old.items ++ push_thread locals count) }
{
    spill(out, locals, count)?;
    put_thread_number(out, Reg::Rax, Reg::Rax)
}
