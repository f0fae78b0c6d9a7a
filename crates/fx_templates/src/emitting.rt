//! The code of an op and of a function's beginning, appended to the code of a compartment.

ghost use Rattle.std.specs.Prelude.{◌≡◌, ◌++◌, OnOk, OnErr, IfOk, length, All};
ghost use Rattle.fx_match_rel.specs.Frames.{IsFrame};
ghost use Rattle.fx_c_lin.specs.Ops.{op_of};
ghost use Rattle.fx_templates.specs.Ops.{pieces_of, IsNoGate};
ghost use Rattle.fx_templates.specs.Beginnings.{pieces_of_enter};

use crate::beginnings::put_begins;
use crate::ops::{Site, put_op};
use fx_c_lin::op::Op;
use fx_match_rel::Context;
use fx_templates_core::put::ahead;
use fx_x64_forms::piece::Piece;
use std::alloc::{AllocError, Global};

/// The code of an op that begins at the piece `first`.
fn op_code(alloc: Global, op: &Op, cx: &Context<'_>, first: u32) -> Result<Vec<Piece>, AllocError>
    requires frames { All IsFrame cx.now.at.now.frames }
    requires own { IsNoGate (op_of op.now) }
    ensures { let x = cx.now in
        let code = pieces_of x.at.now x.function first x.label x.depth (op_of op.now) in
        IfOk result (λ v. v.items ≡ code) }
{
    let mut code = Vec::new(alloc);
    match cx.at.frames.as_slice().get(cx.function as usize) {
        Some(table) => {
            let site = Site {
                at: cx.at,
                table,
                count: cx.depth,
                label: cx.label,
                first,
            };
            put_op(&mut code, site, op)?;
            Ok(code)
        }
        None => Ok(code),
    }
}

/// The beginning of a function at the piece `first`.
fn enter_code(alloc: Global, cx: &Context<'_>, first: u32) -> Result<Vec<Piece>, AllocError>
    requires { All IsFrame cx.now.at.now.frames }
    ensures { let code = pieces_of_enter cx.now.at.now cx.now.compartment cx.now.function first in
        IfOk result (λ v. v.items ≡ code) }
{
    let mut code = Vec::new(alloc);
    match cx.at.frames.as_slice().get(cx.function as usize) {
        Some(table) => {
            put_begins(&mut code, cx.at, cx.compartment, first, table)?;
            Ok(code)
        }
        None => Ok(code),
    }
}

/// Appends the code of an op other than a gate. Where there is no memory, `out` is as it was.
pub fn emit(
    alloc: Global,
    op: &Op,
    cx: &Context<'_>,
    out: &mut Vec<Piece>,
) -> Result<(), AllocError>
    requires frames { All IsFrame cx.now.at.now.frames }
    requires own { IsNoGate (op_of op.now) }
    ensures code { let x = cx.now in
        let here = length out.old.items in
        let code = pieces_of x.at.now x.function here x.label x.depth (op_of op.now) in
        OnOk result (out.new.items ≡ out.old.items ++ code) }
    ensures kept { OnErr result (out.new.items ≡ out.old.items) }
{
    let first = ahead(out, 0, 0)?;
    let code = op_code(alloc, op, cx, first)?;
    out.extend_from_slice(code.as_slice())
}

/// Appends the beginning of a function. Where there is no memory, `out` is as it was.
pub fn emit_enter(alloc: Global, cx: &Context<'_>, out: &mut Vec<Piece>) -> Result<(), AllocError>
    requires frames { All IsFrame cx.now.at.now.frames }
    ensures code { let x = cx.now in
        let code = pieces_of_enter x.at.now x.compartment x.function (length out.old.items) in
        OnOk result (out.new.items ≡ out.old.items ++ code) }
    ensures kept { OnErr result (out.new.items ≡ out.old.items) }
{
    let first = ahead(out, 0, 0)?;
    let code = enter_code(alloc, cx, first)?;
    out.extend_from_slice(code.as_slice())
}
