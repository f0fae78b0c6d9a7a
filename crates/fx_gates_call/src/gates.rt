//! Plain gates: a call, with room for 16 bytes where it leads to another compartment.

ghost use Rattle.std.specs.Prelude.{◌≡◌, ◌≤◌, ◌++◌, OnOk, OnErr, IfOk, All};
ghost use Rattle.fx_match_rel.specs.Frames.{IsFrame};
ghost use Rattle.fx_gates_call.specs.Gates.{between, gate, pieces_of_gate};

use fx_match_rel::{Addresses, Context, GateSite};
use fx_templates_core::cores::put_cut;
use fx_templates_core::functions::{put_called, result_width_at};
use fx_templates_core::put::alu_number;
use fx_x64_forms::inst::AluOp;
use fx_x64_forms::operand::Reg;
use fx_x64_forms::piece::Piece;
use std::alloc::{AllocError, Global};

/// A call to another compartment.
fn put_between(
    out: &mut Vec<Piece>,
    a: &Addresses,
    locals: u32,
    count: u16,
    f: u32,
) -> Result<(), AllocError>
    requires { locals ≤ 65536 }
    ensures { OnOk result (out.new.items ≡ out.old.items ++ between a.now locals count f) }
{
    alu_number(out, AluOp::Sub, Reg::Rsp, 16)?;
    put_called(out, a, locals, count, f)?;
    alu_number(out, AluOp::Add, Reg::Rsp, 16)?;
    put_cut(out, result_width_at(a, f))
}

fn put_gate(
    out: &mut Vec<Piece>,
    a: &Addresses,
    locals: u32,
    count: u16,
    site: &GateSite,
) -> Result<(), AllocError>
    requires { locals ≤ 65536 }
    ensures { OnOk result (out.new.items ≡ out.old.items ++ gate a.now locals count site.now) }
{
    if site.from == site.to {
        put_called(out, a, locals, count, site.function)
    } else {
        put_between(out, a, locals, count, site.function)
    }
}

fn gate_code(alloc: Global, cx: &Context<'_>, site: &GateSite) -> Result<Vec<Piece>, AllocError>
    requires { All IsFrame cx.now.at.now.frames }
    ensures { IfOk result (λ v. v.items ≡ pieces_of_gate cx.now.at.now cx.now.function cx.now.depth site.now) }
{
    let mut code = Vec::new(alloc);
    match cx.at.frames.as_slice().get(cx.function as usize) {
        Some(table) => {
            put_gate(&mut code, cx.at, table.locals, cx.depth, site)?;
            Ok(code)
        }
        None => Ok(code),
    }
}

/// Appends the code of a gate. Where there is no memory, `out` is as it was.
pub fn emit_gate(
    alloc: Global,
    cx: &Context<'_>,
    site: &GateSite,
    out: &mut Vec<Piece>,
) -> Result<(), AllocError>
    requires { All IsFrame cx.now.at.now.frames }
    ensures code { OnOk result (out.new.items ≡ out.old.items ++ pieces_of_gate cx.now.at.now cx.now.function cx.now.depth site.now) }
    ensures kept { OnErr result (out.new.items ≡ out.old.items) }
{
    let code = gate_code(alloc, cx, site)?;
    out.extend_from_slice(code.as_slice())
}
