//! Calls of functions by their numbers.

ghost use Rattle.std.specs.Prelude.{◌≡◌, ◌≤◌, ◌++◌, OnOk};
ghost use Rattle.fx_templates_core.specs.Functions.{width_in, params_at, result_width_at, called};

use crate::calls::put_call;
use fx_match_rel::{Addresses, Scalar};
use fx_x64_forms::operand::Width;
use fx_x64_forms::piece::{Piece, Target};
use std::alloc::AllocError;

/// How wide a value is held; what is no integer in 64 bits.
pub fn width_in(scalar: Option<Scalar>) -> Width
    ensures { result ≡ width_in scalar }
{
    match scalar {
        None => Width::W64,
        Some(s) => s.width,
    }
}

/// How many parameters a function has.
pub fn params_at(a: &Addresses, f: u32) -> u16
    ensures { result ≡ params_at a.now f }
{
    match a.frames.as_slice().get(f as usize) {
        Some(t) => t.params,
        None => 0,
    }
}

/// How wide a function's result is held.
pub fn result_width_at(a: &Addresses, f: u32) -> Width
    ensures { result ≡ result_width_at a.now f }
{
    match a.frames.as_slice().get(f as usize) {
        Some(t) => width_in(t.result),
        None => Width::W64,
    }
}

/// A call of a function, where so many operands are pending.
pub fn put_called(
    out: &mut Vec<Piece>,
    a: &Addresses,
    locals: u32,
    count: u16,
    f: u32,
) -> Result<(), AllocError>
    requires { locals ≤ 65536 }
    ensures { OnOk result (out.new.items ≡ out.old.items ++ called a.now locals count f) }
{
    let params = params_at(a, f);
    let k = count.saturating_sub(params);
    put_call(out, locals, k, params, Target::Function(f))
}
