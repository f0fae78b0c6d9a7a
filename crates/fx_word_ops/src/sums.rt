//! Sums, differences and bitwise operations.

ghost use Rattle.std.specs.Prelude.{◌≡◌};
ghost use Rattle.fx_word_ops.specs.Sums.{sum_of, difference_of, combination_of};

use crate::flags::{Flags, LogicOp};
use crate::words::{top, zero_extend};
use fx_x64_forms::operand::Width;

/// The sum and its flags (SDM volume 2, ADD).
#[inline]
pub fn add(w: Width, a: u64, b: u64) -> (u64, Flags)
    ensures { result ≡ sum_of w a b }
{
    let x = zero_extend(w, a);
    let y = zero_extend(w, b);
    let r = zero_extend(w, x.wrapping_add(y));
    let h = top(w);
    let flags = Flags {
        cf: r < x,
        zf: r == 0,
        sf: r >= h,
        of: ((x >= h) == (y >= h)) & ((r >= h) != (x >= h)),
    };
    (r, flags)
}

/// The difference and its flags (SDM volume 2, SUB).
#[inline]
pub fn sub(w: Width, a: u64, b: u64) -> (u64, Flags)
    ensures { result ≡ difference_of w a b }
{
    let x = zero_extend(w, a);
    let y = zero_extend(w, b);
    let r = zero_extend(w, x.wrapping_sub(y));
    let h = top(w);
    let flags = Flags {
        cf: x < y,
        zf: r == 0,
        sf: r >= h,
        of: ((x >= h) != (y >= h)) & ((r >= h) != (x >= h)),
    };
    (r, flags)
}

/// A bitwise operation's result and its flags: CF and OF are clear (SDM volume 2, AND, OR, XOR).
#[inline]
pub fn logic(w: Width, op: LogicOp, a: u64, b: u64) -> (u64, Flags)
    ensures { result ≡ combination_of w op a b }
{
    let x = zero_extend(w, a);
    let y = zero_extend(w, b);
    let r = match op {
        LogicOp::And => x & y,
        LogicOp::Or => x | y,
        LogicOp::Xor => x ^ y,
    };
    let flags = Flags {
        cf: false,
        zf: r == 0,
        sf: r >= top(w),
        of: false,
    };
    (r, flags)
}
