//! Products.

ghost use Rattle.std.specs.Prelude.{◌≡◌, ◌*ℤ◌, not};
ghost use Rattle.fx_word_ops.specs.Words.{fits};
ghost use Rattle.fx_word_ops.specs.Products.{product_of};

use crate::flags::Flags;
use crate::words::{to_signed, top, zero_extend};
use fx_x64_forms::operand::Width;

/// Whether a number is outside the signed numbers below `h`, those of the width whose top bit is `h`.
#[inline]
pub fn is_over(z: i128, h: u64) -> bool
    ensures { result ≡ not (fits h z) }
{
    let h = i128::from(h);
    (z < -h) | (z >= h)
}

#[inline]
fn signed_product(x: i64, y: i64) -> i128
    ensures { result ≡ x *ℤ y }
{
    i128::from(x) * i128::from(y)
}

/// The low part of the product, and its flags: CF and OF are set where the signed product doesn't
/// fit the width (SDM volume 2, IMUL); SF is the result's top bit and ZF is clear, which is this
/// project's own rule.
#[inline]
pub fn mul(w: Width, a: u64, b: u64) -> (u64, Flags)
    ensures { result ≡ product_of w a b }
{
    let r = zero_extend(w, a.wrapping_mul(b));
    let over = is_over(signed_product(to_signed(w, a), to_signed(w, b)), top(w));
    let flags = Flags {
        cf: over,
        zf: false,
        sf: r >= top(w),
        of: over,
    };
    (r, flags)
}
