//! Quotients and remainders.

ghost use Rattle.std.specs.Prelude.{◌≡◌, ◌≢◌, ◌+◌, ◌*◌, pos, true};
ghost use Rattle.std.specs.Int.{CanDivide, w128};
ghost use Rattle.std.specs.Int.Signed.{quot_z, rem_z};
ghost use Rattle.fx_word_ops.specs.Words.{half, size, cut, signed, unsigned, fits};
ghost use Rattle.fx_word_ops.specs.Quotients.{division_of, unsigned_division, signed_division};

use crate::products::is_over;
use crate::words::{mask, to_signed, top, zero_extend};
use fx_x64_forms::operand::Width;

fn divide_unsigned(w: Width, high: u64, low: u64, by: u64) -> Option<(u64, u64)>
    ensures { result ≡ unsigned_division w (cut w high * size w + cut w low) (cut w by) }
{
    let d = u128::from(zero_extend(w, by));
    let size = u128::from(mask(w)) + 1;
    let n = u128::from(zero_extend(w, high)) * size + u128::from(zero_extend(w, low));
    if d == 0 || n / d >= size {
        None
    } else {
        Some(((n / d) as u64, (n % d) as u64))
    }
}

/// The two's complement of a signed number that fits.
fn to_unsigned(w: Width, z: i128) -> u64
    requires { fits (half w) z ≡ true }
    ensures { result ≡ unsigned (half w) z }
{
    if z >= 0 {
        z as u64
    } else {
        mask(w) - (!z as u64)
    }
}

/// The signed number of twice the width.
fn double_signed(w: Width, high: u64, low: u64) -> i128
    ensures { result ≡ signed (half w * size w) (cut w high * size w + cut w low) }
{
    let size = u128::from(mask(w)) + 1;
    let n = u128::from(zero_extend(w, high)) * size + u128::from(zero_extend(w, low));
    if n >= u128::from(top(w)) * size {
        let last = u128::from(mask(w)) * size + u128::from(mask(w));
        !((last - n) as i128)
    } else {
        n as i128
    }
}

fn div_rem(n: i128, d: i128) -> (i128, i128)
    requires { CanDivide w128 n d }
    ensures { result ≡ (quot_z n d, rem_z n d) }
{
    (n / d, n % d)
}

fn divide_signed(w: Width, n: i128, d: i128) -> Option<(u64, u64)>
    requires by { d ≢ pos 0 }
    requires small { fits (half w) d ≡ true }
    ensures { result ≡ signed_division w n d }
{
    if d == -1 && n == i128::MIN {
        return None;
    }
    let (q, r) = div_rem(n, d);
    if is_over(q, top(w)) {
        None
    } else {
        Some((to_unsigned(w, q), to_unsigned(w, r)))
    }
}

/// The quotient and the remainder of the number of twice the width whose halves are `high` and
/// `low`; the quotient is cut towards zero. None exactly where `by` is 0 or the quotient doesn't fit
/// the width (SDM volume 2, DIV and IDIV).
pub fn divide(w: Width, signed: bool, high: u64, low: u64, by: u64) -> Option<(u64, u64)>
    ensures { result ≡ division_of w signed high low by }
{
    if signed {
        let d = i128::from(to_signed(w, by));
        if d == 0 {
            return None;
        }
        divide_signed(w, double_signed(w, high, low), d)
    } else {
        divide_unsigned(w, high, low, by)
    }
}
