//! Shifts.

ghost use Rattle.std.specs.Prelude.{◌≡◌, ◌≤◌, ◌<◌, ◌%◌};
ghost use Rattle.fx_word_ops.specs.Words.{cut, bit_count};
ghost use Rattle.fx_word_ops.specs.Shifts.{IsWide, shift_of, left_by, right_by, signed_right_by, signed_quotient};

use crate::flags::Flags;
use crate::words::{bits, mask, top, zero_extend};
use fx_x64_forms::inst::ShiftOp;
use fx_x64_forms::operand::Width;

/// A shift left by 1 up to the width less 1.
fn left(w: Width, x: u64, n: u32) -> (u64, Flags)
    requires wide { IsWide w }
    requires word { cut w x ≡ x }
    requires some { 1 ≤ n }
    requires small { n < bit_count w }
    ensures { result ≡ left_by w x n }
{
    let h = top(w);
    let r = zero_extend(w, x << n);
    let cf = (x >> (bits(w) - n)) % 2 == 1;
    let of = (n == 1) & ((r >= h) != cf);
    let flags = Flags {
        cf,
        zf: r == 0,
        sf: r >= h,
        of,
    };
    (r, flags)
}

/// An unsigned shift right by 1 up to the width less 1.
fn right(w: Width, x: u64, n: u32) -> (u64, Flags)
    requires wide { IsWide w }
    requires word { cut w x ≡ x }
    requires some { 1 ≤ n }
    requires small { n < bit_count w }
    ensures { result ≡ right_by w x n }
{
    let r = x >> n;
    let flags = Flags {
        cf: (x >> (n - 1)) % 2 == 1,
        zf: r == 0,
        sf: r >= top(w),
        of: (n == 1) & (x >= top(w)),
    };
    (r, flags)
}

/// The signed quotient by 2^n, rounded down.
fn signed_right_value(w: Width, x: u64, n: u32) -> u64
    requires wide { IsWide w }
    requires word { cut w x ≡ x }
    requires small { n < bit_count w }
    ensures { result ≡ signed_quotient w x n }
{
    if x >= top(w) {
        mask(w) - ((mask(w) - x) >> n)
    } else {
        x >> n
    }
}

/// A signed shift right by 1 up to the width less 1.
fn signed_right(w: Width, x: u64, n: u32) -> (u64, Flags)
    requires wide { IsWide w }
    requires word { cut w x ≡ x }
    requires some { 1 ≤ n }
    requires small { n < bit_count w }
    ensures { result ≡ signed_right_by w x n }
{
    let r = signed_right_value(w, x, n);
    let flags = Flags {
        cf: (x >> (n - 1)) % 2 == 1,
        zf: r == 0,
        sf: r >= top(w),
        of: false,
    };
    (r, flags)
}

/// A shift by a count that is masked to 5 bits at W32 and to 6 bits at W64, the only widths that it
/// takes. A masked count of 0 leaves the flags as they were; else CF is the last bit shifted out,
/// and ZF and SF follow the result. OF after a shift by 1 is set for Shl where the top bit of the
/// result differs from CF, is the old top bit for Shr, and is clear for Sar; after greater counts it
/// is clear, which is this project's own rule (SDM volume 2, SAL/SAR/SHL/SHR).
#[inline]
pub fn shift(w: Width, op: ShiftOp, a: u64, count: u8, before: Flags) -> (u64, Flags)
    requires { IsWide w }
    ensures { result ≡ shift_of w op a count before }
{
    let x = zero_extend(w, a);
    let n = u32::from(count) % bits(w);
    if n == 0 {
        return (x, before);
    }
    match op {
        ShiftOp::Shl => left(w, x, n),
        ShiftOp::Shr => right(w, x, n),
        ShiftOp::Sar => signed_right(w, x, n),
    }
}
