//! Integers of the profile's types, as words.

ghost use Rattle.std.specs.Prelude.{◌≡◌, ◌*◌, ◌/◌, ◌%◌, ◌^◌, ◌<◌, ◌≤◌, ◌≢◌, int_lt, int_div, int_rem, pos, Some, None, if◌then◌else◌};
ghost use Rattle.std.specs.Int.{CanDivide, w64};
ghost use Rattle.std.specs.Int.Signed.{shr_z};
ghost use Rattle.fx_word_ops.specs.Words.{bit_count, half, size, cut, signed, fits};
ghost use Rattle.fx_c_mean_blocks.specs.Integers.{width_of, is_signed, wrapped, number, word, extended, converted, truth, shift_count, shifted_right, integer_result};
ghost use Rattle.fx_c_mean_blocks.specs.Divisions.{both_of};

use crate::fault::Fault;
use fx_c_ast::operator::{Binop, IntType};
use fx_word_ops::products::mul;
use fx_word_ops::sums::{add, sub};
use fx_word_ops::words::{bits, mask, sign_extend, to_signed, zero_extend};
use fx_x64_forms::operand::Width;

/// The width of a type's words.
#[inline]
pub fn width(i: IntType) -> Width
    ensures { result ≡ width_of i }
{
    match i {
        IntType::Char | IntType::Uchar => Width::W8,
        IntType::Short | IntType::Ushort => Width::W16,
        IntType::Int | IntType::Uint => Width::W32,
        IntType::Long | IntType::Ulong => Width::W64,
    }
}

/// Whether a type is signed; `char` is.
#[inline]
pub fn has_sign(i: IntType) -> bool
    ensures { result ≡ is_signed i }
{
    match i {
        IntType::Char | IntType::Short | IntType::Int | IntType::Long => true,
        IntType::Uchar | IntType::Ushort | IntType::Uint | IntType::Ulong => false,
    }
}

/// A number wrapped into a type.
#[inline]
pub fn wrap(i: IntType, n: u64) -> u64
    ensures { result ≡ wrapped i n }
{
    zero_extend(width(i), n)
}

/// The word of 64 bits for the number that a word of a type stands for.
#[inline]
pub fn extend(i: IntType, w: u64) -> u64
    ensures { result ≡ extended i w }
{
    if has_sign(i) {
        sign_extend(width(i), w)
    } else {
        wrap(i, w)
    }
}

/// Conversion of a word of a type to another type (C11 6.3.1.3; it wraps).
#[inline]
pub fn convert(from: IntType, to: IntType, w: u64) -> u64
    ensures { result ≡ converted from to w }
{
    wrap(to, extend(from, w))
}

/// The word of a test's truth.
#[inline]
pub fn truth_of(b: bool) -> u64
    ensures { result ≡ truth b }
{
    if b { 1 } else { 0 }
}

/// The word of a width for a signed number, which wraps.
pub fn word_of(w: Width, z: i64) -> u64
    ensures { result ≡ word w z }
{
    if z >= 0 {
        zero_extend(w, z as u64)
    } else {
        mask(w) - zero_extend(w, !z as u64)
    }
}

/// Whether a word of a type stands for a smaller number than another.
fn is_less(i: IntType, a: u64, b: u64) -> bool
    ensures { result ≡ int_lt (number i a) (number i b) }
{
    if has_sign(i) {
        to_signed(width(i), a) < to_signed(width(i), b)
    } else {
        wrap(i, a) < wrap(i, b)
    }
}

fn shift_left(i: IntType, a: u64, b: u64) -> u64
    ensures { result ≡ wrapped i (wrapped i a * 2 ^ shift_count i b) }
{
    let count = b % u64::from(bits(width(i)));
    wrap(i, wrap(i, a) << count)
}

fn shift_right(i: IntType, a: u64, b: u64) -> u64
    ensures { result ≡ shifted_right i a (shift_count i b) }
{
    let count = b % u64::from(bits(width(i)));
    if has_sign(i) {
        word_of(width(i), to_signed(width(i), a) >> count)
    } else {
        wrap(i, a) >> count
    }
}

/// Whether a signed number has a word of a width.
fn has_word(w: Width, z: i64) -> bool
    ensures { result ≡ fits (half w) z }
{
    match w {
        Width::W8 => z >= -0x80 && z < 0x80,
        Width::W16 => z >= -0x8000 && z < 0x8000,
        Width::W32 => z >= -0x8000_0000 && z < 0x8000_0000,
        Width::W64 => true,
    }
}

/// The signed quotient and remainder, where the divisor is not 0 and the quotient fits 64 bits.
fn divide_signed(x: i64, y: i64) -> (i64, i64)
    requires { CanDivide w64 x y }
    ensures { result ≡ (int_div x y, int_rem x y) }
{
    (x / y, x % y)
}

/// The words of the quotient and the remainder of signed numbers (C11 6.5.5).
fn signed_division(w: Width, x: i64, y: i64) -> Option<(u64, u64)>
    requires { y ≢ pos 0 }
    ensures { result ≡ (if fits (half w) (int_div x y) then Some (word w (int_div x y), word w (int_rem x y)) else None) }
{
    if y == -1 && x == i64::MIN {
        return None;
    }
    let (quotient, remainder) = divide_signed(x, y);
    if has_word(w, quotient) {
        Some((word_of(w, quotient), word_of(w, remainder)))
    } else {
        None
    }
}

/// The words of the quotient and the remainder, or None where the divisor is 0 or the quotient does
/// not fit (C11 6.5.5).
fn division(i: IntType, a: u64, b: u64) -> Option<(u64, u64)>
    ensures { result ≡ both_of i b (int_div (number i a) (number i b)) (int_rem (number i a) (number i b)) }
{
    let divisor = wrap(i, b);
    if divisor == 0 {
        return None;
    }
    if has_sign(i) {
        return signed_division(width(i), to_signed(width(i), a), to_signed(width(i), b));
    }
    let dividend = wrap(i, a);
    Some((wrap(i, dividend / divisor), wrap(i, dividend % divisor)))
}

/// An operator at two words of a type; a shift's count may have another type (C11 6.5.5 to 6.5.12).
/// Sums, differences, products and shifts wrap.
pub fn arithmetic(op: Binop, i: IntType, a: u64, b: u64) -> Result<u64, Fault>
    ensures { result ≡ integer_result op i a b }
{
    let value = match op {
        Binop::Add => add(width(i), a, b).0,
        Binop::Sub => sub(width(i), a, b).0,
        Binop::Mul => mul(width(i), a, b).0,
        Binop::Div => division(i, a, b).ok_or(Fault::Divide)?.0,
        Binop::Rem => division(i, a, b).ok_or(Fault::Divide)?.1,
        Binop::Shl => shift_left(i, a, b),
        Binop::Shr => shift_right(i, a, b),
        Binop::Lt => truth_of(is_less(i, a, b)),
        Binop::Gt => truth_of(is_less(i, b, a)),
        Binop::Le => truth_of(!is_less(i, b, a)),
        Binop::Ge => truth_of(!is_less(i, a, b)),
        Binop::Eq => truth_of(a == b),
        Binop::Ne => truth_of(a != b),
        Binop::And => a & b,
        Binop::Xor => a ^ b,
        Binop::Or => a | b,
        Binop::Land | Binop::Lor => return Err(Fault::Undefined),
    };
    Ok(value)
}
