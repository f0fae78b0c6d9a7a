//! Words: the low bits of numbers, as unsigned and as signed numbers.

ghost use Rattle.std.specs.Prelude.{◌≡◌, ◌-◌, ◌<◌, ◌≤◌};
ghost use Rattle.fx_word_ops.specs.Words.{bit_count, size, half, cut, signed, sign_extension_of};

use fx_x64_forms::operand::Width;

/// The bits of a word: 8, 16, 32 or 64.
#[inline]
pub fn bits(w: Width) -> u32
    ensures value { result ≡ bit_count w }
    ensures small { result ≤ 64 }
    ensures some { 8 ≤ result }
{
    match w {
        Width::W8 => 8,
        Width::W16 => 16,
        Width::W32 => 32,
        Width::W64 => 64,
    }
}

/// The greatest word: all bits are set.
#[inline]
pub fn mask(w: Width) -> u64
    ensures { result ≡ size w - 1 }
{
    match w {
        Width::W8 => 0xff,
        Width::W16 => 0xffff,
        Width::W32 => 0xffff_ffff,
        Width::W64 => u64::MAX,
    }
}

/// The word whose top bit alone is set.
#[inline]
pub fn top(w: Width) -> u64
    ensures { result ≡ half w }
{
    match w {
        Width::W8 => 0x80,
        Width::W16 => 0x8000,
        Width::W32 => 0x8000_0000,
        Width::W64 => 0x8000_0000_0000_0000,
    }
}

/// The low bits of a number.
#[inline]
pub fn zero_extend(from: Width, a: u64) -> u64
    ensures { result ≡ cut from a }
{
    a & mask(from)
}

/// The 64-bit two's complement of the signed number that the low bits stand for.
#[inline]
pub fn sign_extend(from: Width, a: u64) -> u64
    ensures { result ≡ sign_extension_of from a }
{
    let x = zero_extend(from, a);
    if x >= top(from) { x | !mask(from) } else { x }
}

/// The signed number that the low bits stand for.
#[inline]
pub fn to_signed(w: Width, a: u64) -> i64
    ensures { result ≡ signed (half w) (cut w a) }
{
    sign_extend(w, a).cast_signed()
}
