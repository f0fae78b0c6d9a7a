//! Numbers: digits, suffixes and types.

ghost use Rattle.std.specs.Prelude.{◌≡◌, ◌≤◌, ◌<◌, ◌^◌, ◌+◌, ◌*◌, length, MatchOption, SomeIff, All};
ghost use Rattle.std.specs.List.{prefix_len};
ghost use Rattle.fx_c_lex.specs.Numbers.{types_of, limit, is_unsigned, is_long, first_holding, suffix_of, radix, is_digit_of, digit_value, value_after, typed, number};

use crate::token::TokenKind;

/// The types of numbers.
#[derive(Clone, Copy, Debug, PartialEq, Eq)]
pub enum NumberType {
    Int,
    UnsignedInt,
    Long,
    UnsignedLong,
}

/// What may follow a number's digits, in either case.
#[derive(Clone, Copy, Debug, PartialEq, Eq)]
pub enum Suffix {
    NoSuffix,
    U,
    L,
    UL,
}

/// The base of a number's digits.
#[derive(Clone, Copy, Debug, PartialEq, Eq)]
pub enum Base {
    Decimal,
    Hexadecimal,
}

static INT_LONG: [NumberType; 2] = [NumberType::Int, NumberType::Long];

static ALL: [NumberType; 4] = [
    NumberType::Int,
    NumberType::UnsignedInt,
    NumberType::Long,
    NumberType::UnsignedLong,
];

static UNSIGNED: [NumberType; 2] = [NumberType::UnsignedInt, NumberType::UnsignedLong];

static LONG: [NumberType; 1] = [NumberType::Long];

static BOTH_LONG: [NumberType; 2] = [NumberType::Long, NumberType::UnsignedLong];

static UNSIGNED_LONG: [NumberType; 1] = [NumberType::UnsignedLong];

// The types that a number may have, the first to be tried first.
fn types_of(base: Base, suffix: Suffix) -> &'static [NumberType]
    ensures { result.now ≡ types_of base suffix }
{
    match (base, suffix) {
        (Base::Decimal, Suffix::NoSuffix) => &INT_LONG,
        (Base::Hexadecimal, Suffix::NoSuffix) => &ALL,
        (_, Suffix::U) => &UNSIGNED,
        (Base::Decimal, Suffix::L) => &LONG,
        (Base::Hexadecimal, Suffix::L) => &BOTH_LONG,
        (_, Suffix::UL) => &UNSIGNED_LONG,
    }
}

// The greatest number that a type holds.
fn max_of(ty: NumberType) -> u64
    ensures { result + 1 ≡ limit ty }
{
    match ty {
        NumberType::Int => 0x7FFF_FFFF,
        NumberType::UnsignedInt => 0xFFFF_FFFF,
        NumberType::Long => 0x7FFF_FFFF_FFFF_FFFF,
        NumberType::UnsignedLong => 0xFFFF_FFFF_FFFF_FFFF,
    }
}

fn is_unsigned(ty: NumberType) -> bool
    ensures { result ≡ is_unsigned ty }
{
    match ty {
        NumberType::UnsignedInt | NumberType::UnsignedLong => true,
        NumberType::Int | NumberType::Long => false,
    }
}

fn is_long(ty: NumberType) -> bool
    ensures { result ≡ is_long ty }
{
    match ty {
        NumberType::Long | NumberType::UnsignedLong => true,
        NumberType::Int | NumberType::UnsignedInt => false,
    }
}

// The number with the first type that holds it.
fn first_holding(value: u64, types: &[NumberType]) -> Option<TokenKind>
    ensures { result ≡ first_holding value types.now }
{
    for ty in types {
        if value <= max_of(*ty) {
            return Some(TokenKind::Number {
                value,
                unsigned: is_unsigned(*ty),
                long: is_long(*ty),
            });
        }
    }
    None
}

fn suffix_of(bytes: &[u8]) -> Option<Suffix>
    ensures { result ≡ suffix_of bytes.now }
{
    match bytes {
        [] => Some(Suffix::NoSuffix),
        [b'u' | b'U'] => Some(Suffix::U),
        [b'l' | b'L'] => Some(Suffix::L),
        [b'u' | b'U', b'l' | b'L'] => Some(Suffix::UL),
        _ => None,
    }
}

fn radix(base: Base) -> u64
    ensures { result ≡ radix base }
{
    match base {
        Base::Decimal => 10,
        Base::Hexadecimal => 16,
    }
}

fn is_digit_of(base: Base, b: u8) -> bool
    ensures { result ≡ is_digit_of base b }
{
    match base {
        Base::Decimal => b.is_ascii_digit(),
        Base::Hexadecimal => b.is_ascii_hexdigit(),
    }
}

// A digit's value; of a byte that is no digit nothing is meant.
fn digit_value(b: u8) -> u8
    requires { 48 ≤ b }
    ensures { result ≡ digit_value b }
{
    match b {
        b'a'.. => b - b'a' + 10,
        b'A'.. => b - b'A' + 10,
        _ => b - b'0',
    }
}

// How many digits stand at the front.
#[tactic(auto, using(crate::proofs::Prefixes::prefix_steps))]
fn digits_length(base: Base, bytes: &[u8]) -> usize
    ensures count { result ≡ prefix_len (is_digit_of base) bytes.now }
    ensures within { result ≤ length bytes.now }
{
    for (i, b) in bytes.iter().enumerate() {
        if !is_digit_of(base, *b) {
            return i;
        }
    }
    bytes.len()
}

// The value with one digit more behind it, where 64 bits hold it.
fn with_digit(base: Base, value: u64, b: u8) -> Option<u64>
    requires { 48 ≤ b }
    ensures { SomeIff result (radix base * value + digit_value b < 2 ^ 64) (radix base * value + digit_value b) }
{
    let shifted = radix(base).checked_mul(value)?;
    shifted.checked_add(u64::from(digit_value(b)))
}

// The value of digits, where 64 bits hold it.
#[tactic(auto, using(crate::proofs::Digits::value_steps))]
fn value_of(base: Base, digits: &[u8]) -> Option<u64>
    requires { All (λ b. 48 ≤ b) digits.now }
    ensures { MatchOption result (2 ^ 64 ≤ value_after base 0 digits.now) (λ n. n ≡ value_after base 0 digits.now) }
{
    let mut value: u64 = 0;
    for b in digits {
        match with_digit(base, value, *b) {
            Some(more) => value = more,
            None => return None,
        }
    }
    Some(value)
}

// Digits, and behind them the suffix.
fn typed(base: Base, bytes: &[u8]) -> Option<TokenKind>
    ensures { result ≡ typed base bytes.now }
{
    let (digits, rest) = bytes.split_at(digits_length(base, bytes));
    let suffix = suffix_of(rest)?;
    first_holding(value_of(base, digits)?, types_of(base, suffix))
}

/// The number that these bytes, all of them, are; none where no type holds it.
pub fn number(bytes: &[u8]) -> Option<TokenKind>
    ensures { result ≡ number bytes.now }
{
    match bytes {
        [b'0', b'x', digits @ ..] => {
            if digits_length(Base::Hexadecimal, digits) == 0 {
                return None;
            }
            typed(Base::Hexadecimal, digits)
        }
        [b'0', ..] if digits_length(Base::Decimal, bytes) > 1 => None,
        _ => typed(Base::Decimal, bytes),
    }
}
