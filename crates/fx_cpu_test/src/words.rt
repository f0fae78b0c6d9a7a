//! Results and flags at the edges of each width, worked out by hand from the manual's rules.

use fx_word_ops::flags::{Flags, LogicOp};
use fx_word_ops::products::mul;
use fx_word_ops::quotients::divide;
use fx_word_ops::shifts::shift;
use fx_word_ops::sums::{add, logic, sub};
use fx_word_ops::words::{sign_extend, to_signed, zero_extend};
use fx_x64_forms::inst::ShiftOp;
use fx_x64_forms::operand::Width::{self, W8, W16, W32, W64};

const TOP: u64 = 0x8000_0000_0000_0000;

const MOST: u64 = 0x7fff_ffff_ffff_ffff;

const ALL: u64 = 0xffff_ffff_ffff_ffff;

/// The flags that a text names: `c` carry, `z` zero, `s` sign, `o` overflow.
fn flags(names: &[u8]) -> Flags {
    Flags {
        cf: names.contains(&b'c'),
        zf: names.contains(&b'z'),
        sf: names.contains(&b's'),
        of: names.contains(&b'o'),
    }
}

#[test]
fn sums_and_differences(rt: HostRuntime) {
    let sums: [(Width, u64, u64, u64, &[u8]); 13] = [
        (W8, 0xff, 1, 0, b"cz"),
        (W8, 0x7f, 1, 0x80, b"so"),
        (W8, 0x80, 0x80, 0, b"czo"),
        (W8, 0x1ff, 0x301, 0, b"cz"),
        (W16, 0xffff, 1, 0, b"cz"),
        (W16, 0x7fff, 0x7fff, 0xfffe, b"so"),
        (W32, 0xffff_ffff, 1, 0, b"cz"),
        (W32, 0x7fff_ffff, 1, 0x8000_0000, b"so"),
        (W32, 0x1_0000_0001, 1, 2, b""),
        (W32, 0x8000_0000, 0xffff_ffff, 0x7fff_ffff, b"co"),
        (W64, ALL, 1, 0, b"cz"),
        (W64, MOST, 1, TOP, b"so"),
        (W64, TOP, TOP, 0, b"czo"),
    ];
    for (w, a, b, result, names) in sums {
        assert_eq!(rt; add(w, a, b), (result, flags(names)), "{a} + {b}");
    }
    let differences: [(Width, u64, u64, u64, &[u8]); 10] = [
        (W8, 0x80, 1, 0x7f, b"o"),
        (W8, 0, 0x80, 0x80, b"cso"),
        (W16, 0x8000, 1, 0x7fff, b"o"),
        (W16, 5, 5, 0, b"z"),
        (W32, 0, 1, 0xffff_ffff, b"cs"),
        (W32, 0x7fff_ffff, 0xffff_ffff, 0x8000_0000, b"cso"),
        (W32, 0x5_0000_0000, 0, 0, b"z"),
        (W64, 0, 1, ALL, b"cs"),
        (W64, TOP, 1, MOST, b"o"),
        (W64, 0, TOP, TOP, b"cso"),
    ];
    for (w, a, b, result, names) in differences {
        assert_eq!(rt; sub(w, a, b), (result, flags(names)), "{a} - {b}");
    }
}

#[test]
fn bitwise_operations_and_products(rt: HostRuntime) {
    let combinations: [(Width, LogicOp, u64, u64, u64, &[u8]); 5] = [
        (W8, LogicOp::And, 0xf0, 0x0f, 0, b"z"),
        (W16, LogicOp::And, 0xffff, 0x8000, 0x8000, b"s"),
        (W32, LogicOp::Or, 0x8000_0000, 1, 0x8000_0001, b"s"),
        (W32, LogicOp::Xor, 0x1_0000_0006, 3, 5, b""),
        (W64, LogicOp::Xor, ALL, ALL, 0, b"z"),
    ];
    for (w, op, a, b, result, names) in combinations {
        assert_eq!(rt; logic(w, op, a, b), (result, flags(names)), "{a}, {b}");
    }
    let products: [(Width, u64, u64, u64, &[u8]); 10] = [
        (W8, 0x40, 2, 0x80, b"cso"),
        (W16, 0x8000, 1, 0x8000, b"s"),
        (W32, 0x1_0000, 0x1_0000, 0, b"co"),
        (W32, 0xffff_ffff, 0xffff_ffff, 1, b""),
        (W32, 0x7fff_ffff, 2, 0xffff_fffe, b"cso"),
        (W32, 0, 5, 0, b""),
        (W64, ALL, 1, ALL, b"s"),
        (W64, TOP, ALL, TOP, b"cso"),
        (W64, 0x1_0000_0000, 0x8000_0000, TOP, b"cso"),
        (W64, 3, 5, 15, b""),
    ];
    for (w, a, b, result, names) in products {
        assert_eq!(rt; mul(w, a, b), (result, flags(names)), "{a} * {b}");
    }
}

#[test]
fn shifts(rt: HostRuntime) {
    let rows: [(Width, ShiftOp, u64, u8, u64, &[u8]); 17] = [
        (W32, ShiftOp::Shl, 1, 31, 0x8000_0000, b"s"),
        (W32, ShiftOp::Shl, 2, 31, 0, b"cz"),
        (W32, ShiftOp::Shl, 0x8000_0000, 1, 0, b"czo"),
        (W32, ShiftOp::Shl, 0xc000_0000, 1, 0x8000_0000, b"cs"),
        (W32, ShiftOp::Shl, 0x4000_0000, 1, 0x8000_0000, b"so"),
        (W32, ShiftOp::Shl, 0x1_0000_0005, 32, 5, b"czso"),
        (W32, ShiftOp::Shl, 3, 33, 6, b""),
        (W32, ShiftOp::Shr, 0x8000_0001, 1, 0x4000_0000, b"co"),
        (W32, ShiftOp::Shr, 1, 1, 0, b"cz"),
        (W64, ShiftOp::Shr, TOP, 63, 1, b""),
        (W64, ShiftOp::Shr, 9, 64, 9, b"czso"),
        (W32, ShiftOp::Sar, 0x8000_0000, 31, 0xffff_ffff, b"s"),
        (W32, ShiftOp::Sar, 0x8000_0003, 1, 0xc000_0001, b"cs"),
        (W64, ShiftOp::Sar, TOP, 1, 0xc000_0000_0000_0000, b"s"),
        (W64, ShiftOp::Sar, ALL, 63, ALL, b"cs"),
        (W64, ShiftOp::Sar, 5, 2, 1, b""),
        (W64, ShiftOp::Shl, 1, 63, TOP, b"s"),
    ];
    for (w, op, a, count, result, names) in rows {
        assert_eq!(rt;
            shift(w, op, a, count, flags(b"czso")),
            (result, flags(names)),
            "{a} by {count}"
        );
    }
}

#[test]
fn quotients_and_remainders(rt: HostRuntime) {
    let rows: [(Width, bool, u64, u64, u64, Option<(u64, u64)>); 14] = [
        (W8, false, 1, 0, 0x10, Some((0x10, 0))),
        (W8, true, 0xff, 0x80, 0xff, None),
        (W16, true, 0xffff, 0x8000, 1, Some((0x8000, 0))),
        (W32, false, 1, 0, 2, Some((0x8000_0000, 0))),
        (W32, false, 1, 0, 1, None),
        (W32, false, 0, 7, 0, None),
        (W32, true, 0xffff_ffff, 0x8000_0000, 0xffff_ffff, None),
        (W32, true, 0, 7, 0x1_0000_0000, None),
        (W64, false, 0, ALL, 10, Some((0x1999_9999_9999_9999, 5))),
        (W64, true, ALL, ALL - 6, 2, Some((ALL - 2, ALL))),
        (W64, true, 0, 7, ALL - 1, Some((ALL - 2, 1))),
        (W64, true, ALL, TOP, ALL, None),
        (W64, true, TOP, 0, ALL, None),
        (W64, true, ALL, TOP, 1, Some((TOP, 0))),
    ];
    for (w, signed, high, low, by, result) in rows {
        assert_eq!(rt;
            divide(w, signed, high, low, by),
            result,
            "{high}, {low} by {by}"
        );
    }
}

#[test]
fn extensions(rt: HostRuntime) {
    let rows: [(Width, u64, u64, u64); 6] = [
        (W8, 0x180, 0x80, 0xffff_ffff_ffff_ff80),
        (W8, 0x7f, 0x7f, 0x7f),
        (W16, 0x1_8000, 0x8000, 0xffff_ffff_ffff_8000),
        (W32, 0x8000_0000, 0x8000_0000, 0xffff_ffff_8000_0000),
        (W32, 0x7fff_ffff, 0x7fff_ffff, 0x7fff_ffff),
        (W64, TOP, TOP, TOP),
    ];
    for (w, a, zero, sign) in rows {
        assert_eq!(rt; (zero_extend(w, a), sign_extend(w, a)), (zero, sign));
    }
    assert_eq!(rt; to_signed(W8, 0x1ff), -1);
}
