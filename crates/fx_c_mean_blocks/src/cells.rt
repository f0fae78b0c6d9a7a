//! Cells, and the values that they hold.

ghost use Rattle.std.specs.Prelude.{◌≡◌, ◌+◌, ◌*◌, ◌<◌, ◌≤◌, ◌^◌, length, slice_set, IfSome};
ghost use Rattle.fx_c_ast.specs.CheckedTrees.{ty_tree};
ghost use Rattle.fx_c_ast.specs.Layout.{integer_size};
ghost use Rattle.fx_c_mean_blocks.specs.Blocks.{bytes_of, number_of, parts_from, same_pointer, are_parts, null_of, pointer_of, number_in, value_in, cells_of, width, set_cells};

use crate::fault::Fault;
use crate::value::{Cell, Pointer, Value};
use fx_c_ast::checked::Ty;
use fx_c_ast::operator::IntType;

/// The bytes of an integer type.
#[inline]
pub fn integer_bytes(i: IntType) -> u32
    ensures value { result ≡ integer_size i }
    ensures small { result ≤ 8 }
{
    match i {
        IntType::Char | IntType::Uchar => 1,
        IntType::Short | IntType::Ushort => 2,
        IntType::Int | IntType::Uint => 4,
        IntType::Long | IntType::Ulong => 8,
    }
}

/// The bytes of a value of an integer or pointer type; 0 for the other types.
#[inline]
pub fn width_of_type(ty: &Ty) -> u32
    ensures value { result ≡ width (ty_tree ty.now) }
    ensures small { result ≤ 8 }
{
    match ty {
        Ty::Int(i) => integer_bytes(*i),
        Ty::Ptr(_) => 8,
        Ty::Void | Ty::Struct(_) | Ty::Array(..) => 0,
    }
}

/// The number of at most eight bytes, little-endian; None where one is a part of a pointer.
fn number(cells: &[Cell]) -> Option<u64>
    requires { length cells.now ≤ 8 }
    ensures value { result ≡ number_of cells.now }
    ensures small { IfSome result (λ n. n < 256 ^ length cells.now) }
{
    match cells {
        [] => Some(0),
        [Cell::Byte(b), rest @ ..] => {
            let above = number(rest)?;
            Some(u64::from(*b) + 256 * above)
        }
        [Cell::Part { .. }, ..] => None,
    }
}

/// Whether two pointers are one.
#[inline]
pub fn is_same(p: Pointer, q: Pointer) -> bool
    ensures { result ≡ same_pointer p q }
{
    p.object == q.object && p.offset == q.offset
}

/// Whether cells are the parts of a pointer in order, from a part on.
fn follow(from: u8, p: Pointer, cells: &[Cell]) -> bool
    requires { from + length cells.now ≤ 8 }
    ensures { result ≡ are_parts from p cells.now }
{
    match cells {
        [] => true,
        [Cell::Part { part, pointer }, rest @ ..] => {
            *part == from && is_same(*pointer, p) && follow(from + 1, p, rest)
        }
        [Cell::Byte(_), ..] => false,
    }
}

/// The pointer that at most eight cells hold: null where they are zero bytes, or the one whose parts
/// they are.
fn pointer(cells: &[Cell]) -> Result<Value, Fault>
    requires { length cells.now ≤ 8 }
    ensures { result ≡ pointer_of cells.now }
{
    if let [Cell::Part { pointer, .. }, ..] = cells {
        if follow(0, *pointer, cells) {
            return Ok(Value::Address(*pointer));
        }
        return Err(Fault::Undefined);
    }
    match number(cells) {
        Some(0) => Ok(Value::Null),
        _ => Err(Fault::Undefined),
    }
}

/// The value of a type that at most eight cells hold (C11 6.2.6). Parts of a pointer hold no number.
pub fn value(ty: &Ty, cells: &[Cell]) -> Result<Value, Fault>
    requires { length cells.now ≤ 8 }
    ensures { result ≡ value_in (ty_tree ty.now) cells.now }
{
    match ty {
        Ty::Int(_) => match number(cells) {
            Some(w) => Ok(Value::Number(w)),
            None => Err(Fault::Undefined),
        },
        Ty::Ptr(_) => pointer(cells),
        Ty::Void | Ty::Struct(_) | Ty::Array(..) => Err(Fault::Undefined),
    }
}

/// Sets a cell, where there is one at the place.
#[inline]
fn set(cells: &mut [Cell], at: usize, c: Cell)
    ensures { cells.new ≡ slice_set cells.old at c }
{
    if at < cells.len() {
        cells[at] = c;
    }
}

/// Sets cells one after the other, from a place on, to the lowest bytes of a number, little-endian.
fn set_bytes(cells: &mut [Cell], at: usize, n: u32, w: u64)
    requires { at + n < 2 ^ 64 }
    ensures { cells.new ≡ set_cells cells.old at (bytes_of n w) }
{
    if n > 0 {
        set(cells, at, Cell::Byte((w % 256) as u8));
        set_bytes(cells, at + 1, n - 1, w / 256);
    }
}

/// Sets cells one after the other, from a place on, to parts of a pointer.
fn set_parts(cells: &mut [Cell], at: usize, from: u8, n: u32, p: Pointer)
    requires room { at + n < 2 ^ 64 }
    requires parts { from + n ≤ 255 }
    ensures { cells.new ≡ set_cells cells.old at (parts_from from n p) }
{
    if n > 0 {
        set(
            cells,
            at,
            Cell::Part {
                part: from,
                pointer: p,
            },
        );
        set_parts(cells, at + 1, from + 1, n - 1, p);
    }
}

/// Sets cells one after the other, from a place on, to those that hold a value in so many bytes.
pub fn set_value(cells: &mut [Cell], at: usize, n: u32, v: Value)
    requires room { at + n < 2 ^ 64 }
    requires small { n ≤ 8 }
    ensures { cells.new ≡ set_cells cells.old at (cells_of n v) }
{
    match v {
        Value::Number(w) => set_bytes(cells, at, n, w),
        Value::Null => set_bytes(cells, at, n, 0),
        Value::Address(p) => set_parts(cells, at, 0, n, p),
        Value::Void => {}
    }
}
