//! Operators and conversions at values.

ghost use Rattle.std.specs.Prelude.{◌≡◌, ◌≤ℤ◌, ◌-ℤ◌, ◌^◌, pos, int_div};
ghost use Rattle.fx_c_ast.specs.CheckedTrees.{ty_tree, IntTy};
ghost use Rattle.fx_c_mean_blocks.specs.declared.value.Value.TheVariants.{Number, Address};
ghost use Rattle.fx_c_mean_blocks.specs.Integers.{number};
ghost use Rattle.fx_c_mean_blocks.specs.Operators.{unary_result, conversion, elements, difference, both_comparable, same_place, offsets_of, order_of, pointer_result, pointer_moved, moved_by, integers};

use crate::cells::is_same;
use crate::fault::Fault;
use crate::integers::{arithmetic, convert, has_sign, truth_of, width, word_of, wrap};
use crate::memory::Memory;
use crate::value::{Pointer, Value};
use fx_c_ast::checked::Ty;
use fx_c_ast::operator::{Binop, IntType, Unop};
use fx_word_ops::words::{mask, to_signed};
use fx_x64_forms::operand::Width;

fn integer_unary(op: Unop, i: IntType, w: u64) -> Result<Value, Fault>
    ensures { result ≡ unary_result op (IntTy i) (Number w) }
{
    match op {
        Unop::Neg => Ok(Value::Number(arithmetic(Binop::Sub, i, 0, w)?)),
        Unop::Not => Ok(Value::Number(mask(width(i)) - wrap(i, w))),
        Unop::Lnot => Ok(Value::Number(truth_of(w == 0))),
        Unop::Deref | Unop::Addr => Ok(Value::Number(w)),
    }
}

/// A unary operator at a value of a type (C11 6.5.3.3). `*` and `&` change no value (6.5.3.2).
pub fn unary(op: Unop, ty: &Ty, v: Value) -> Result<Value, Fault>
    ensures { result ≡ unary_result op (ty_tree ty.now) v }
{
    match op {
        Unop::Deref | Unop::Addr => Ok(v),
        Unop::Neg | Unop::Not | Unop::Lnot => match ty {
            Ty::Int(i) => match v {
                Value::Number(w) => integer_unary(op, *i, w),
                Value::Void | Value::Null | Value::Address(_) => Err(Fault::Undefined),
            },
            Ty::Void | Ty::Struct(_) | Ty::Ptr(_) | Ty::Array(..) => Err(Fault::Undefined),
        },
    }
}

/// An operator at two integers of a type.
pub fn combine_integers(op: Binop, i: IntType, v: Value, w: Value) -> Result<Value, Fault>
    ensures { result ≡ integers op i v w }
{
    match v {
        Value::Number(a) => match w {
            Value::Number(b) => Ok(Value::Number(arithmetic(op, i, a, b)?)),
            Value::Void | Value::Null | Value::Address(_) => Err(Fault::Undefined),
        },
        Value::Void | Value::Null | Value::Address(_) => Err(Fault::Undefined),
    }
}

/// The number that a word of a type stands for.
fn number_of(i: IntType, w: u64) -> i128
    ensures value { result ≡ number i w }
    ensures low { (pos 0 -ℤ pos (2 ^ 64)) ≤ℤ result }
    ensures high { result ≤ℤ pos (2 ^ 64) }
{
    if has_sign(i) {
        i128::from(to_signed(width(i), w))
    } else {
        i128::from(wrap(i, w))
    }
}

/// The bytes of n elements of a size.
fn bytes_of_elements(bytes: u32, n: i128) -> i128
    requires low { (pos 0 -ℤ pos (2 ^ 64)) ≤ℤ n }
    requires high { n ≤ℤ pos (2 ^ 64) }
    ensures value { result ≡ elements bytes n }
    ensures low { (pos 0 -ℤ pos (2 ^ 96)) ≤ℤ result }
    ensures high { result ≤ℤ pos (2 ^ 96) }
{
    n * i128::from(bytes)
}

/// The difference of two pointers into one object, in elements of a size, truncated (C11 6.5.6).
fn subtract(bytes: u32, v: Value, w: Value) -> Result<Value, Fault>
    ensures { result ≡ difference bytes v w }
{
    match v {
        Value::Address(p) => match w {
            Value::Address(q) => distance(bytes, p, q),
            Value::Void | Value::Null | Value::Number(_) => Err(Fault::Undefined),
        },
        Value::Void | Value::Null | Value::Number(_) => Err(Fault::Undefined),
    }
}

fn distance(bytes: u32, p: Pointer, q: Pointer) -> Result<Value, Fault>
    ensures { result ≡ difference bytes (Address p) (Address q) }
{
    if p.object != q.object {
        return Err(Fault::Undefined);
    }
    let apart = i64::from(p.offset) - i64::from(q.offset);
    Ok(Value::Number(word_of(Width::W64, quotient(apart, bytes))))
}

fn quotient(n: i64, by: u32) -> i64
    ensures { result ≡ int_div n (pos by) }
{
    if by == 0 { 0 } else { n / i64::from(by) }
}

/// Whether two pointers are to one place, or both null.
fn is_same_place(v: Value, w: Value) -> bool
    ensures { result ≡ same_place v w }
{
    match v {
        Value::Null => match w {
            Value::Null => true,
            Value::Void | Value::Number(_) | Value::Address(_) => false,
        },
        Value::Address(p) => match w {
            Value::Address(q) => is_same(p, q),
            Value::Void | Value::Number(_) | Value::Null => false,
        },
        Value::Void | Value::Number(_) => false,
    }
}

/// The offsets of two pointers into one object, or of two null pointers as one.
fn offsets(v: Value, w: Value) -> Option<(u32, u32)>
    ensures { result ≡ offsets_of v w }
{
    match v {
        Value::Null => match w {
            Value::Null => Some((0, 0)),
            Value::Void | Value::Number(_) | Value::Address(_) => None,
        },
        Value::Address(p) => match w {
            Value::Address(q) if p.object == q.object => Some((p.offset, q.offset)),
            _ => None,
        },
        Value::Void | Value::Number(_) => None,
    }
}

/// An order of two offsets.
fn is_in_order(op: Binop, a: u32, b: u32) -> bool
    ensures { result ≡ order_of op a b }
{
    match op {
        Binop::Lt => a < b,
        Binop::Gt => b < a,
        Binop::Le => a <= b,
        Binop::Ge => b <= a,
        _ => false,
    }
}

impl Memory {
    /// Conversion of a value from a type to another one (C11 6.3). An array becomes the pointer to its
    /// first element, the number 0 the null pointer, and a pointer to a live object, or null, the truth
    /// of its not being null.
    pub fn convert(&self, from: &Ty, to: &Ty, v: Value) -> Result<Value, Fault>
        ensures { result ≡ conversion self.now (ty_tree from.now) (ty_tree to.now) v }
    {
        match (from, to) {
            (Ty::Int(i), Ty::Int(j)) => match v {
                Value::Number(w) => Ok(Value::Number(convert(*i, *j, w))),
                Value::Void | Value::Null | Value::Address(_) => Err(Fault::Undefined),
            },
            (Ty::Int(_), Ty::Ptr(_)) => match v {
                Value::Number(0) => Ok(Value::Null),
                _ => Err(Fault::Undefined),
            },
            (Ty::Ptr(_), Ty::Ptr(_)) | (Ty::Array(..), Ty::Ptr(_)) => Ok(v),
            (Ty::Ptr(_), Ty::Int(_)) => {
                if self.is_comparable(v) {
                    Ok(Value::Number(truth_of(matches!(v, Value::Address(_)))))
                } else {
                    Err(Fault::Undefined)
                }
            }
            _ => Err(Fault::Undefined),
        }
    }

    fn equality(&self, v: Value, w: Value, answer: bool) -> Result<Value, Fault>
        ensures { result ≡ both_comparable self.now v w answer }
    {
        if self.is_comparable(v) && self.is_comparable(w) {
            Ok(Value::Number(truth_of(answer)))
        } else {
            Err(Fault::Undefined)
        }
    }

    /// A pointer and an integer (C11 6.5.6); the integer counts elements of a size.
    pub fn move_pointer(
        &self,
        op: Binop,
        bytes: u32,
        i: IntType,
        v: Value,
        w: Value,
    ) -> Result<Value, Fault>
        ensures { result ≡ pointer_moved self.now op bytes i v w }
    {
        let Value::Number(n) = w else {
            return Err(Fault::Undefined);
        };
        let by = bytes_of_elements(bytes, number_of(i, n));
        match op {
            Binop::Add => self.moved(v, by),
            Binop::Sub => self.moved(v, -by),
            _ => Err(Fault::Undefined),
        }
    }

    /// An integer and a pointer.
    pub fn move_by(
        &self,
        op: Binop,
        bytes: u32,
        i: IntType,
        w: Value,
        v: Value,
    ) -> Result<Value, Fault>
        ensures { result ≡ moved_by self.now op bytes i w v }
    {
        match op {
            Binop::Add => self.move_pointer(op, bytes, i, v, w),
            _ => Err(Fault::Undefined),
        }
    }

    /// Difference, equality and order of pointers to elements of a size (C11 6.5.6, 6.5.8, 6.5.9).
    pub fn combine_pointers(
        &self,
        op: Binop,
        bytes: u32,
        v: Value,
        w: Value,
    ) -> Result<Value, Fault>
        ensures { result ≡ pointer_result self.now op bytes v w }
    {
        match op {
            Binop::Sub => subtract(bytes, v, w),
            Binop::Eq => self.equality(v, w, is_same_place(v, w)),
            Binop::Ne => self.equality(v, w, !is_same_place(v, w)),
            Binop::Lt | Binop::Gt | Binop::Le | Binop::Ge => match offsets(v, w) {
                Some((a, b)) => Ok(Value::Number(truth_of(is_in_order(op, a, b)))),
                None => Err(Fault::Undefined),
            },
            _ => Err(Fault::Undefined),
        }
    }
}
