//! Types: promotions, the usual conversions, identity, completeness.

ghost use Rattle.std.specs.Prelude.{◌≡◌, Ok};
ghost use Rattle.fx_c_ast.specs.CheckedTrees.{PtrTy, ty_tree};
ghost use Rattle.fx_c_types_rules.specs.Checks.{Gives};
ghost use Rattle.fx_c_types_rules.specs.Types.{place, promoted, common, category, pointee, same_type, is_void, is_complete};

use crate::category::Category;
use crate::fault::Fault;
use fx_c_ast::checked::Ty;
use fx_c_ast::operator::IntType;
use std::alloc::Global;

/// The place of an integer type in the list `char`, `unsigned char`, `short`, `unsigned short`,
/// `int`, `unsigned int`, `long`, `unsigned long`.
pub fn place(i: IntType) -> u8
    ensures { result ≡ place i }
{
    match i {
        IntType::Char => 0,
        IntType::Uchar => 1,
        IntType::Short => 2,
        IntType::Ushort => 3,
        IntType::Int => 4,
        IntType::Uint => 5,
        IntType::Long => 6,
        IntType::Ulong => 7,
    }
}

/// The promoted type (C11 6.3.1.1): types shorter than `int` become `int`.
pub fn promoted(i: IntType) -> IntType
    ensures { result ≡ promoted i }
{
    match i {
        IntType::Char | IntType::Uchar | IntType::Short | IntType::Ushort | IntType::Int => {
            IntType::Int
        }
        IntType::Uint => IntType::Uint,
        IntType::Long => IntType::Long,
        IntType::Ulong => IntType::Ulong,
    }
}

/// The type to which the usual arithmetic conversions (C11 6.3.1.8) take two operands.
pub fn common(i: IntType, j: IntType) -> IntType
    ensures { result ≡ common i j }
{
    let i = promoted(i);
    let j = promoted(j);
    if place(i) < place(j) { j } else { i }
}

/// The category of a type.
pub fn category(t: &Ty) -> Category
    ensures { result ≡ category (ty_tree t.now) }
{
    match t {
        Ty::Void => Category::Nothing,
        Ty::Int(i) => Category::Integer(*i),
        Ty::Struct(_) => Category::Structure,
        Ty::Ptr(_) => Category::Pointer,
        Ty::Array(..) => Category::Array,
    }
}

/// What a pointer type points to.
pub fn pointee(t: &Ty) -> &Ty
    ensures { ty_tree result.now ≡ pointee (ty_tree t.now) }
{
    match t {
        Ty::Ptr(to) => to,
        _ => t,
    }
}

/// Whether a type is void.
pub fn is_void(t: &Ty) -> bool
    ensures { result ≡ is_void (ty_tree t.now) }
{
    match t {
        Ty::Void => true,
        _ => false,
    }
}

/// Whether two types are the same.
pub fn same(a: &Ty, b: &Ty) -> bool
    ensures { result ≡ same_type (ty_tree a.now) (ty_tree b.now) }
{
    match (a, b) {
        (Ty::Void, Ty::Void) => true,
        (Ty::Int(i), Ty::Int(j)) => place(*i) == place(*j),
        (Ty::Struct(m), Ty::Struct(n)) => *m == *n,
        (Ty::Ptr(s), Ty::Ptr(t)) => same(s, t),
        (Ty::Array(s, m), Ty::Array(t, n)) => same(s, t) & (*m == *n),
        _ => false,
    }
}

/// Whether objects of a type have a size where the first `declared` structs have one.
pub fn is_complete(declared: u32, t: &Ty) -> bool
    ensures { result ≡ is_complete declared (ty_tree t.now) }
{
    match t {
        Ty::Void => false,
        Ty::Int(_) | Ty::Ptr(_) => true,
        Ty::Struct(n) => *n < declared,
        Ty::Array(of, _) => is_complete(declared, of),
    }
}

/// A copy of a type.
pub fn copied(alloc: Global, t: &Ty) -> Result<Ty, Fault>
    ensures { Gives ty_tree result (Ok (ty_tree t.now)) }
{
    match t {
        Ty::Void => Ok(Ty::Void),
        Ty::Int(i) => Ok(Ty::Int(*i)),
        Ty::Struct(n) => Ok(Ty::Struct(*n)),
        Ty::Ptr(to) => pointer_to(alloc, copied(alloc, to)?),
        Ty::Array(of, count) => {
            let of = copied(alloc, of)?;
            Ok(Ty::Array(Box::new(alloc, of)?, *count))
        }
    }
}

/// The type of pointers to a type.
pub fn pointer_to(alloc: Global, t: Ty) -> Result<Ty, Fault>
    ensures { Gives ty_tree result (Ok (PtrTy (ty_tree t))) }
{
    Ok(Ty::Ptr(Box::new(alloc, t)?))
}
