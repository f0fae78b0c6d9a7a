//! Values and objects: what an expression's type is, how it is read, and how it is converted.

ghost use Rattle.std.specs.Prelude.{◌≡◌, Ok};
ghost use Rattle.fx_c_ast.specs.CheckedTrees.{EConvert, ty_tree, texpr_tree};
ghost use Rattle.fx_c_types_rules.specs.Checks.{Gives};
ghost use Rattle.fx_c_types_rules.specs.Types.{category};
ghost use Rattle.fx_c_types_rules.specs.Values.{type_of, is_zero, is_object, converted, value_of, integer_of, condition, as_long, pointers_agree, agrees, assigned};

use crate::category::Category;
use crate::fault::{Fault, TypeKind};
use crate::types::{category, copied, is_void, pointee, pointer_to, same};
use fx_c_ast::checked::{TExpr, TKind, Ty};
use fx_c_ast::operator::{IntType, Unop};
use std::alloc::Global;

/// The type that an expression carries.
pub fn type_of(e: &TExpr) -> &Ty
    ensures { ty_tree result.now ≡ type_of (texpr_tree e.now) }
{
    &e.ty
}

/// The category of an expression's type.
pub fn category_of(e: &TExpr) -> Category
    ensures { result ≡ category (type_of (texpr_tree e.now)) }
{
    category(type_of(e))
}

/// Whether an expression is the number token 0, which agrees with every pointer type.
pub fn is_zero(e: &TExpr) -> bool
    ensures { result ≡ is_zero (texpr_tree e.now) }
{
    match &e.kind {
        TKind::Number(value) => *value == 0,
        _ => false,
    }
}

/// Whether an expression names an object: a variable, a string, `*e`, `e[i]`, `e->m`, and `e.m`
/// where `e` names one.
pub fn is_object(e: &TExpr) -> bool
    ensures { result ≡ is_object (texpr_tree e.now) }
{
    match &e.kind {
        TKind::Literal(_) | TKind::Global(_) | TKind::Local(_) => true,
        TKind::Un(Unop::Deref, _) => true,
        TKind::Index(..) | TKind::Arrow(..) => true,
        TKind::Member(e, _) => is_object(e),
        _ => false,
    }
}

/// An expression as the operand of a conversion to a type.
fn convert(alloc: Global, ty: Ty, e: TExpr) -> Result<TExpr, Fault>
    ensures { Gives texpr_tree result (Ok (EConvert (ty_tree ty) (texpr_tree e))) }
{
    let kind = TKind::Convert(Box::new(alloc, e)?);
    Ok(TExpr { ty, kind })
}

/// An expression converted to a type; nothing is written where it has that type.
pub fn converted(alloc: Global, ty: Ty, e: TExpr) -> Result<TExpr, Fault>
    ensures { Gives texpr_tree result (Ok (converted (ty_tree ty) (texpr_tree e))) }
{
    if same(type_of(&e), &ty) {
        Ok(e)
    } else {
        convert(alloc, ty, e)
    }
}

/// An expression as a value: an array becomes a pointer to its first element.
pub fn value(alloc: Global, e: TExpr) -> Result<TExpr, Fault>
    ensures { Gives texpr_tree result (Ok (value_of (texpr_tree e))) }
{
    match type_of(&e) {
        Ty::Array(of, _) => {
            let of = copied(alloc, of)?;
            convert(alloc, pointer_to(alloc, of)?, e)
        }
        _ => Ok(e),
    }
}

/// The type of a value that has to be an integer.
pub fn integer(e: &TExpr) -> Result<IntType, Fault>
    ensures { Gives (λ i. i) result (integer_of (texpr_tree e.now)) }
{
    match category_of(e) {
        Category::Integer(i) => Ok(i),
        _ => Err(Fault::Rule(TypeKind::NotInteger)),
    }
}

/// A value that is tested: an integer, or a pointer, which is converted to `int`.
pub fn condition(alloc: Global, e: TExpr) -> Result<TExpr, Fault>
    ensures { Gives texpr_tree result (condition (texpr_tree e)) }
{
    match category_of(&e) {
        Category::Integer(_) => Ok(e),
        Category::Pointer => converted(alloc, Ty::Int(IntType::Int), e),
        _ => Err(Fault::Rule(TypeKind::NotInteger)),
    }
}

/// A value that has to be an integer, as a `long`.
pub fn as_long(alloc: Global, e: TExpr) -> Result<TExpr, Fault>
    ensures { Gives texpr_tree result (as_long (texpr_tree e)) }
{
    integer(&e)?;
    converted(alloc, Ty::Int(IntType::Long), e)
}

/// Whether two pointer types agree: they are the same, or one of them points to void.
pub fn pointers_agree(s: &Ty, t: &Ty) -> bool
    ensures { result ≡ pointers_agree (ty_tree s.now) (ty_tree t.now) }
{
    same(s, t) | is_void(pointee(s)) | is_void(pointee(t))
}

/// Whether a value may be stored in an object of a type.
pub fn agrees(t: &Ty, e: &TExpr) -> bool
    ensures { result ≡ agrees (ty_tree t.now) (texpr_tree e.now) }
{
    match category(t) {
        Category::Integer(_) => match category_of(e) {
            Category::Integer(_) => true,
            _ => false,
        },
        Category::Pointer => match category_of(e) {
            Category::Integer(_) => is_zero(e),
            Category::Pointer => pointers_agree(t, type_of(e)),
            _ => false,
        },
        Category::Structure => match category_of(e) {
            Category::Structure => same(t, type_of(e)),
            _ => false,
        },
        _ => false,
    }
}

/// The value of `e` as it is assigned to the object `to`.
pub fn assigned(alloc: Global, to: &TExpr, e: TExpr) -> Result<TExpr, Fault>
    ensures { Gives texpr_tree result (assigned (texpr_tree to.now) (texpr_tree e)) }
{
    if is_void(type_of(&e)) {
        return Err(Fault::Rule(TypeKind::NotInteger));
    }
    if !is_object(to) {
        return Err(Fault::Rule(TypeKind::NotLvalue));
    }
    if let Category::Array = category_of(to) {
        return Err(Fault::Rule(TypeKind::NotLvalue));
    }
    if !agrees(type_of(to), &e) {
        return Err(Fault::Rule(TypeKind::Mismatch));
    }
    converted(alloc, copied(alloc, type_of(to))?, e)
}
