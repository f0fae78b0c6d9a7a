//! The operators: the checked tree of a node from those of its operands, or the rule that refuses it.
//!
//! `declared` is the number of structs that are complete at the node: those declared before.

ghost use Rattle.std.specs.Prelude.{◌≡◌, Ok};
ghost use Rattle.fx_c_ast.specs.CheckedTrees.{EUn, EBin, EIndex, ECast, ty_tree, texpr_tree};
ghost use Rattle.fx_c_types_rules.specs.Checks.{Gives, demand};
ghost use Rattle.fx_c_types_rules.specs.Types.{pointee};
ghost use Rattle.fx_c_types_rules.specs.Values.{type_of};
ghost use Rattle.fx_c_types_rules.specs.Operators.{signed, negated, dereferenced, address, unary, arithmetic, shifted, logical, moved, sum, distance, difference, numbers_compared, compared_as, common_pointer, compared, binary_values, binary, cast, element};

use crate::category::Category;
use crate::fault::{Fault, TypeKind};
use crate::types::{
    category, common, copied, is_complete, is_void, pointee, pointer_to, promoted, same,
};
use crate::values::{
    category_of, condition, converted, integer, is_object, is_zero, pointers_agree, type_of, value,
};
use fx_c_ast::checked::{TExpr, TKind, Ty};
use fx_c_ast::operator::{Binop, IntType, Unop};
use std::alloc::Global;

fn unary_node(alloc: Global, ty: Ty, op: Unop, e: TExpr) -> Result<TExpr, Fault>
    ensures { Gives texpr_tree result (Ok (EUn (ty_tree ty) op (texpr_tree e))) }
{
    let kind = TKind::Un(op, Box::new(alloc, e)?);
    Ok(TExpr { ty, kind })
}

fn binary_node(alloc: Global, ty: Ty, op: Binop, a: TExpr, b: TExpr) -> Result<TExpr, Fault>
    ensures { Gives texpr_tree result (Ok (EBin (ty_tree ty) op (texpr_tree a) (texpr_tree b))) }
{
    let a = Box::new(alloc, a)?;
    let b = Box::new(alloc, b)?;
    let kind = TKind::Bin(op, a, b);
    Ok(TExpr { ty, kind })
}

/// `-` or `~` of an integer.
fn signed(alloc: Global, op: Unop, e: TExpr) -> Result<TExpr, Fault>
    ensures { Gives texpr_tree result (signed op (texpr_tree e)) }
{
    let i = promoted(integer(&e)?);
    let e = converted(alloc, Ty::Int(i), e)?;
    unary_node(alloc, Ty::Int(i), op, e)
}

/// `!` of an integer or a pointer.
fn negated(alloc: Global, e: TExpr) -> Result<TExpr, Fault>
    ensures { Gives texpr_tree result (negated (texpr_tree e)) }
{
    let e = condition(alloc, e)?;
    unary_node(alloc, Ty::Int(IntType::Int), Unop::Lnot, e)
}

/// `*` of a pointer to a complete type.
fn dereferenced(alloc: Global, declared: u32, e: TExpr) -> Result<TExpr, Fault>
    ensures { Gives texpr_tree result (dereferenced declared (texpr_tree e)) }
{
    match category_of(&e) {
        Category::Pointer => {
            let to = pointee(type_of(&e));
            if !is_complete(declared, to) {
                return Err(Fault::Rule(TypeKind::NotPointer));
            }
            let ty = copied(alloc, to)?;
            unary_node(alloc, ty, Unop::Deref, e)
        }
        Category::Integer(_) => Err(Fault::Rule(TypeKind::NotPointer)),
        _ => Err(Fault::Rule(TypeKind::NotInteger)),
    }
}

/// `&` of an object.
fn address(alloc: Global, e: TExpr) -> Result<TExpr, Fault>
    ensures { Gives texpr_tree result (address (texpr_tree e)) }
{
    if !is_object(&e) {
        return Err(Fault::Rule(TypeKind::NotLvalue));
    }
    let ty = copied(alloc, type_of(&e))?;
    unary_node(alloc, pointer_to(alloc, ty)?, Unop::Addr, e)
}

/// A unary operation on an expression.
pub fn unary(alloc: Global, declared: u32, op: Unop, e: TExpr) -> Result<TExpr, Fault>
    ensures { Gives texpr_tree result (unary declared op (texpr_tree e)) }
{
    match op {
        Unop::Neg | Unop::Not => signed(alloc, op, value(alloc, e)?),
        Unop::Lnot => negated(alloc, value(alloc, e)?),
        Unop::Deref => dereferenced(alloc, declared, value(alloc, e)?),
        Unop::Addr => address(alloc, e),
    }
}

/// An operation on integers in their common type.
fn arithmetic(alloc: Global, op: Binop, a: TExpr, b: TExpr) -> Result<TExpr, Fault>
    ensures { Gives texpr_tree result (arithmetic op (texpr_tree a) (texpr_tree b)) }
{
    let i = integer(&a)?;
    let j = integer(&b)?;
    let i = common(i, j);
    let a = converted(alloc, Ty::Int(i), a)?;
    let b = converted(alloc, Ty::Int(i), b)?;
    binary_node(alloc, Ty::Int(i), op, a, b)
}

/// A shift: each operand is promoted by itself.
fn shifted(alloc: Global, op: Binop, a: TExpr, b: TExpr) -> Result<TExpr, Fault>
    ensures { Gives texpr_tree result (shifted op (texpr_tree a) (texpr_tree b)) }
{
    let i = integer(&a)?;
    let j = integer(&b)?;
    let i = promoted(i);
    let a = converted(alloc, Ty::Int(i), a)?;
    let b = converted(alloc, Ty::Int(promoted(j)), b)?;
    binary_node(alloc, Ty::Int(i), op, a, b)
}

/// `&&` or `||` of integers and pointers.
fn logical(alloc: Global, op: Binop, a: TExpr, b: TExpr) -> Result<TExpr, Fault>
    ensures { Gives texpr_tree result (logical op (texpr_tree a) (texpr_tree b)) }
{
    let a = condition(alloc, a)?;
    let b = condition(alloc, b)?;
    binary_node(alloc, Ty::Int(IntType::Int), op, a, b)
}

/// A pointer, whose type is `ty`, moved by an integer.
fn moved(
    alloc: Global,
    declared: u32,
    op: Binop,
    ty: Ty,
    a: TExpr,
    b: TExpr,
) -> Result<TExpr, Fault>
    ensures { Gives texpr_tree result (moved declared op (ty_tree ty) (texpr_tree a) (texpr_tree b)) }
{
    if !is_complete(declared, pointee(&ty)) {
        return Err(Fault::Rule(TypeKind::NotPointer));
    }
    binary_node(alloc, ty, op, a, b)
}

fn sum(alloc: Global, declared: u32, a: TExpr, b: TExpr) -> Result<TExpr, Fault>
    ensures { Gives texpr_tree result (sum declared (texpr_tree a) (texpr_tree b)) }
{
    match (category_of(&a), category_of(&b)) {
        (Category::Pointer, Category::Integer(_)) => {
            let ty = copied(alloc, type_of(&a))?;
            moved(alloc, declared, Binop::Add, ty, a, b)
        }
        (Category::Integer(_), Category::Pointer) => {
            let ty = copied(alloc, type_of(&b))?;
            moved(alloc, declared, Binop::Add, ty, a, b)
        }
        _ => arithmetic(alloc, Binop::Add, a, b),
    }
}

/// How many elements lie between two pointers of one type, a `long`.
fn distance(alloc: Global, declared: u32, a: TExpr, b: TExpr) -> Result<TExpr, Fault>
    ensures { Gives texpr_tree result (distance declared (texpr_tree a) (texpr_tree b)) }
{
    if !is_complete(declared, pointee(type_of(&a))) {
        return Err(Fault::Rule(TypeKind::NotPointer));
    }
    if !is_complete(declared, pointee(type_of(&b))) {
        return Err(Fault::Rule(TypeKind::NotPointer));
    }
    if !same(type_of(&a), type_of(&b)) {
        return Err(Fault::Rule(TypeKind::Mismatch));
    }
    binary_node(alloc, Ty::Int(IntType::Long), Binop::Sub, a, b)
}

fn difference(alloc: Global, declared: u32, a: TExpr, b: TExpr) -> Result<TExpr, Fault>
    ensures { Gives texpr_tree result (difference declared (texpr_tree a) (texpr_tree b)) }
{
    match (category_of(&a), category_of(&b)) {
        (Category::Pointer, Category::Integer(_)) => {
            let ty = copied(alloc, type_of(&a))?;
            moved(alloc, declared, Binop::Sub, ty, a, b)
        }
        (Category::Pointer, Category::Pointer) => distance(alloc, declared, a, b),
        _ => arithmetic(alloc, Binop::Sub, a, b),
    }
}

fn numbers_compared(alloc: Global, op: Binop, a: TExpr, b: TExpr) -> Result<TExpr, Fault>
    ensures { Gives texpr_tree result (numbers_compared op (texpr_tree a) (texpr_tree b)) }
{
    let i = integer(&a)?;
    let j = integer(&b)?;
    let i = common(i, j);
    let a = converted(alloc, Ty::Int(i), a)?;
    let b = converted(alloc, Ty::Int(i), b)?;
    binary_node(alloc, Ty::Int(IntType::Int), op, a, b)
}

/// A comparison of two operands that are converted to one pointer type.
fn compared_as(alloc: Global, op: Binop, ty: Ty, a: TExpr, b: TExpr) -> Result<TExpr, Fault>
    ensures { Gives texpr_tree result (Ok (compared_as op (ty_tree ty) (texpr_tree a) (texpr_tree b))) }
{
    let a = converted(alloc, copied(alloc, &ty)?, a)?;
    let b = converted(alloc, ty, b)?;
    binary_node(alloc, Ty::Int(IntType::Int), op, a, b)
}

fn common_pointer(alloc: Global, s: &Ty, t: &Ty) -> Result<Ty, Fault>
    ensures { Gives ty_tree result (Ok (common_pointer (ty_tree s.now) (ty_tree t.now))) }
{
    if is_void(pointee(t)) {
        copied(alloc, t)
    } else {
        copied(alloc, s)
    }
}

fn compared(alloc: Global, op: Binop, a: TExpr, b: TExpr) -> Result<TExpr, Fault>
    ensures { Gives texpr_tree result (compared op (texpr_tree a) (texpr_tree b)) }
{
    match (category_of(&a), category_of(&b)) {
        (Category::Pointer, Category::Pointer) => {
            if !pointers_agree(type_of(&a), type_of(&b)) {
                return Err(Fault::Rule(TypeKind::Mismatch));
            }
            let ty = common_pointer(alloc, type_of(&a), type_of(&b))?;
            compared_as(alloc, op, ty, a, b)
        }
        (Category::Pointer, Category::Integer(_)) => {
            if !is_zero(&b) {
                return Err(Fault::Rule(TypeKind::Mismatch));
            }
            let ty = copied(alloc, type_of(&a))?;
            compared_as(alloc, op, ty, a, b)
        }
        (Category::Integer(_), Category::Pointer) => {
            if !is_zero(&a) {
                return Err(Fault::Rule(TypeKind::Mismatch));
            }
            let ty = copied(alloc, type_of(&b))?;
            compared_as(alloc, op, ty, a, b)
        }
        _ => numbers_compared(alloc, op, a, b),
    }
}

fn binary_values(
    alloc: Global,
    declared: u32,
    op: Binop,
    a: TExpr,
    b: TExpr,
) -> Result<TExpr, Fault>
    ensures { Gives texpr_tree result (binary_values declared op (texpr_tree a) (texpr_tree b)) }
{
    match op {
        Binop::Add => sum(alloc, declared, a, b),
        Binop::Sub => difference(alloc, declared, a, b),
        Binop::Mul | Binop::Div | Binop::Rem | Binop::And | Binop::Xor | Binop::Or => {
            arithmetic(alloc, op, a, b)
        }
        Binop::Shl | Binop::Shr => shifted(alloc, op, a, b),
        Binop::Lt | Binop::Gt | Binop::Le | Binop::Ge | Binop::Eq | Binop::Ne => {
            compared(alloc, op, a, b)
        }
        Binop::Land | Binop::Lor => logical(alloc, op, a, b),
    }
}

/// A binary operation on two expressions.
pub fn binary(alloc: Global, declared: u32, op: Binop, a: TExpr, b: TExpr) -> Result<TExpr, Fault>
    ensures { Gives texpr_tree result (binary declared op (texpr_tree a) (texpr_tree b)) }
{
    let a = value(alloc, a)?;
    let b = value(alloc, b)?;
    binary_values(alloc, declared, op, a, b)
}

/// A cast of a value, between integers or between pointers.
pub fn cast(alloc: Global, ty: Ty, e: TExpr) -> Result<TExpr, Fault>
    ensures { Gives texpr_tree result (cast (ty_tree ty) (texpr_tree e)) }
{
    match (category(&ty), category_of(&e)) {
        (Category::Integer(_), Category::Integer(_)) | (Category::Pointer, Category::Pointer) => {
            let kind = TKind::Cast(Box::new(alloc, e)?);
            Ok(TExpr { ty, kind })
        }
        (Category::Integer(_), Category::Pointer) | (Category::Pointer, Category::Integer(_)) => {
            Err(Fault::Rule(TypeKind::NotPointer))
        }
        _ => Err(Fault::Rule(TypeKind::NotInteger)),
    }
}

fn index_node(alloc: Global, ty: Ty, a: TExpr, b: TExpr) -> Result<TExpr, Fault>
    ensures { Gives texpr_tree result (Ok (EIndex (ty_tree ty) (texpr_tree a) (texpr_tree b))) }
{
    let a = Box::new(alloc, a)?;
    let b = Box::new(alloc, b)?;
    let kind = TKind::Index(a, b);
    Ok(TExpr { ty, kind })
}

/// `a[b]` of a pointer to a complete type and an integer.
pub fn element(alloc: Global, declared: u32, a: TExpr, b: TExpr) -> Result<TExpr, Fault>
    ensures { Gives texpr_tree result (element declared (texpr_tree a) (texpr_tree b)) }
{
    match category_of(&a) {
        Category::Pointer => {
            integer(&b)?;
            let to = pointee(type_of(&a));
            if !is_complete(declared, to) {
                return Err(Fault::Rule(TypeKind::NotPointer));
            }
            let ty = copied(alloc, to)?;
            index_node(alloc, ty, a, b)
        }
        Category::Integer(_) => {
            integer(&b)?;
            Err(Fault::Rule(TypeKind::NotPointer))
        }
        _ => Err(Fault::Rule(TypeKind::NotInteger)),
    }
}
