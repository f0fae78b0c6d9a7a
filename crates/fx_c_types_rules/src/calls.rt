//! Arguments of calls, and the operations of devices and threads.

ghost use Rattle.std.specs.Prelude.{◌≡◌, Ok};
ghost use Rattle.fx_c_ast.specs.CheckedTrees.{texpr_tree, texpr_trees};
ghost use Rattle.fx_c_types_rules.specs.Checks.{Gives};
ghost use Rattle.fx_c_types_rules.specs.Calls.{are_scalars, are_passed, passed, arguments, putc, device_store, switch};
ghost use Rattle.fx_c_types_rules.specs.Locals.{local_trees};

use crate::category::Category;
use crate::fault::{Fault, TypeKind};
use crate::types::copied;
use crate::values::{agrees, as_long, category_of, converted, value};
use fx_c_ast::checked::{TExpr, TKind, TLocal, Ty};
use std::alloc::Global;

fn are_scalars(args: &[TExpr]) -> bool
    ensures { result ≡ are_scalars (texpr_trees args.now) }
{
    for e in args {
        match category_of(e) {
            Category::Integer(_) | Category::Pointer => {}
            _ => return false,
        }
    }
    true
}

fn are_passed(params: &[TLocal], args: &[TExpr]) -> bool
    ensures { result ≡ are_passed (local_trees params.now) (texpr_trees args.now) }
{
    if params.len() != args.len() {
        return false;
    }
    for i in 0..args.len() {
        if !agrees(&params[i].ty, &args[i]) {
            return false;
        }
    }
    true
}

fn passed(alloc: Global, params: &[TLocal], args: Vec<TExpr>) -> Result<Vec<TExpr>, Fault>
    ensures { Gives (λ v. texpr_trees v.items) result (Ok (passed (local_trees params.now) (texpr_trees args.items))) }
{
    let mut all = Vec::new(alloc);
    let mut place = 0;
    for e in args {
        if place < params.len() {
            let ty = copied(alloc, &params[place].ty)?;
            all.push(converted(alloc, ty, e)?)?;
            place += 1;
        }
    }
    Ok(all)
}

/// The values that are passed to a function's parameters, each converted to its parameter's type.
pub fn arguments(alloc: Global, params: &[TLocal], args: Vec<TExpr>) -> Result<Vec<TExpr>, Fault>
    ensures { Gives (λ v. texpr_trees v.items) result (arguments (local_trees params.now) (texpr_trees args.items)) }
{
    if !are_scalars(&args) {
        return Err(Fault::Rule(TypeKind::NotInteger));
    }
    if !are_passed(params, &args) {
        return Err(Fault::Rule(TypeKind::Arguments));
    }
    passed(alloc, params, args)
}

/// `__putc` of an integer.
pub fn putc(alloc: Global, e: TExpr) -> Result<TExpr, Fault>
    ensures { Gives texpr_tree result (putc (texpr_tree e)) }
{
    let e = as_long(alloc, value(alloc, e)?)?;
    let kind = TKind::Putc(Box::new(alloc, e)?);
    Ok(TExpr { ty: Ty::Void, kind })
}

/// `__out` of an integer to a device's register.
pub fn device_store(alloc: Global, device: u16, register: u16, e: TExpr) -> Result<TExpr, Fault>
    ensures { Gives texpr_tree result (device_store device register (texpr_tree e)) }
{
    let e = as_long(alloc, value(alloc, e)?)?;
    let kind = TKind::DevStore(device, register, Box::new(alloc, e)?);
    Ok(TExpr { ty: Ty::Void, kind })
}

/// `__switch` to the thread with an integer for its number.
pub fn switch(alloc: Global, e: TExpr) -> Result<TExpr, Fault>
    ensures { Gives texpr_tree result (switch (texpr_tree e)) }
{
    let e = as_long(alloc, value(alloc, e)?)?;
    let kind = TKind::Switch(Box::new(alloc, e)?);
    Ok(TExpr { ty: Ty::Void, kind })
}
