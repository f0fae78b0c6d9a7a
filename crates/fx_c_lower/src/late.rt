//! What is owed behind the code of an expression: source steps that have no op of their own.

ghost use Rattle.std.specs.Prelude.{◌≡◌, IfOk};
ghost use Rattle.fx_c_ast.specs.CheckedTrees.{texpr_tree};
ghost use Rattle.fx_c_lower_model.specs.Late.{late, value_late};
ghost use Rattle.fx_c_lower.specs.Views.{source};

use crate::direct::{Simple, direct};
use crate::forms::{cast_late, load_late, takes_value, unary_late};
use fx_c_ast::checked::{TExpr, TKind};
use fx_c_lower_tables::sizes::Sizes;
use std::alloc::AllocError;

/// What is owed behind an expression's code up to an lvalue's address, or to any other value.
#[cycle(late)]
pub fn late(sizes: &Sizes<'_>, e: &TExpr) -> Result<u32, AllocError>
    ensures { IfOk result (λ n. n ≡ late (source sizes.now) (texpr_tree e.now)) }
{
    match &e.kind {
        TKind::Un(op, inner) => {
            if takes_value(*op) {
                let owed = value_late(sizes, inner)?;
                return unary_late(*op, owed);
            }
            let owed = late(sizes, inner)?;
            unary_late(*op, owed)
        }
        TKind::Cast(inner) | TKind::Convert(inner) => {
            let owed = value_late(sizes, inner)?;
            cast_late(owed, inner, &e.ty)
        }
        _ => Ok(0),
    }
}

/// What is owed behind the code of an expression's value.
#[cycle(late)]
pub fn value_late(sizes: &Sizes<'_>, e: &TExpr) -> Result<u32, AllocError>
    ensures { IfOk result (λ n. n ≡ value_late (source sizes.now) (texpr_tree e.now)) }
{
    match direct(sizes, e)? {
        Simple::Constant { .. } | Simple::Whole(_) => Ok(0),
        Simple::Other => {
            let owed = late(sizes, e)?;
            Ok(load_late(owed, e))
        }
    }
}
