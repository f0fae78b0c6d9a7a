//! The code of a program.

ghost use Rattle.std.specs.Prelude.{◌≡◌, ◌++◌, IfOk, map};
ghost use Rattle.fx_c_ast.specs.CheckedTrees.{struct_types};
ghost use Rattle.fx_c_mean_model.specs.Programs.{program_of, function_of};
ghost use Rattle.fx_c_lin.specs.Ops.{step_of, plain_code};
ghost use Rattle.fx_c_lower_model.specs.Code.{code_of, function_code};
ghost use Rattle.fx_c_lower.specs.Views.{source};

use crate::lengths::stmts_size;
use crate::output::Output;
use crate::statements::{Exits, fall, stmts};
use fx_c_ast::checked::{TFunction, TProgram};
use fx_c_ast::sequence::Sequence;
use fx_c_lin::op::{Code, Step, Steps};
use fx_c_lower_tables::sizes::{Sizes, sizes_of};
use std::alloc::{AllocError, Global};

/// The steps of a function.
fn function(alloc: Global, sizes: &Sizes<'_>, f: &TFunction) -> Result<Vec<Step>, AllocError>
    ensures { IfOk result (λ v. map step_of v.items
        ≡ function_code (source sizes.now) (function_of (struct_types sizes.now.program.now.structs)
        f.now)) }
{
    let mut out = Output {
        steps: Vec::new(alloc),
        at: 0,
    };
    let body = f.body.as_slice();
    let to = Exits {
        exit: stmts_size(sizes, body, &f.result)?,
        leave: 0,
        again: 0,
    };
    stmts(alloc, sizes, &mut out, body, &f.result, to)?;
    fall(&mut out, &f.result)?;
    Ok(out.steps)
}

/// Code whose device operations, ends and cost are the program's: that of each function. A program
/// of which a number passes 2^32 is want of memory.
pub fn lower(alloc: Global, p: &TProgram) -> Result<Code, AllocError>
    ensures { IfOk result (λ c. plain_code c ≡ code_of (program_of p.now)) }
{
    let sizes = sizes_of(alloc, p)?;
    let mut functions = Vec::new(alloc);
    for f in p.functions.as_slice() {
        let steps: Steps = Sequence::from_vec(function(alloc, &sizes, f)?);
        functions.push(steps)?;
    }
    Ok(Code {
        functions: Sequence::from_vec(functions),
    })
}
