//! The grants of a program that is not refused.

ghost use Rattle.std.specs.Prelude.{◌≡◌, ◌<◌, ◌≤◌, All, IfOk, length, map};
ghost use Rattle.fx_c_ast.specs.declared.checked.TLocal.{TLocal};
ghost use Rattle.fx_grants.specs.Sets.{with_members};
ghost use Rattle.fx_grants.specs.Homes.{home_of, homes_of, home_at};
ghost use Rattle.fx_grants.specs.GrantSets.{granted, pair_of, function_grants, grants_of, HasHomes};
ghost use Rattle.fx_grants.specs.declared.grants.FunctionGrants.{FunctionGrants as Granted};

use crate::grants::{FunctionGrants, Grants, Pair};
use crate::homes::{home_of, home_within};
use crate::sets::{all_of, only, with_member};
use fx_c_ast::checked::{TFunction, TGlobal, TLocal, TProgram};
use fx_c_ast::parsed::{Grant, Name};
use fx_config::{Bytes, Config, Sequence};
use std::alloc::{AllocError, Global};

// The set with the compartments of the libraries of these names too.
fn with_homes(c: &Config, set: u16, names: &[Name]) -> u16
    requires { length c.now.compartments ≤ 16 }
    ensures { result ≡ with_members set (map (home_of c.now) names.now) }
{
    let mut members = set;
    for name in names {
        members = with_member(members, home_of(c, name.as_slice()));
    }
    members
}

// The set with the compartments to which an annotation grants.
fn granted(c: &Config, set: u16, grant: &Grant) -> u16
    requires { length c.now.compartments ≤ 16 }
    ensures { result ≡ granted c.now set grant.now }
{
    match grant {
        Grant::Private => set,
        Grant::Libraries(names) => with_homes(c, set, names.as_slice()),
        Grant::All => all_of(c.compartments.as_slice().len()),
    }
}

fn pair_of(c: &Config, homes: &[u8], global: &TGlobal) -> Pair
    requires few { length c.now.compartments ≤ 16 }
    requires within { All (λ h. h < 16) homes.now }
    ensures { result ≡ pair_of c.now homes.now global.now }
{
    let own = only(home_within(homes, global.library));
    let writers = granted(c, own, &global.grant);
    Pair {
        readers: granted(c, writers, &global.readers),
        writers,
    }
}

fn pairs(
    alloc: Global,
    c: &Config,
    homes: &[u8],
    globals: &[TGlobal],
) -> Result<Vec<Pair>, AllocError>
    requires few { length c.now.compartments ≤ 16 }
    requires within { All (λ h. h < 16) homes.now }
    ensures { IfOk result (λ v. v.items ≡ map (pair_of c.now homes.now) globals.now) }
{
    let mut found = Vec::new(alloc);
    for global in globals {
        found.push(pair_of(c, homes, global))?;
    }
    Ok(found)
}

fn shared_marks(alloc: Global, locals: &[TLocal]) -> Result<Vec<bool>, AllocError>
    ensures { IfOk result (λ v. v.items ≡ map (λ (l : TLocal). l.shared) locals.now) }
{
    locals.iter().map(|local| local.shared).collect(alloc)
}

fn function_grants(alloc: Global, homes: &[u8], f: &TFunction) -> Result<FunctionGrants, AllocError>
    requires { All (λ h. h < 16) homes.now }
    ensures grants { IfOk result (λ g. g ≡ function_grants homes.now f.now) }
    ensures home { IfOk result (λ g. g.compartment < 16) }
{
    let shared = shared_marks(alloc, f.locals.as_slice())?;
    Ok(FunctionGrants {
        compartment: home_within(homes, f.library),
        shared: Sequence::new(shared),
    })
}

/// Each function's compartment and shared locals.
pub fn all_function_grants(
    alloc: Global,
    homes: &[u8],
    functions: &[TFunction],
) -> Result<Vec<FunctionGrants>, AllocError>
    requires { All (λ h. h < 16) homes.now }
    ensures grants { IfOk result (λ v. v.items ≡ map (function_grants homes.now) functions.now) }
    ensures homes { IfOk result (λ v. All (λ (g : Granted). g.compartment < 16) v.items) }
{
    let mut found = Vec::new(alloc);
    for f in functions {
        found.push(function_grants(alloc, homes, f)?)?;
    }
    Ok(found)
}

/// What a configuration grants in a program, where the libraries' compartments are these.
pub fn grants(alloc: Global, p: &TProgram, c: &Config, homes: Vec<u8>) -> Result<Grants, AllocError>
    requires few { length c.now.compartments ≤ 16 }
    requires homes { homes.items ≡ homes_of c.now }
    requires within { All (λ h. h < 16) homes.items }
    ensures exact { IfOk result (λ g. g ≡ grants_of p.now c.now) }
    ensures homes { IfOk result HasHomes }
{
    let globals = pairs(alloc, c, &homes, p.globals.as_slice())?;
    let functions = all_function_grants(alloc, &homes, p.functions.as_slice())?;
    Ok(Grants {
        mechanism: c.mechanism,
        stack_pages: c.stack_pages,
        scheduler: c.scheduler,
        compartments: c.compartments.as_slice().len() as u8,
        homes: Bytes::new(homes),
        globals: Sequence::new(globals),
        functions: Sequence::new(functions),
    })
}
