//! Rights made of grants.

ghost use Rattle.std.specs.Prelude.{◌≡◌, IfOk, map, not};
ghost use Rattle.fx_grants.specs.declared.grants.Pair.{Pair};
ghost use Rattle.fx_grants.specs.GrantSets.{denies_nothing, has_common_stacks};
ghost use Rattle.fx_c_mean.specs.Rights.{rights_of as rights_from};

use fx_c_ast::sequence::Sequence;
use fx_c_mean_model::rights::Rights;
use fx_config::Mechanism;
use fx_grants::{Grants, Pair};
use std::alloc::{AllocError, Global};

/// The rights that grants are.
pub fn rights_of(alloc: Global, grants: &Grants) -> Result<Rights, AllocError>
    ensures { IfOk result (λ r. r ≡ rights_from grants.now) }
{
    let homes = Vec::from_slice(alloc, grants.homes.as_slice())?;
    let globals = grants.globals.as_slice();
    Ok(Rights {
        homes: Sequence::from_vec(homes),
        readers: Sequence::from_vec(readers_of(alloc, globals)?),
        writers: Sequence::from_vec(writers_of(alloc, globals)?),
        guarded: is_guarded(&grants.mechanism),
        own_stacks: has_own_stacks(&grants.mechanism),
        stack_pages: grants.stack_pages,
    })
}

fn readers_of(alloc: Global, globals: &[Pair]) -> Result<Vec<u16>, AllocError>
    ensures { IfOk result (λ v. v.items ≡ map (λ (p : Pair). p.readers) globals.now) }
{
    globals.iter().map(|pair| pair.readers).collect(alloc)
}

fn writers_of(alloc: Global, globals: &[Pair]) -> Result<Vec<u16>, AllocError>
    ensures { IfOk result (λ v. v.items ≡ map (λ (p : Pair). p.writers) globals.now) }
{
    globals.iter().map(|pair| pair.writers).collect(alloc)
}

/// Whether accesses are checked: under every mechanism but plain calls.
fn is_guarded(mechanism: &Mechanism) -> bool
    ensures { result ≡ not (denies_nothing mechanism.now) }
{
    match mechanism {
        Mechanism::Call => false,
        Mechanism::Light | Mechanism::Full | Mechanism::Ept => true,
    }
}

/// Whether each compartment has a stack of its own for each thread.
fn has_own_stacks(mechanism: &Mechanism) -> bool
    ensures { result ≡ not (has_common_stacks mechanism.now) }
{
    match mechanism {
        Mechanism::Call | Mechanism::Light => false,
        Mechanism::Full | Mechanism::Ept => true,
    }
}
