//! What a configuration grants in a program, or why it is refused for it.

ghost use Rattle.std.specs.Prelude.{◌≡◌, ◌≢◌, ◌<◌, ◌≤◌, ◌^◌, Ok, Err, IfOk, MatchResult, length};
ghost use Rattle.fx_grants.specs.GrantSets.{merged_of, HasHomes};
ghost use Rattle.fx_grants.specs.Refusals.{resolved, used};
ghost use Rattle.fx_grants.specs.declared.resolution.GrantError.TheVariants.{OutOfMemory};

use crate::building::{all_function_grants, grants};
use crate::grants::{Grants, Pair};
use crate::homes::homes;
use crate::libraries::{entries_known, homeless, libraries_known};
use crate::refusals::{not_granted, not_owned, not_scheduler};
use fx_c_ast::checked::TProgram;
use fx_config::{Bytes, Config, Mechanism, Sequence};
use std::alloc::{AllocError, Global};
use thiserror::Error;

/// Why a configuration is refused for a program, in the order in which the kinds are tried. Within a
/// kind the first in program order decides.
#[derive(Clone, Copy, Debug, PartialEq, Eq, Error)]
pub enum GrantError {
    /// A compartment or an annotation names a library that is not in the configuration.
    #[error("a library that is named is not in the configuration")]
    UnknownLibrary,
    /// The library of this number is in no compartment.
    #[error("library {0} is in no compartment")]
    NoCompartment(u8),
    /// A name in `calls` is no entry function.
    #[error("a name in calls is no entry function")]
    UnknownEntry,
    /// An operation of this device stands in a compartment that does not own it.
    #[error("device {0} is used outside its owner's compartment")]
    NotOwner(u16),
    /// The function of this number holds a gate that the calls of its compartment do not name.
    #[error("function {0} holds a gate that is not granted")]
    GateNotGranted(u32),
    /// The function of this number holds an operation of the scheduler outside its compartment.
    #[error("function {0} is outside the scheduler's compartment")]
    NotScheduler(u32),
    #[error("out of memory")]
    OutOfMemory,
}

impl From<AllocError> for GrantError {
    ghost from_gives = { λ _ e. e ≡ OutOfMemory };

    fn from(_error: AllocError) -> GrantError {
        GrantError::OutOfMemory
    }
}

/// What a configuration grants in a program: the compartment of each library, and the readers and
/// writers of each object (this project's own rules).
pub fn resolve(alloc: Global, p: &TProgram, c: &Config) -> Result<Grants, GrantError>
    requires functions { length p.now.functions < 2 ^ 32 }
    requires libraries { length c.now.libraries ≤ 64 }
    requires compartments { length c.now.compartments ≤ 16 }
    ensures exact { MatchResult result (λ g. resolved p.now c.now ≡ Ok g) (λ e. e ≢ OutOfMemory → resolved p.now c.now ≡ Err e) }
    ensures homes { IfOk result HasHomes }
{
    if !libraries_known(p, c) {
        return Err(GrantError::UnknownLibrary);
    }
    if let Some(library) = homeless(c) {
        return Err(GrantError::NoCompartment(library as u8));
    }
    if !entries_known(p, c) {
        return Err(GrantError::UnknownEntry);
    }
    placed(alloc, p, c)
}

// The same for a program and a configuration whose libraries and entries are there.
fn placed(alloc: Global, p: &TProgram, c: &Config) -> Result<Grants, GrantError>
    requires functions { length p.now.functions < 2 ^ 32 }
    requires compartments { length c.now.compartments ≤ 16 }
    ensures exact { MatchResult result (λ g. used p.now c.now ≡ Ok g) (λ e. e ≢ OutOfMemory → used p.now c.now ≡ Err e) }
    ensures homes { IfOk result HasHomes }
{
    let homes = homes(alloc, c)?;
    if let Some(device) = not_owned(alloc, p, c, &homes)? {
        return Err(GrantError::NotOwner(device));
    }
    if let Some(f) = not_granted(alloc, p, c, &homes)? {
        return Err(GrantError::GateNotGranted(f));
    }
    if let Some(f) = not_scheduler(alloc, p, c, &homes)? {
        return Err(GrantError::NotScheduler(f));
    }
    Ok(grants(alloc, p, c, homes)?)
}

/// The grants where one compartment holds all libraries, under plain calls.
pub fn merged(alloc: Global, p: &TProgram, c: &Config) -> Result<Grants, AllocError>
    ensures exact { IfOk result (λ g. g ≡ merged_of p.now c.now) }
    ensures homes { IfOk result HasHomes }
{
    let first = Pair {
        readers: 1,
        writers: 1,
    };
    let homes = vec![in alloc; 0; c.libraries.as_slice().len()]?;
    let globals = vec![in alloc; first; p.globals.as_slice().len()]?;
    let functions = all_function_grants(alloc, &[], p.functions.as_slice())?;
    Ok(Grants {
        mechanism: Mechanism::Call,
        stack_pages: c.stack_pages,
        scheduler: 0,
        compartments: 1,
        homes: Bytes::new(homes),
        globals: Sequence::new(globals),
        functions: Sequence::new(functions),
    })
}
