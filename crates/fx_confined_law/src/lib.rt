//! Compartments whose code was replaced stay confined.
//!
//! `Confined` (in `specs/`) says it of an image and a compartment: whatever admitted bytes stand in place of
//! the compartment's code, whatever answers devices give and however the vCPUs take turns, after each
//! turn some compartment acts or its right to act is being checked; while it is checked no data access
//! is made; and each data access made goes to pages that are granted to who acts. Under protection keys
//! an image whose stubs check each WRPKRU (`HasChecks`) confines each compartment; under `ept` any state
//! obeys. The public functions have empty bodies; their contracts are the laws. Images made by hand meet
//! their premises. The forms are this project's own.
#![tactic(auto)]

ghost use Rattle.fx_confined_law.specs.Confined.{ConfinedUnderKeys, ObeysUnderEpt, ObeysUnderKeys};
ghost use Rattle.fx_confined_law.specs.Machines.{UngrantedBytesStay};
ghost use Rattle.fx_confined_law.specs.Premises.{PremisesAreMet};

/// Under protection keys each state of each run obeys, where the stubs check.
pub fn obeys_under_keys()
    ensures { ObeysUnderKeys }
{}

/// Under `ept` any state obeys, whatever code and registers are.
pub fn obeys_under_ept()
    ensures { ObeysUnderEpt }
{}

/// Under protection keys an image whose stubs check confines each compartment: no admitted bytes in
/// place of its code reach what isn't granted to it.
pub fn confined_under_keys()
    ensures { ConfinedUnderKeys }
{}

/// A machine under `ept` leaves the bytes that aren't granted to it for writing.
pub fn ungranted_bytes_stay()
    ensures { UngrantedBytesStay }
{}

/// Images made by hand meet the premises of these laws, so that the laws say something.
pub fn premises_are_met()
    ensures { PremisesAreMet }
{}
