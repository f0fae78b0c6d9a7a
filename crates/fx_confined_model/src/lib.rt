//! What is granted to a compartment, and that an image's pages permit exactly that.
//!
//! `Granted` (in `specs/`) says by an image's own fields which pages a compartment may read, write and
//! execute: code, literals and the current thread's word; the sections of its pairs; its own stacks'
//! low halves and all high halves; its devices' pages; its mailboxes. `Domain` says who acts at a state
//! of a vCPU. The public functions have empty bodies; their contracts are the laws.
#![tactic(auto)]

ghost use Rattle.fx_confined_model.specs.Permitted.{ImagePermits};
ghost use Rattle.fx_confined_model.specs.Spaces.{SpacePermits};

/// Under protection keys the access check permits a compartment exactly the reads and writes that are
/// granted to it.
pub fn image_permits()
    ensures { ImagePermits }
{}

/// Under `ept` the space of a compartment permits exactly the reads and writes that are granted to it.
pub fn space_permits()
    ensures { SpacePermits }
{}
