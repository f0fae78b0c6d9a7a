//! Which rules of an image's fields the image of parts meets.
//!
//! An image is taken by those that read, print and boot it where each field meets its rule. These
//! laws say of which configurations, placements and parts the linker's image does. The public
//! functions have empty bodies; their contracts are the laws.
#![tactic(auto)]

ghost use Rattle.fx_linker_law.specs.Laws.{HeadsAreMet, CompartmentsAreMet, CodeIsMet};
ghost use Rattle.fx_linker_law.specs.Laws.{AbortsAreMet, OwnersAreMet, StartsAreMet};
ghost use Rattle.fx_linker_law.specs.Laws.{SectionsAreMet, LiteralsAreMet, StubsAreMet};
ghost use Rattle.fx_linker_law.specs.Laws.{SequencesAreMet, EntriesAreMet};
ghost use Rattle.fx_linker_law.specs.Laws.{ObjectsAreMet, LinkedAreImages};

/// The fields of one number: version, mechanism, count, stacks, threads, scheduler and home.
pub fn heads_are_met()
    ensures { HeadsAreMet }
{}

/// Each compartment has whole pages, behind those of the one before it, and a name of its own.
pub fn compartments_are_met()
    ensures { CompartmentsAreMet }
{}

/// The code has whole pages, as many as the ranges and the runtime.
pub fn code_is_met()
    ensures { CodeIsMet }
{}

/// The abort stub stands in the runtime's range.
pub fn aborts_are_met()
    ensures { AbortsAreMet }
{}

/// Each device has an owner.
pub fn owners_are_met()
    ensures { OwnersAreMet }
{}

/// Each vCPU starts in the code, on a stack of its compartment in thread 0.
pub fn starts_are_met()
    ensures { StartsAreMet }
{}

/// The sections stand one behind the other with a page between them, the compartments' own first,
/// each with its key; and each compartment has the rights that they give it.
pub fn sections_are_met()
    ensures { SectionsAreMet }
{}

/// The literals have no more bytes than they may.
pub fn literals_are_met()
    ensures { LiteralsAreMet }
{}

/// Without stubs there is none to stand anywhere.
pub fn stubs_are_met()
    ensures { StubsAreMet }
{}

/// WRPKRU's bytes stand nowhere in the code, also not across two instructions.
pub fn sequences_are_met()
    ensures { SequencesAreMet }
{}

/// The entries stand by compartment and number, each with room for its jump.
pub fn entries_are_met()
    ensures { EntriesAreMet }
{}

/// The objects ascend, each in its section's pages and 16 bytes or more past the one before it,
/// with a name of its own and no more initial bytes than it has.
pub fn objects_are_met()
    ensures { ObjectsAreMet }
{}

/// What is linked of parts without stubs is an image: each of its fields meets its rule.
pub fn linked_are_images()
    ensures { LinkedAreImages }
{}
