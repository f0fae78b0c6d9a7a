//! What one turn of a machine can do, whatever its code is.
//!
//! Each public function has an empty body and a contract that is a law of `move`, the turn that
//! `fx_machine_model` defines: which accesses a turn makes and which bytes it leaves, what it
//! executes, and what changes PKRU. The laws ask nothing of registers beyond RIP below 2^64, and
//! nothing of the code but that the image meets the field rules, so they hold of hostile code too.
//! What each says is written in `specs/`. The processor's part follows the Intel 64 and IA-32
//! Architectures Software Developer's Manual, volume 3, sections 4.6 (access rights and protection
//! keys), in the subset of `fx_cpu` and `fx_vm_pages`; the address layout is this project's own.
#![tactic(auto)]

ghost use Rattle.fx_machine_law.specs.Kept.{
  AccessesArePermitted,
  MoveKeepsByte,
  OnlyWritesChange,
};
ghost use Rattle.fx_machine_law.specs.Code.{FoundIsCode, KeysAreSetWhereListed};
ghost use Rattle.fx_machine_law.specs.Pkru.{PkruChangesByKeys};
ghost use Rattle.fx_machine_law.specs.Steps.{MoveIsStep};

/// A turn leaves the bytes whose pages refuse its writes.
pub fn move_keeps_byte()
    ensures { MoveKeepsByte }
{}

/// A turn that goes on made an access that nothing refuses, or none, and changed memory there alone.
pub fn accesses_are_permitted()
    ensures permitted { AccessesArePermitted }
    ensures changes { OnlyWritesChange }
{}

/// What a turn executes stands spelled in the code, in pages that its address space maps.
pub fn found_is_code()
    ensures { FoundIsCode }
{}

/// WRPKRU is executed only where a stub lists it.
pub fn keys_are_set_where_listed()
    ensures { KeysAreSetWhereListed }
{}

/// PKRU changes by WRPKRU alone.
pub fn pkru_changes_by_keys()
    ensures { PkruChangesByKeys }
{}

/// Where no device is touched, a turn is what a step of `fx_cpu` may do over the port of the vCPU's
/// address space, so the laws of steps hold of turns: a trap keeps registers and memory, and a step
/// makes one data access at most.
pub fn move_is_step()
    ensures { MoveIsStep }
{}
