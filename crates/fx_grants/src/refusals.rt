//! What functions use that a configuration does not grant them.

ghost use Rattle.std.specs.Prelude.{◌≡◌, ◌<◌, ◌≤◌, ◌^◌, IfOk, length, slice_get, bytes_eq};
ghost use Rattle.std.specs.List.{list_any};
ghost use Rattle.fx_grants.specs.Refusals.{function_uses, first_some, foreign, foreign_device, not_owned, calls_have, is_granted, leads_to, is_refused_gate, holds_refused_gate, not_granted, is_thread, schedules_outside, not_scheduler};

use crate::homes::{home_at, owner_of};
use crate::uses::{Use, statements_uses};
use fx_c_ast::checked::{TFunction, TProgram};
use fx_config::{Config, Name, Names};
use std::alloc::{AllocError, Global};

fn function_uses(alloc: Global, f: &TFunction) -> Result<Vec<Use>, AllocError>
    ensures { IfOk result (λ v. v.items ≡ function_uses f.now) }
{
    let mut out = Vec::new(alloc);
    statements_uses(&mut out, &f.body)?;
    Ok(out)
}

// The device of an operation that the compartment does not own.
fn foreign(c: &Config, home: u8, one: Use) -> Option<u16>
    requires { length c.now.compartments ≤ 16 }
    ensures { result ≡ foreign c.now home one }
{
    match one {
        Use::Device(device) => {
            if owner_of(c, device) == home {
                None
            } else {
                Some(device)
            }
        }
        Use::Gate(_) | Use::Thread => None,
    }
}

fn first_foreign(c: &Config, home: u8, uses: &[Use]) -> Option<u16>
    requires { length c.now.compartments ≤ 16 }
    ensures { result ≡ first_some (foreign c.now home) uses.now }
{
    for one in uses {
        if let Some(device) = foreign(c, home, *one) {
            return Some(device);
        }
    }
    None
}

// The device of a function's first operation that its compartment does not own.
fn foreign_device(
    alloc: Global,
    c: &Config,
    homes: &[u8],
    f: &TFunction,
) -> Result<Option<u16>, AllocError>
    requires { length c.now.compartments ≤ 16 }
    ensures { IfOk result (λ r. r ≡ foreign_device c.now homes.now f.now) }
{
    let uses = function_uses(alloc, f)?;
    Ok(first_foreign(c, home_at(homes, f.library), &uses))
}

/// The device of the first operation that its compartment does not own.
pub fn not_owned(
    alloc: Global,
    p: &TProgram,
    c: &Config,
    homes: &[u8],
) -> Result<Option<u16>, AllocError>
    requires { length c.now.compartments ≤ 16 }
    ensures { IfOk result (λ r. r ≡ not_owned p.now c.now homes.now) }
{
    for f in p.functions.as_slice() {
        if let Some(device) = foreign_device(alloc, c, homes, f)? {
            return Ok(Some(device));
        }
    }
    Ok(None)
}

fn names_have(names: &[Name], name: &[u8]) -> bool
    ensures { result ≡ list_any (λ call. bytes_eq call name.now) names.now }
{
    names.iter().any(|call| call.as_bytes() == name)
}

fn calls_have(calls: &Option<Names>, name: &[u8]) -> bool
    ensures { result ≡ calls_have calls.now name.now }
{
    match calls {
        Some(names) => names_have(names.as_slice(), name),
        None => true,
    }
}

fn is_granted(c: &Config, home: u8, name: &[u8]) -> bool
    ensures { result ≡ is_granted (slice_get c.now.compartments home) name.now }
{
    match c.compartments.as_slice().get(home as usize) {
        Some(compartment) => calls_have(&compartment.calls, name),
        None => true,
    }
}

// Whether a gate from this compartment to this function is one that its calls do not name.
fn leads_to(p: &TProgram, c: &Config, homes: &[u8], home: u8, f: u32) -> bool
    ensures { result ≡ leads_to c.now homes.now home (slice_get p.now.functions f) }
{
    match p.functions.as_slice().get(f as usize) {
        Some(target) => {
            let other = home_at(homes, target.library) != home;
            other & !is_granted(c, home, target.name.as_slice())
        }
        None => false,
    }
}

fn is_refused_gate(p: &TProgram, c: &Config, homes: &[u8], home: u8, one: Use) -> bool
    ensures { result ≡ is_refused_gate p.now c.now homes.now home one }
{
    match one {
        Use::Gate(f) => leads_to(p, c, homes, home, f),
        Use::Device(_) | Use::Thread => false,
    }
}

fn has_refused_gate(p: &TProgram, c: &Config, homes: &[u8], home: u8, uses: &[Use]) -> bool
    ensures { result ≡ list_any (is_refused_gate p.now c.now homes.now home) uses.now }
{
    uses.iter()
        .any(|one| is_refused_gate(p, c, homes, home, *one))
}

fn holds_refused_gate(
    alloc: Global,
    p: &TProgram,
    c: &Config,
    homes: &[u8],
    f: &TFunction,
) -> Result<bool, AllocError>
    ensures { IfOk result (λ b. b ≡ holds_refused_gate p.now c.now homes.now f.now) }
{
    let uses = function_uses(alloc, f)?;
    Ok(has_refused_gate(p, c, homes, home_at(homes, f.library), &uses))
}

/// The first function with a gate that the calls of its compartment do not name.
pub fn not_granted(
    alloc: Global,
    p: &TProgram,
    c: &Config,
    homes: &[u8],
) -> Result<Option<u32>, AllocError>
    requires { length p.now.functions < 2 ^ 32 }
    ensures { IfOk result (λ r. r ≡ not_granted p.now c.now homes.now) }
{
    let mut number: u32 = 0;
    for f in p.functions.as_slice() {
        let refused = holds_refused_gate(alloc, p, c, homes, f)?;
        if refused {
            return Ok(Some(number));
        }
        number += 1;
    }
    Ok(None)
}

fn is_thread(one: Use) -> bool
    ensures { result ≡ is_thread one }
{
    match one {
        Use::Thread => true,
        Use::Device(_) | Use::Gate(_) => false,
    }
}

fn has_thread(uses: &[Use]) -> bool
    ensures { result ≡ list_any is_thread uses.now }
{
    uses.iter().any(|one| is_thread(*one))
}

fn schedules_outside(
    alloc: Global,
    c: &Config,
    homes: &[u8],
    f: &TFunction,
) -> Result<bool, AllocError>
    ensures { IfOk result (λ b. b ≡ schedules_outside c.now homes.now f.now) }
{
    let uses = function_uses(alloc, f)?;
    let outside = home_at(homes, f.library) != c.scheduler;
    Ok(outside & has_thread(&uses))
}

/// The first function outside the scheduler's compartment with an operation of the scheduler.
pub fn not_scheduler(
    alloc: Global,
    p: &TProgram,
    c: &Config,
    homes: &[u8],
) -> Result<Option<u32>, AllocError>
    requires { length p.now.functions < 2 ^ 32 }
    ensures { IfOk result (λ r. r ≡ not_scheduler p.now c.now homes.now) }
{
    let mut number: u32 = 0;
    for f in p.functions.as_slice() {
        let outside = schedules_outside(alloc, c, homes, f)?;
        if outside {
            return Ok(Some(number));
        }
        number += 1;
    }
    Ok(None)
}
