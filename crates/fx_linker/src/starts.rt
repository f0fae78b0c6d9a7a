//! Where vCPUs start, and where stubs stand.

ghost use Rattle.std.specs.Prelude.{◌≡◌, ◌+◌, IfOk, map, slice_index, [], ◌∷◌};
ghost use Rattle.fx_linker.specs.Data.{first_pointer, start_compartment, starts_from, placed_stub};

use crate::compartments::narrow;
use crate::layout::place;
use fx_config::{Config, Mechanism};
use fx_image::{List, Start, Stub};
use fx_shadow::stacks::has_halves;
use std::alloc::{AllocError, Global};

/// Where the code's first byte stands.
const CODE: u64 = 0x40_0000;

/// Where a vCPU's stack begins its use in thread 0 of a compartment.
fn first_pointer(k: &Config, compartment: u64) -> Result<u64, AllocError>
    ensures { IfOk result (λ n. n ≡ first_pointer k.now compartment) }
{
    let size = 4096 * u64::from(k.stack_pages);
    let number = if has_halves(k.mechanism) {
        compartment
    } else {
        0
    };
    match number.checked_mul(2 * size + 0x2000) {
        Some(behind) => match behind.checked_add(0x2000_1000 + size) {
            Some(end) => Ok(end - 32),
            None => Err(AllocError),
        },
        None => Err(AllocError),
    }
}

/// The compartment in which a vCPU starts.
fn start_compartment(mechanism: Mechanism, home: u8, vcpu: usize) -> u64
    ensures { result ≡ start_compartment mechanism home vcpu }
{
    match mechanism {
        Mechanism::Call | Mechanism::Light | Mechanism::Full => u64::from(home),
        Mechanism::Ept => vcpu as u64,
    }
}

fn start(
    k: &Config,
    home: u8,
    runtime: &[u64],
    vcpu: usize,
    piece: u32,
) -> Result<Start, AllocError>
    ensures { IfOk result (λ s. starts_from k.now home runtime.now vcpu (piece ∷ []) ≡ s ∷ []) }
{
    let at = narrow(place(runtime, piece))?;
    Ok(Start {
        rip: narrow(CODE + u64::from(at))?,
        rsp: first_pointer(k, start_compartment(k.mechanism, home, vcpu))?,
    })
}

/// Where the vCPUs start, at these pieces of the runtime.
pub(crate) fn starts(
    alloc: Global,
    k: &Config,
    home: u8,
    runtime: &[u64],
    pieces: &[u32],
) -> Result<List<Start>, AllocError>
    ensures { IfOk result (λ v. v ≡ starts_from k.now home runtime.now 0 pieces.now) }
{
    let mut found = Vec::new(alloc);
    for (vcpu, piece) in pieces.iter().enumerate() {
        found.push(start(k, home, runtime, vcpu, *piece)?)?;
    }
    Ok(List::from_vec(found))
}

fn placed_stub(runtime: &[u64], stub: &Stub) -> Result<Stub, AllocError>
    ensures { IfOk result (λ s. s ≡ placed_stub runtime.now stub.now) }
{
    Ok(Stub {
        from: stub.from,
        to: stub.to,
        entry: stub.entry,
        offset: narrow(place(runtime, stub.offset))?,
        first: narrow(place(runtime, stub.first))?,
        second: narrow(place(runtime, stub.second))?,
    })
}

/// The stubs with offsets in place of numbers of pieces.
pub(crate) fn placed_stubs(
    alloc: Global,
    runtime: &[u64],
    stubs: &[Stub],
) -> Result<List<Stub>, AllocError>
    ensures { IfOk result (λ v. v ≡ map (placed_stub runtime.now) stubs.now) }
{
    let mut found = Vec::new(alloc);
    for stub in stubs {
        found.push(placed_stub(runtime, stub)?)?;
    }
    Ok(List::from_vec(found))
}
