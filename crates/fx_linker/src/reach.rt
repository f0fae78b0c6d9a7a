//! What displacements lead to.

ghost use Rattle.std.specs.Prelude.{◌≡◌, ◌+◌, ◌-◌, ◌%◌, ◌^◌, IsTrue, MatchOption, option_copied, Option, Some, None, slice_index};
ghost use Rattle.fx_x64_code.specs.Spelling.{has_row};
ghost use Rattle.fx_linker.specs.Code.{is_stub_of, stub_piece, reached, displacement, with_displacement, linked};

use crate::entries::{home, number_at};
use crate::layout::place;
use crate::parts::Parts;
use fx_image::{List, Stub};
use fx_x64_forms::inst::Inst;
use fx_x64_forms::piece::{Piece, Target};

/// What the pieces of some code reach beside one another.
#[derive(Debug, Drop)]
pub struct Reach {
    /// By function, where `Function(f)` is.
    pub functions: List<u64>,
    /// By function, its number among the entries of its compartment.
    pub numbers: List<u32>,
    /// Where the runtime's pieces stand.
    pub runtime: List<u64>,
}

/// Whether a stub is the one from a compartment to an entry of another.
fn is_stub_of(from: u32, to: u8, entry: u32, stub: &Stub) -> bool
    ensures { result ≡ is_stub_of from to entry stub.now }
{
    u32::from(stub.from) == from && stub.to == to && u32::from(stub.entry) == entry % 65_536
}

/// The piece at which the stub from a compartment to an entry of another begins.
fn stub_piece(from: u32, to: u8, entry: u32, stubs: &[Stub]) -> u32
    ensures { result ≡ stub_piece from to entry stubs.now }
{
    for stub in stubs {
        if is_stub_of(from, to, entry, stub) {
            return stub.offset;
        }
    }
    0
}

/// Where a target is, in code whose pieces stand at the places `own`.
fn reached(parts: &Parts, to: &Reach, own: &[u64], target: Target) -> u64
    ensures { result ≡ reached parts.now to.now own.now target }
{
    let runtime = to.runtime.as_slice();
    match target {
        Target::Label(k) => place(own, k),
        Target::Function(f) => place(to.functions.as_slice(), f),
        Target::Stub(n) => {
            let f = (n / 16) as usize;
            let entry = number_at(to.numbers.as_slice(), f);
            let compartment = home(parts.spots.as_slice(), f);
            place(
                runtime,
                stub_piece(n % 16, compartment, entry, parts.map.stubs.as_slice()),
            )
        }
        Target::Abort => place(runtime, parts.map.abort),
        Target::Idle => place(runtime, parts.map.idle),
        Target::Switch => place(runtime, parts.map.switch),
    }
}

/// The displacement of 32 bits that leads from a place to another.
fn displacement(from: u64, to: u64) -> i32
    ensures { result ≡ displacement from to }
{
    let gap = to.wrapping_sub(from) % 0x1_0000_0000;
    (gap as u32).cast_signed()
}

/// An instruction with another displacement, where it is one that jumps.
fn with_displacement(inst: Inst, rel: i32) -> Inst
    ensures value { result ≡ with_displacement inst rel }
    ensures row { IsTrue (has_row inst) → IsTrue (has_row result) }
{
    match inst {
        Inst::Jcc { cond, .. } => Inst::Jcc { cond, rel },
        Inst::Jmp { .. } => Inst::Jmp { rel },
        Inst::Call { .. } => Inst::Call { rel },
        other => other,
    }
}

/// The instruction of a piece that ends at a place.
pub(crate) fn linked(parts: &Parts, to: &Reach, own: &[u64], end: u64, piece: &Piece) -> Inst
    ensures value { result ≡ linked parts.now to.now own.now end piece.now.inst piece.now.target }
    ensures row { IsTrue (has_row piece.now.inst) → IsTrue (has_row result) }
{
    match piece.target {
        None => piece.inst,
        Some(target) => {
            let rel = displacement(end, reached(parts, to, own, target));
            with_displacement(piece.inst, rel)
        }
    }
}
