//! The machine does what pieces do, turn by turn, in any address space.
//!
//! Pieces that stand in an image's code (`Placed`, `Stand` in `specs/`: what a linker has to give) are
//! executed one a turn; their effect is the one that `fx_pieces` computes. The lemmas (in `proofs/`) are
//! made for the general law of `fx_outcomes`, in which a machine follows a source's steps: `leads` for
//! pieces that run, `tells` and `asks` for one that stores to a device's register or loads it, `ends`
//! for one that stops or whose access is refused, `passes` for one that writes the mark on which
//! another vCPU goes on. The form is this project's own.
#![tactic(auto)]

ghost use Rattle.fx_pieces_law.specs.Linked.{PieceTurns};

/// A piece that stands at RIP is done in one turn: its access, where nothing refuses it and no device
/// takes it, and the registers behind it; or its stop.
pub fn piece_turns()
    ensures { PieceTurns }
{}
