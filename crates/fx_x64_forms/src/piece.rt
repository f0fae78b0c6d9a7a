//! Pieces: instructions whose displacement the linker fills in.

use crate::inst::Inst;

/// What a piece's displacement is to reach.
#[derive(Clone, Copy, Debug, PartialEq, Eq)]
pub enum Target {
    /// The piece of this number in its own list.
    Label(u32),
    /// A function. In the runtime's pieces, where it is `main` or an entry function, the jump to it
    /// in the entry table of its compartment; everywhere else its first piece.
    Function(u32),
    /// The stub from compartment `n mod 16` to entry function `n / 16`.
    Stub(u32),
    /// The abort stub.
    Abort,
    /// The first instruction of the idle loop.
    Idle,
    /// The thread switch.
    Switch,
}

/// An instruction and, where its displacement is the linker's to fill in, what it is to reach.
#[derive(Clone, Copy, Debug, PartialEq, Eq)]
pub struct Piece {
    pub inst: Inst,
    pub target: Option<Target>,
}
