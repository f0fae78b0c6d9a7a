//! What a turn answers, and why the machine stops.

use fx_vm_pages::access::{Access, Refusal};

/// Why the machine stopped. HLT stops it by RAX: 0 is `Exit`, 1 `StackFull`, 2 `BadThread`, 3
/// `ThreadsFull`, any other `Aborted`; the other stops are the traps of the same names.
#[derive(Clone, Copy, Debug, PartialEq, Eq)]
pub enum Stop {
    /// The program is done, with RDI as its value.
    Exit(i64),
    /// An access was refused.
    Page {
        vcpu: u8,
        /// Who acted: under protection keys the compartment whose PKRU value is held, where each
        /// compartment is a virtual machine that machine's number, and 255 otherwise.
        domain: u8,
        /// The first refused byte.
        address: u64,
        access: Access,
        refusal: Refusal,
    },
    /// Fifteen bytes spell no instruction.
    Invalid,
    /// WRPKRU or RDPKRU found a register not 0.
    Protection,
    /// A division by zero, or a quotient that doesn't fit.
    Divide,
    /// A stack is full: RDI and RSI.
    StackFull {
        thread: u64,
        stack: u64,
    },
    /// A switch to a thread that isn't live.
    BadThread,
    /// A thread too many was made.
    ThreadsFull,
    /// A gate found what no caller may do.
    Aborted,
}

/// What one turn did.
#[derive(Clone, Copy, Debug, PartialEq, Eq)]
pub enum Turn {
    /// One instruction was executed.
    Went,
    /// The machine has stopped, now or before.
    Stopped(Stop),
    /// The instruction's operation on this device failed; nothing else changed.
    DeviceFault(u16),
    /// The instruction loads the console's register 0, and waits for the answer; nothing changed.
    Input,
    /// The instruction stored to the console's register 0: the value's lowest byte.
    Output(u8),
    /// There was no memory for the transcript; nothing changed.
    OutOfMemory,
}
