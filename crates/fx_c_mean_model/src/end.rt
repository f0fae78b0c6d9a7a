//! How a run ends.

/// The end of a run.
#[derive(Clone, Copy, Debug, PartialEq, Eq)]
pub enum End {
    /// `main` returned; its value extended by its type to 64 bits, as a signed number.
    Exit(i64),
    /// The first access that its compartment is not granted. `object` is the object's number in memory:
    /// each call has objects of its own, so a local of one call is not that of another.
    Denied {
        compartment: u8,
        object: u32,
        offset: u64,
        write: bool,
    },
    /// A call whose frame does not fit. `stack` is the compartment's number where each has a stack of
    /// its own, and 0 elsewhere.
    StackFull {
        thread: u8,
        stack: u8,
    },
    /// A division by zero, or a quotient that does not fit its type.
    Divide,
    /// A switch to a number that is no live thread.
    BadThread,
    /// One more thread than a run can have.
    ThreadsFull,
    /// A step that the language gives no meaning.
    Undefined,
}
