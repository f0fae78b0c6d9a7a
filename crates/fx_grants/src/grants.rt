//! What a configuration grants in a program, as plain data, and the question that is asked of it.

use fx_config::{Bytes, Mechanism, Sequence};

/// Who may read and who may write: sets of compartments, in which bit c is compartment c.
#[derive(Clone, Copy, Debug, PartialEq, Eq, Hash)]
pub struct Pair {
    pub readers: u16,
    pub writers: u16,
}

/// A function's compartment, and which of its parameters and locals are shared, in order of
/// declaration.
#[derive(Drop)]
pub struct FunctionGrants {
    pub compartment: u8,
    pub shared: Sequence<bool>,
}

/// What a configuration grants in a program. Contracts see its lists as lists.
#[derive(Drop)]
pub struct Grants {
    pub mechanism: Mechanism,
    /// The pages of a stack.
    pub stack_pages: u8,
    /// The scheduler's compartment.
    pub scheduler: u8,
    /// How many compartments there are.
    pub compartments: u8,
    /// The compartment of each library.
    pub homes: Bytes,
    /// The readers and writers of each global.
    pub globals: Sequence<Pair>,
    /// Each function's compartment and shared locals.
    pub functions: Sequence<FunctionGrants>,
}

/// An object of a program.
#[derive(Clone, Copy, Debug, PartialEq, Eq)]
pub enum Place {
    Global(u32),
    Literal(u32),
    /// A parameter or a local of a function.
    Local { function: u32, local: u16 },
}
