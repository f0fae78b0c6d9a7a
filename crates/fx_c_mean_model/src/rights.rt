//! What a configuration grants, as a run of the source looks at it.

use fx_c_ast::sequence::Sequence;

/// The rights of a program's compartments.
///
/// A set of compartments is a number whose bit c, of value 2^c, tells of compartment c, from 0 to 15.
#[derive(Debug, Drop)]
pub struct Rights {
    /// The compartment of each library.
    pub homes: Sequence<u8>,
    /// The compartments that may read each global.
    pub readers: Sequence<u16>,
    /// The compartments that may write each global.
    pub writers: Sequence<u16>,
    /// Whether accesses are checked: under every mechanism but plain calls.
    pub guarded: bool,
    /// Whether each compartment has a stack of its own for each thread, which keeps its unshared
    /// locals from the others.
    pub own_stacks: bool,
    /// The pages of a stack, of 4,096 bytes each: 1 to 64.
    pub stack_pages: u8,
}
