//! Where the parts of an image's runtime stand among its pieces, before a linker gives them addresses.
#![tactic(auto)]

use fx_image::{Bytes, List, Offsets, StubList};

/// The first bytes of each compartment's table `.rt.C` at boot, in the order of the compartments.
pub type Initials = List<Bytes>;

/// The places of the runtime's parts, as numbers of pieces of the runtime's list, and what the
/// compartments' tables hold at boot.
#[derive(Debug, Drop)]
pub struct RuntimeMap {
    /// The stubs, whose three places are numbers of pieces.
    pub stubs: StubList,
    /// Where the abort stub begins.
    pub abort: u32,
    /// Where the idle loop begins; 0 where there is none.
    pub idle: u32,
    /// Where the thread switch begins.
    pub switch: u32,
    /// Where each vCPU starts.
    pub starts: Offsets,
    pub initials: Initials,
}
