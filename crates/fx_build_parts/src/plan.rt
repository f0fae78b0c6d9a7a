//! What is known of a program before the code of its functions is made.

use fx_image::List;
use fx_linker::PartSpots;
use fx_match_rel::Addresses;

/// What the code of a program's functions is made with.
#[derive(Drop)]
pub struct Plan {
    pub at: Addresses,
    /// The functions in their compartments, none of which is placed yet.
    pub spots: PartSpots,
    /// The number of each function among the entries of its compartment.
    pub numbers: List<u32>,
}
