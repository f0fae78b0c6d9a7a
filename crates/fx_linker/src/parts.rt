//! What the linker is given.

use fx_image::{EntryRecs, List};
use fx_image_runtime::RuntimeMap;
use fx_x64_forms::piece::Piece;

/// Pieces that follow one another.
pub type Pieces = List<Piece>;

/// The pieces of each compartment.
pub type RangeList = List<Pieces>;

/// Where a function begins.
#[derive(Clone, Copy, Debug, PartialEq, Eq)]
pub struct PartSpot {
    pub compartment: u8,
    /// The number of its first piece among the compartment's.
    pub piece: u32,
}

/// Where the functions begin, by their numbers.
pub type PartSpots = List<PartSpot>;

/// The parts of an image's code. Each compartment's pieces begin with its entry table: entry i is the jump
/// at 16 * i.
#[derive(Debug, Drop)]
pub struct Parts {
    pub ranges: RangeList,
    pub spots: PartSpots,
    /// The runtime's pieces.
    pub runtime: Pieces,
    /// Where the runtime's parts stand among its pieces.
    pub map: RuntimeMap,
    pub entries: EntryRecs,
}
