//! The linker: from pieces to an image.
//!
//! Parts are lists of pieces, one for each compartment and one for the runtime. The linker places them in
//! whole pages one behind the other, fills in where each displacement leads, and adds what an image has
//! beside its code: sections, objects, literals, owners and starts. `linked_image` (in `specs/`) says which
//! image that is.
#![tactic(auto)]

mod code;
mod compartments;
mod entries;
pub mod error;
pub mod layout;
mod linking;
mod literals;
mod objects;
pub mod parts;
pub mod reach;
mod starts;
mod tables;

pub use entries::entry_numbers;
pub use error::LinkError;
pub use linking::link;
pub use parts::{PartSpot, PartSpots, Parts, Pieces, RangeList};
pub use tables::{entries_of, put_records, put_table};
