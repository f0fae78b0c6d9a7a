//! Sections: which page, key and address each section, global and literal of a program has.
#![tactic(auto)]

mod initials;
mod layout;
mod pairs;
pub mod placement;
mod regions;
#[cfg(test)]
mod tests;

pub use pairs::sections_of_globals;
pub use placement::{PlaceError, PlacedSection, PlacedSections, Placement, Places, place};
