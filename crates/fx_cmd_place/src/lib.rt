//! The command `place CONF`: the placement of a checked program, its table, and the report.
#![tactic(auto)]

mod command;
pub mod failure;
mod lines;
pub mod placing;
mod report;
pub mod table;

pub use placing::{Unplaced, put_placement};
pub use report::place_command;
pub use table::place_table;
