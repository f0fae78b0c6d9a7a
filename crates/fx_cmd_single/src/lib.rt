//! The command `single CONF`: the program of a configuration run by the meaning of the source.
#![tactic(auto)]

mod command;
mod line;
pub mod outcome;
mod report;
pub mod run;
pub mod step;
pub mod verdict;
pub mod words;

use fx_base::Transcript;
pub use outcome::Outcome;
pub use report::single_command;

/// How a run ended, the cost of the steps that it made, and the operations that it made.
#[derive(Drop)]
pub struct Ran {
    pub outcome: Outcome,
    /// It stays at 2^64 - 1 once it is there.
    pub cost: u64,
    pub transcript: Transcript,
}
