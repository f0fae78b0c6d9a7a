//! Runs an image on the machine, until it stops or a budget of turns is spent, with input, output and
//! devices.
#![tactic(auto)]

pub mod run;
pub mod step;
pub mod watch;

use fx_base::Transcript;
pub use fx_machine_model::outcome::Outcome;

/// How a run ended, after how many turns, and the operations that it made.
#[derive(Drop)]
pub struct Ended {
    pub outcome: Outcome,
    pub turns: u64,
    pub transcript: Transcript,
}
