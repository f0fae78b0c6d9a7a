//! The command `run IMAGE`: reads the image and the schedule, runs it, and reports what it came to.
#![tactic(auto)]

pub mod command;
pub mod line;
pub mod load;
pub mod report;
pub mod verdict;
pub mod verdict_line;
