//! The command `exec CONF IMAGE`: builds the image of a configuration and its source, writes it, runs it, and
//! reports what it came to.
#![tactic(auto)]

pub mod build;
pub mod inputs;
pub mod report;
pub mod unbuilt;
