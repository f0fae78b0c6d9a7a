//! The command `build CONF IMAGE`: the image of a configuration and its sources, and its file.
#![tactic(auto)]

pub mod building;
mod command;
pub mod failure;
mod loading;
mod writing;

pub use building::{Unbuilt, image_of};
pub use command::{build_command, perform, report_failure};
pub use failure::BuildFailure;
