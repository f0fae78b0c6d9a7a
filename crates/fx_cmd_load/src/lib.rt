//! From the name of a configuration to a checked program: the files are read, parsed and checked in
//! the order of work.
#![tactic(auto)]

mod checking;
mod configured;
pub mod error;
mod loading;
pub mod named;
mod parsing;
pub mod program_error;
mod reading;

pub use checking::{Program, check_sources, load_configuration, load_program};
pub use error::LoadError;
pub use parsing::ParsedFile;
pub use program_error::ProgramError;
