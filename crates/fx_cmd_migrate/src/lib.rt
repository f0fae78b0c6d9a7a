//! The command `migrate OLD NEW`: reads an image of any version that is read, and writes it in the
//! version that is written today.
#![tactic(auto)]

mod command;
pub mod failure;
mod rewriting;

pub use command::migrate_command;
