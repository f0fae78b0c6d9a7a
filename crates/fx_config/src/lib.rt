//! The configuration document: which mechanism separates which compartments, of which libraries.
//!
//! The document's fields and rules are this project's own; its syntax is TOML 1.1, as the crate
//! `toml` defines it. `read` takes the bytes of a document to a `Config` or to the first refusal.
#![tactic(auto)]

mod compartment_table;
pub mod configuration;
mod fields;
mod library_table;
pub mod lists;
mod names;
mod places;
mod reading;
mod top_table;

pub use configuration::{
    Compartment, Compartments, Config, ConfigError, FileNames, Libraries, Library, Mechanism, Names,
};
pub use lists::{Bytes, FileName, Name, Sequence};
pub use reading::read;
