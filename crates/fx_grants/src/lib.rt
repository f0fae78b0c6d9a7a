//! Grants: which compartment may read and write which object of a program, and why a configuration
//! is refused for one.
#![tactic(auto)]

mod building;
pub mod grants;
mod homes;
pub mod laws;
mod libraries;
mod refusals;
pub mod resolution;
mod rights;
pub mod sets;
#[cfg(test)]
mod tests;
pub mod uses;

pub use grants::{FunctionGrants, Grants, Pair, Place};
pub use resolution::{GrantError, merged, resolve};
