//! What the rights of compartments change of a run, and that they say what a configuration grants.
//!
//! A step looks at rights to refuse an access or a call, and to mark which callers wait for a gate between
//! compartments. So two compartments' programs do the same under any rights until one is refused; and where
//! all libraries are merged into one compartment a run makes all operations that it makes under others.
#![tactic(auto)]

pub mod laws;
