//! Faithful images: those whose every run keeps to the run of their source.
//!
//! `Faithful` (in `specs/`) is stated over any source that has its operations and its end, one of those of
//! `fx_c_mean_model`, within each cost, so it is the same statement for every way of building. Which stop of the
//! machine corresponds to which end, and how many rounds a unit of cost may take, are this project's
//! own.
#![tactic(auto)]

pub mod laws;
