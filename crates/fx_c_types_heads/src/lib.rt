//! Heads of declarations: names, types as they are written with their sizes, and the rules on each
//! head in their order.
#![tactic(auto)]

pub mod copies;
pub mod declare;
pub mod heads;
pub mod names;
pub mod sizes;
pub mod written;
