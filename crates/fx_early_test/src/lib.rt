//! What the first source form and its image are, by hand.
#![tactic(auto)]

#[cfg(test)]
mod images;
#[cfg(test)]
mod sources;
