//! What the commands share: how they end, the lines of refusals and of files' faults, hexadecimal digits, and
//! the words of a run's options.
#![tactic(auto)]

pub mod ending;
pub mod hex;
pub mod kinds;
pub mod lines;
#[cfg(test)]
mod tests;
pub mod words;

pub use ending::{conclude, report_out_of_memory};
pub use hex::{put_digits, put_hex};
pub use lines::{
    config_refusal, file_fault, grants_refusal, parse_refusal, place_refusal, program_status,
    program_words, types_refusal,
};
