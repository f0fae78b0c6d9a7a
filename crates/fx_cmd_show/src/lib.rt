//! The command `show IMAGE`, and the text of an image that it writes: a line for each part, which
//! begins with what the part is. The same image has the same text, so that two images can be
//! compared by their texts' lines. The form is this project's own.
#![tactic(auto)]

mod command;
pub mod failure;
mod lines;
mod show;
mod tables;
pub mod text;

pub use command::show_command;
pub use show::image_text;
