//! The steps of a run of the source on its state: what each does to memory, to the frames of the thread
//! that runs and to the other threads. A step that makes an operation on a device is made elsewhere.
//!
//! Each step is that of the meaning of the source (`fx_c_mean_model`), by the view of the state that `specs/`
//! has. Want of memory leaves that view as it was.
#![tactic(auto)]

pub mod accesses;
pub mod acts;
pub mod calls;
pub mod jumps;
pub mod source;
pub mod state;
pub mod steps;
mod tables;
pub mod threads;
pub mod uses;
