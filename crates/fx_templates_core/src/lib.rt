//! Machine code of single ops, for operands that stand as the frame has them: the latest pending one in
//! RAX, each other one in its slot.
#![tactic(auto)]

pub mod calls;
pub mod constants;
pub mod copying;
pub mod cores;
pub mod functions;
pub mod memory;
pub mod operands;
pub mod pointers;
pub mod put;
pub mod slots;
