//! Gates as plain calls, and the runtime of images that have them: the start, the thread switch and
//! the abort stub.
#![tactic(auto)]

pub mod gates;
pub mod runtime;
pub mod threads;

pub use gates::emit_gate;
pub use runtime::emit_runtime;
