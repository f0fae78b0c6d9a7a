//! Where a program's bytes come from and go to: files under names, a source of bytes and a sink, each a
//! trait whose contracts say what it holds and that a fault is answered only where its count of faults rose;
//! objects in memory that tell all they hold; and the operations of devices, with their transcript.
#![tactic(auto)]

mod device_op;
mod fault_plan;
mod files;
mod mem_files;
mod mem_sink;
mod mem_source;
mod sink;
mod source;
#[cfg(test)]
mod tests;
mod transcript;

pub use device_op::DeviceOp;
pub use files::{FileError, Files};
pub use mem_files::MemFiles;
pub use mem_sink::MemSink;
pub use mem_source::MemSource;
pub use sink::{Sink, SinkFailed, WriteFault, put_all};
pub use source::{Source, SourceFailed};
pub use transcript::Transcript;
