//! What the tools take from outside and put outside: files and sinks.
#![tactic(auto)]

mod failing_calls;
mod files;
mod memory_files;
mod memory_sink;
mod real_files;
mod real_sink;
mod sink;

pub use files::{Files, LoadFault};
pub use memory_files::{MemoryFile, MemoryFiles};
pub use memory_sink::MemorySink;
pub use real_files::RealFiles;
pub use real_sink::RealSink;
pub use sink::{Sink, SinkFault};
