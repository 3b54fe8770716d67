//! The outside: what the program is handed to read from and to write to.

mod files;
mod memory;
mod sink;

pub use files::{FileFault, Files};
pub use memory::{MemoryFile, MemoryFiles, MemorySink};
pub use sink::{Sink, SinkFailed};
