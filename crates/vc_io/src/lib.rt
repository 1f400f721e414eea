//! Bytes in and out, with faults that are counted: a `Source` gives bytes, a `Sink` takes them, and
//! either answers `Failed` only where its count of faults rose.
//!
//! `read_all` and `write_all` move all bytes or say why not. `MemorySource` and `MemorySink` hold
//! their bytes in memory and fail at chosen calls. `ReaderSource` and `WriterSink` adapt
//! `std::io::Read` and `std::io::Write`. The words of the contracts stand in `specs/Bytes.antt`.
#![tactic(auto)]

mod memory_sink;
mod memory_source;
mod reader_source;
mod sink;
mod source;
mod writer_sink;

pub use base_types::Memory;
pub use memory_sink::MemorySink;
pub use memory_source::MemorySource;
pub use reader_source::ReaderSource;
pub use sink::{Sink, WriteFailed, write_all};
pub use source::{Failed, ReadAllFault, Source, read_all};
pub use writer_sink::WriterSink;
