//! What the program reads and writes: files by name and a sink of bytes.
//!
//! `Files` and `Sink` say what every implementation keeps. Files have a transcript of their reads, with what each
//! handed out, and a count of write faults; a sink has a count of faults. Code that is generic over them can neither
//! add to a transcript nor raise a count by itself, so it can tell only of reads and faults that there were.
//! `MemFiles` and `MemSink` hold everything in memory and fail where they are told to; `DiskFiles` and `StdSink`
//! reach the real files and the standard output.
#![tactic(auto)]

mod calls;
mod disk_files;
mod files;
mod mem_files;
mod mem_sink;
mod sink;
mod std_sink;
mod streams;
mod transcript;

pub use disk_files::DiskFiles;
pub use files::{Files, ReadStop, WriteStop};
pub use mem_files::MemFiles;
pub use mem_sink::MemSink;
pub use sink::{Sink, SinkStop};
pub use std_sink::StdSink;
pub use transcript::Transcript;
