//! The outside: where text is written, and files are read and written.
#![tactic(auto)]

mod again;
mod calls;
mod counts;
mod mem_files;
mod mem_sink;
mod numbers;
mod real_files;
mod real_sink;
mod store;
mod text;
mod traits;
mod whole;

pub use mem_files::MemFiles;
pub use mem_sink::MemSink;
pub use real_files::RealFiles;
pub use real_sink::RealSink;
pub use traits::{Fault, Files, InId, OutId, Sink};
pub use whole::{Unfinished, read_file, write_all, write_file};
