//! The outside: files, what is read and what is written.
#![tactic(auto)]

mod answers;
mod call;
mod fault;
mod files;
mod fill;
mod host_files;
mod mem_files;
mod mem_stream;
mod name;
mod stream;
mod stream_adapters;
mod whole;

pub use call::Call;
pub use fault::{Failed, FileFault, IoFault};
pub use files::Files;
pub use host_files::HostFiles;
pub use mem_files::MemFiles;
pub use mem_stream::{MemSink, MemSource};
pub use stream::{Sink, Source};
pub use stream_adapters::{StreamSink, StreamSource};
pub use whole::{read_file, write_file};
