//! What every crate of xpcall stands on: lists that contracts see as lists, the one answer for want
//! of memory, and the traits by which files are fetched and texts are written, with their memory
//! objects and adapters.
#![tactic(auto)]

mod adapters;
mod byte_list;
mod errors;
mod kinds;
mod limits;
mod memory_sinks;
mod memory_sources;
mod named_file;
mod numbers;
mod run_faults;
mod sinks;
mod sources;
mod value_list;

pub use adapters::{FileSource, StderrSink, StdoutSink, StreamSink};
pub use byte_list::Bytes;
pub use errors::Memory;
pub use kinds::{ConstKind, Dir};
pub use limits::{MAX_TEXT, MAX_TYPELIB};
pub use memory_sinks::{CalmSink, MemSink};
pub use memory_sources::{CalmSource, MemSource};
pub use named_file::NamedFile;
pub use numbers::{dec_read, dec_text, hex_fixed, hex_read, hex_text};
pub use run_faults::RunFault;
pub use sinks::{Sink, SinkError, put_all};
pub use sources::{Fetched, Source, SourceError};
pub use value_list::List;
