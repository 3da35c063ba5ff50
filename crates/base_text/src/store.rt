//! Stores and sinks with counted faults: the edge over which every file and output passes.

mod bound;
mod file_store;
mod memory_sink;
mod memory_store;
mod new_file;
mod numbers;
mod sink;
mod std_sink;
mod store;

pub use base_memory::Memory;
pub use file_store::FileStore;
pub use memory_sink::MemorySink;
pub use memory_store::MemoryStore;
pub use new_file::NewFile;
pub use numbers::number;
pub use sink::{PutFailed, Sink, SinkFailed, put_all};
pub use std_sink::StdSink;
pub use store::{FetchFault, Store, StoreFailed, fetch};
