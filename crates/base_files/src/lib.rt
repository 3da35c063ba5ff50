//! Files of the system as a store and as sinks, each with the reason of its latest fault, in words for
//! whom it concerns: a store that reads each file once, a sink over a file that takes its name when it
//! is whole, and one over a writer.
#![tactic(auto)]

mod kept;
mod kept_store;
mod new_file;
mod part;
mod reason;
mod reasoned;
mod same_file;
mod writer_sink;

pub use kept::Kept;
pub use kept_store::KeptStore;
pub use new_file::NewFile;
pub use reason::Reason;
pub use reasoned::Reasoned;
pub use same_file::is_same_file;
pub use writer_sink::WriterSink;
