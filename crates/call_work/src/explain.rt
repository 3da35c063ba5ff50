//! What `study explain` says: the timing that explains a record, change by change or as a timings
//! file, or that there is none, or that it is open.

mod answer;
mod asked;
mod explain;
mod fault;
mod fields;
mod pick;
mod unpicked;

pub use asked::Asked;
pub use explain::explain_said;
pub use fault::ExplainFault;
pub use unpicked::Unpicked;
