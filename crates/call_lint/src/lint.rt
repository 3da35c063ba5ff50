//! What is suspicious in files that are accepted, and where and why a file is refused, as text: the
//! latter is one line of `call_refused`.
//!
//! - `line`, `study`: over a line file and its scripts, and over a study; `accepted`: over both, once
//!   they are read; `line_file`, `scripts_file`: over a line alone, and over scripts of a line.
//! - `listed`: what a list of warnings comes to.
//! - `exact`: the times as the files write them, in microseconds; `owners`: whose they are.
//! - `warned`: the text of warnings; `subject`: what they are about, and where it stands.

mod accepted;
mod exact;
mod line;
mod line_file;
mod linted;
mod listed;
mod owners;
mod scripts_file;
mod sheet;
mod study;
mod subject;
mod warned;
mod words;

pub use line::lint_line;
pub use line_file::lint_line_file;
pub use linted::{Linted, Outcome};
pub use scripts_file::lint_scripts_file;
pub use sheet::Names;
pub use study::{lint_study, lint_study_file};
