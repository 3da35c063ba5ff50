//! The text of a certificate, both ways: what it says of scripts, and the first line that leaves
//! its grammar.

mod claim;
mod ends;
mod laws;
mod numbers;
mod print;
mod read;
mod ticks;
mod words;

pub use claim::{Claim, ScriptClaims};
pub use ends::{CERT_END, CERT_HEAD, a_certificate_is_its_parts};
pub use laws::{
    a_text_has_one_meaning, a_text_leaves_at_one_line, certificates_can_be_written,
    claims_have_one_text, printed_claims_are_a_certificate,
};
pub use print::{push_named, push_no, push_part, push_start};
pub use read::{name_at, read_certificate};
pub use ticks::numbers_of;
pub use words::read_no;
