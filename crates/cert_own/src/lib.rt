//! The program's own certificates and texts of trees, and what a certificate says in words.
//!
//! - `piece`: a script's part of a certificate: the keys that show its verdicts, and the verdicts.
//! - `laws`, `split_laws`: what is certified of scripts is one list of claims, what is searched of
//!   them one list of results, and each as a text is accepted, with the counts of its verdicts.
//! - `headline_laws`: each verdict that stands in a whole line of a text that is accepted is true,
//!   a `yes` of every choice whose times are fractions of a tick.
#![tactic(auto)]

mod headline_laws;
mod known;
mod laws;
mod piece;
mod split_laws;

pub use headline_laws::{
    what_is_accepted_is_true, what_is_certified_is_true, what_is_matched_is_true,
};
pub use laws::{
    a_certificate_grows_by_parts, a_certificate_is_short, answers_are_certified,
    each_script_has_one_certificate, what_is_certified_is_accepted,
};
pub use piece::cert_piece;
pub use split_laws::{
    each_search_has_an_outcome, each_search_has_one_outcome, what_is_searched_grows_by_parts,
    what_is_searched_is_accepted,
};
