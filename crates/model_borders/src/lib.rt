//! Faults whose times are not known to a tick, and what is shown, sent and tripped so many ticks later.
//!
//! - `script`, `borders`, `scripts`: a script whose borders are sums of lengths that are intervals, and the
//!   two scripts between which whatever it shows lies: what is shown for certain, and what perhaps. Any of its
//!   borders may be the one that stands still.
//! - `least`: what it shows where each length is at its least, tick by tick.
//! - `between_laws`: whatever such a script shows, at lengths in fractions of a tick too, lies between the two.
//! - `shift_laws`: where all that is shown comes some ticks later, all keys and trips do.
#![tactic(auto)]

pub mod between_laws;
mod borders;
mod least;
mod script;
mod scripts;
pub mod shift_laws;

pub use borders::{earliest_at, earliest_place, latest_at, latest_place};
pub use least::{least_place, least_shown};
pub use script::{Border, LooseScript, LooseSpan};
pub use scripts::{TwoScripts, two_scripts};
