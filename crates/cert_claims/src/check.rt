//! The checker of certificates: what a claim must satisfy, by the waves that are derived from it.

mod claim;
mod counts;
mod cover;
mod fault;
mod held;
mod inside;
mod laws;
mod met;
mod no;
mod refutation;
mod script_check;
mod whole;

pub use crate::text::{Claim, ScriptClaims};
pub use claim::{ClaimFault, Uncovered};
pub use counts::Counts;
pub use fault::CheckFault;
pub use inside::first_outside;
pub use laws::{
    a_certificate_has_one_first_fault, a_fault_refuses_the_certificate, a_fault_refuses_the_claims,
    a_no_has_one_fault, claims_have_one_first_fault,
};
pub use met::met_tick;
pub use no::{NoFault, check_no};
pub use script_check::check_claims;
pub use whole::check;
