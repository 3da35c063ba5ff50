//! What a certificate claims.

use run_waves::waves::Runs;

/// A written verdict of an obligation, which is a script at a terminal: each choice of delays
/// inside the declared intervals meets it; it fails at these numbers, one for each parameter; or
/// neither is said.
#[derive(Drop)]
pub enum Claim {
    Yes,
    No(Vec<u32>),
    Undecided,
}

/// What is claimed of a script: a key wave of the horizon's length and a verdict for each terminal.
#[derive(Drop)]
pub struct ScriptClaims {
    pub keys: Vec<Runs>,
    pub verdicts: Vec<Claim>,
}
