//! A fault whose times are not known, and what is asked of each terminal.

use model_borders::LooseScript;
use model_line::Kind;
use net_gates::Compiled;
use run_signal::Within;

/// What is asked of a terminal. Internal: it trips at the latest so many ticks `within` border `counted`.
/// External: it trips at no tick before the end.
#[derive(Clone, Copy)]
pub struct Asked {
    pub kind: Kind,
    pub counted: u32,
    pub within: u32,
    pub end: u32,
}

/// A line with its net and an interval for each parameter, a script whose borders are not known, and what is
/// asked.
#[derive(Clone, Copy)]
pub struct Fault<'a> {
    pub compiled: &'a Compiled<'a>,
    pub spans: &'a [Within],
    pub script: &'a LooseScript,
    pub asked: Asked,
}

/// What the interval rules say of a part: held at all its lengths, broken at all of them, or neither is known.
#[derive(Clone, Copy)]
pub enum PartRule {
    Held,
    Broken,
    Open,
}
