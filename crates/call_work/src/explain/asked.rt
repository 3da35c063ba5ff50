//! What is asked.

use call_ask::ExplainForm;
use model_line::Script;
use net_gates::Compiled;

/// A line with its net and scripts, and the bytes of a record file.
#[derive(Clone, Copy)]
pub struct Asked<'a> {
    pub compiled: Compiled<'a>,
    pub scripts: &'a [Script],
    pub record: &'a [u8],
    /// The number of the script whose record is asked about, if one is named.
    pub script: Option<u32>,
    /// How many ticks apart a change and its play may be.
    pub within: u32,
    /// After so many analyses of boxes and timings it is left open.
    pub analyses: u32,
    pub form: ExplainForm,
}
