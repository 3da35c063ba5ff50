//! What a page says of a study.

use draw_shapes::Drawing;
use model_line::Kind;

/// What a page says of a study. Names and words are printable ASCII; ticks are of `tick_us`
/// microseconds, and the page gives them in milliseconds.
#[derive(Drop)]
pub struct Page {
    pub title: Vec<u8>,
    /// The scheme, as `POTT`.
    pub scheme: Vec<u8>,
    pub zone1_trip: bool,
    pub tick_us: u32,
    /// How many ticks are judged.
    pub horizon: u32,
    /// The names of the terminals, in line order.
    pub terminals: Vec<Vec<u8>>,
    pub counts: Counts,
    /// The least margin of all internal faults, where there is one.
    pub least: Option<LeastMargin>,
    /// Lines that say what the page leaves out, and why.
    pub notes: Vec<Vec<u8>>,
    pub faults: Vec<Fault>,
    pub failing: Vec<FailingChoice>,
    pub undecided: Vec<Undecided>,
    /// In line order; none where the margins were not worked out.
    pub times: Vec<Time>,
    /// The files that the call names, as they were read.
    pub sources: Vec<FileText>,
    /// The files that they come to, as they were judged.
    pub files: Vec<FileText>,
    /// Of what does not stand on the page, as the settled trees.
    pub digests: Vec<Digest>,
    /// The program, its version and the build that it is of, as `study --version` says them.
    pub made: Vec<u8>,
    /// The date that the call gives, if it gives one.
    pub date: Option<Vec<u8>>,
}

/// How many obligations are held, fail, fail for every choice, and are open: one for each script and
/// terminal.
#[derive(Clone, Copy)]
pub struct Counts {
    pub held: u32,
    pub fails: u32,
    pub every: u32,
    pub undecided: u32,
}

/// So many ticks are to spare, and where, as `near-east at west`.
#[derive(Drop)]
pub struct LeastMargin {
    pub ticks: u32,
    pub at: Vec<u8>,
}

/// How an obligation stands.
#[derive(Clone, Copy)]
pub enum Standing {
    /// Whatever fractions of a tick its times have.
    Held,
    Fails,
    Open,
}

/// By what an obligation was settled.
#[derive(Clone, Copy)]
pub enum Means {
    Rules,
    Candidate,
    Corner,
    Parts,
    Cases,
}

/// A fault and its scripts. A fault with nothing swept has one.
#[derive(Drop)]
pub struct Fault {
    pub name: Vec<u8>,
    pub kind: Kind,
    /// What is swept, as `lasts of stage 0`, in the order of a script's values.
    pub swept: Vec<Vec<u8>>,
    pub cases: Vec<Case>,
    /// One for each terminal, in line order.
    pub verdicts: Vec<Verdict>,
    /// Every choice of delays at once, of the script that does worst.
    pub bands: Drawing,
    /// That script's name.
    pub shown: Vec<u8>,
}

/// A script of a fault: its name, the values of what is swept in ticks, the tick of the fault and
/// the deadline. An external fault has none.
#[derive(Drop)]
pub struct Case {
    pub name: Vec<u8>,
    pub swept: Vec<u32>,
    pub inception: Option<u32>,
    pub deadline: Option<u32>,
}

/// How a fault's scripts stand at a terminal, which is named, one for each; and of the one that does worst there: by
/// what it was settled, and counted from the inception of its fault its deadline, the first tick at
/// which a choice may trip, and the first at which every choice has; and what an external fault has to spare there.
#[derive(Drop)]
pub struct Verdict {
    pub terminal: Vec<u8>,
    pub standings: Vec<Standing>,
    pub by: Means,
    pub deadline: Option<u32>,
    pub may: Option<u32>,
    pub must: Option<u32>,
    pub spare: Option<u32>,
}

/// A choice of delays that fails an obligation, whether every choice does, why it fails in lines of
/// text (its times count from the play's tick 0), the times that matter, the
/// times that stand at their declared least (all others stand in the middle of their intervals), where a
/// delay moves, and the play.
#[derive(Drop)]
pub struct FailingChoice {
    /// The fault by its number.
    pub fault: u32,
    /// The script's name; how many scripts of the fault fail there from it on, one after another, and the
    /// name of the last.
    pub script: Vec<u8>,
    pub scripts: u32,
    pub last: Vec<u8>,
    pub terminal: Vec<u8>,
    pub every: bool,
    pub why: Vec<u8>,
    pub told: Vec<ToldTime>,
    pub least: Vec<Vec<u8>>,
    pub steps: Vec<ToldStep>,
    pub play: Drawing,
}

/// A time in a choice, and its declared interval, in ticks.
#[derive(Drop)]
pub struct ToldTime {
    pub name: Vec<u8>,
    pub number: u32,
    pub low: u32,
    pub high: u32,
}

/// From this tick on a delay has this number.
#[derive(Drop)]
pub struct ToldStep {
    pub name: Vec<u8>,
    pub from: u32,
    pub number: u32,
}

/// An obligation that is open: the fault by its number, the script and the terminal by their names.
#[derive(Drop)]
pub struct Undecided {
    pub fault: u32,
    pub script: Vec<u8>,
    pub terminal: Vec<u8>,
}

/// A time, its declared interval in ticks, and how far its ends can be moved outward.
#[derive(Drop)]
pub struct Time {
    pub name: Vec<u8>,
    pub low: u32,
    pub high: u32,
    pub above: Slack,
    pub below: Slack,
}

/// By how many ticks an end can be moved, and what is lost first beyond, as `near-east at west`;
/// nothing where none is lost at any value.
#[derive(Drop)]
pub struct Slack {
    pub ticks: u32,
    pub lost: Option<Vec<u8>>,
}

/// A file, and its SHA-256 in 64 hex digits.
#[derive(Drop)]
pub struct FileText {
    pub name: Vec<u8>,
    pub text: Vec<u8>,
    pub sha256: Vec<u8>,
}

/// What it is of, and its SHA-256 in 64 hex digits.
#[derive(Drop)]
pub struct Digest {
    pub of: Vec<u8>,
    pub sha256: Vec<u8>,
}
