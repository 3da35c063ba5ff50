//! What a warning is about, and where it stands.

ghost use Rattle.std.specs.Prelude.{◌≡◌, ◌≤◌, IfOk, IfSome, length};

use crate::lint::owners::{parted, place_of_owner};
use crate::lint::sheet::{Sheet, fault_of, swept_fault};
use crate::warnings::{SweptTime, Warning};
use base_text::pieces::{push_pieces, text_of};
use call_refused::places::{joint, place_of_key, place_of_record, place_of_table};
use call_refused::told::place_of_item;
use itoa::Buffer;
use model_line::{Line, Memory, Script, element_word, name_of_parameter, name_of_terminal};
use std::alloc::Global;

/// Where something stands: in the file of this name, whose bytes these are, at this byte.
#[derive(Clone, Copy)]
pub struct Spot<'a> {
    pub name: &'a str,
    pub bytes: &'a [u8],
    pub at: usize,
    pub ghost within: { at ≤ length bytes.now },
}

/// What a warning is about.
#[derive(Clone, Copy)]
pub enum Subject<'a> {
    /// A terminal or a channel of this name, or what it has at this key, as `z1.pickup`.
    Owner(&'a [u8], &'a [u8]),
    /// The script of this number, or what it shows at the terminal of this name.
    Script(usize, &'a [u8]),
    /// A time of the fault of this number and this name.
    Sweep(usize, SweptTime, &'a [u8]),
}

/// What the warning is about.
pub fn subject_of<'a>(sheet: Sheet<'a>, line: &'a Line, warning: Warning) -> Subject<'a> {
    match warning {
        Warning::BelowTick(i)
        | Warning::Rounded(i)
        | Warning::PastHorizon(i)
        | Warning::ReachesHorizon(i)
        | Warning::Wide(i)
        | Warning::FixedDelay(i) => {
            let (owner, key) = parted(name_of_parameter(line, i));
            Subject::Owner(owner, key)
        }
        Warning::Unguarded(k) | Warning::Unechoed(k) => {
            Subject::Owner(name_of_terminal(line, k), b"")
        }
        Warning::Untimed(place) => Subject::Owner(
            name_of_terminal(line, place.terminal),
            element_word(place.element),
        ),
        Warning::NothingChanges(s) | Warning::DueFirst(s) => Subject::Script(s, b""),
        Warning::NoCurrent(s, k) => Subject::Script(s, name_of_terminal(line, k)),
        Warning::Coarse(i, time) => Subject::Sweep(i, time, name_of_fault(sheet, i)),
    }
}

/// The name of it behind a colon, in pieces.
pub fn name_of<'a>(scripts: &'a [Script], subject: Subject<'a>) -> [&'a [u8]; 4] {
    match subject {
        Subject::Owner(name, key) => [b": ", name, joint(b".", key), key],
        Subject::Script(s, terminal) => [
            b": ",
            name_of_script(scripts, s),
            joint(b" at ", terminal),
            terminal,
        ],
        Subject::Sweep(_, time, name) => [b": ", name, b".", key_of_time(time)],
    }
}

fn name_of_fault(sheet: Sheet<'_>, i: usize) -> &[u8] {
    match swept_fault(sheet, i) {
        Some(fault) => fault.name.bytes(),
        None => b"",
    }
}

// The key of a swept time.
fn key_of_time<'a>(time: SweptTime) -> &'a [u8] {
    match time {
        SweptTime::Start => b"start",
        SweptTime::TripWithin => b"trip_within",
        SweptTime::Lasts(_) => b"lasts",
    }
}

fn name_of_script(scripts: &[Script], s: usize) -> &[u8] {
    match scripts.get(s) {
        Some(script) => script.name.bytes(),
        None => b"",
    }
}

/// Where it stands: the line of its name, or of the table or key that it has there.
pub fn spot_of<'a>(
    alloc: Global,
    sheet: Sheet<'a>,
    line: &Line,
    scripts: &[Script],
    subject: Subject<'_>,
) -> Result<Spot<'a>, Memory> {
    let (name, bytes) = match (sheet, subject) {
        (Sheet::Study { name, bytes, .. }, _) => (name, bytes),
        (Sheet::Files { names, line, .. }, Subject::Owner(_, _)) => (names.line, line),
        (Sheet::Files { names, scripts, .. }, _) => (names.scripts, scripts),
    };
    Ok(Spot {
        name,
        bytes,
        at: place_in(alloc, bytes, sheet, line, scripts, subject)?,
    })
}

// The number of the record that is the script's head: the header is 1, and each script has its head
// and a record for each span.
fn head_of(scripts: &[Script], s: usize) -> u32 {
    let mut number: usize = 2;
    for script in &scripts[..s.min(scripts.len())] {
        number = number.saturating_add(script.spans.len()).saturating_add(1);
    }
    u32::try_from(number).unwrap_or(u32::MAX)
}

// Where it stands in the bytes of its file.
fn place_in(
    alloc: Global,
    bytes: &[u8],
    sheet: Sheet<'_>,
    line: &Line,
    scripts: &[Script],
    subject: Subject<'_>,
) -> Result<usize, Memory>
    ensures { IfOk result (λ at. at ≤ length bytes.now) }
{
    match (sheet, subject) {
        (Sheet::Study { .. }, Subject::Owner(name, key)) => {
            let (kind, _) = place_of_owner(line, name);
            place_of_setting(alloc, bytes, kind.as_bytes(), name, key)
        }
        (Sheet::Study { faults, .. }, Subject::Script(s, _)) => {
            place_of_item(alloc, bytes, b"fault", fault_of(faults, s), b"name")
        }
        (_, Subject::Sweep(i, time, _)) => place_of_sweep(alloc, bytes, i, time),
        (Sheet::Files { .. }, Subject::Owner(name, key)) => {
            let (kind, number) = place_of_owner(line, name);
            let key = if key.is_empty() { b"name" } else { key };
            place_of_item(alloc, bytes, kind.as_bytes(), number, key)
        }
        (Sheet::Files { .. }, Subject::Script(s, _)) => {
            place_of_record(alloc, bytes, head_of(scripts, s))
        }
    }
}

// Where a swept time of a fault stands: of a stage in its table, or in that of the fault.
fn place_of_sweep(alloc: Global, bytes: &[u8], i: usize, time: SweptTime) -> Result<usize, Memory>
    ensures { IfOk result (λ at. at ≤ length bytes.now) }
{
    if let SweptTime::Lasts(s) = time {
        let own = path_in_stage(alloc, i, s)?;
        if let Some(place) = place_of_table(alloc, bytes, &own)? {
            return Ok(place);
        }
    }
    place_of_item(alloc, bytes, b"fault", i, key_of_time(time))
}

// The path of how long a stage lasts, in the table of the stage.
fn path_in_stage(alloc: Global, i: usize, s: usize) -> Result<Vec<u8>, Memory> {
    let mut path = Vec::new(alloc);
    push_numbered(&mut path, b"fault[", i)?;
    push_numbered(&mut path, b"].stage[", s)?;
    push_pieces(&mut path, &[b"].lasts"])?;
    Ok(path)
}

fn push_numbered(path: &mut Vec<u8>, front: &[u8], number: usize) -> Result<(), Memory> {
    let mut digits = Buffer::new();
    push_pieces(path, &[front, digits.format(number).as_bytes()])
}

// Where the owner's own table stands, or else the default one, or else the list of terminals.
fn place_of_setting<'a>(
    alloc: Global,
    bytes: &[u8],
    kind: &'a [u8],
    name: &'a [u8],
    key: &'a [u8],
) -> Result<usize, Memory>
    ensures { IfOk result (λ at. at ≤ length bytes.now) }
{
    let dot = joint(b".", key);
    if let Some(place) = place_under(alloc, bytes, &[kind, b".", name, dot, key])? {
        return Ok(place);
    }
    match place_under(alloc, bytes, &[b"default.", kind, dot, key])? {
        Some(place) => Ok(place),
        None => place_of_key(alloc, bytes, b"terminals"),
    }
}

// Where the table of these names stands.
fn place_under(alloc: Global, bytes: &[u8], names: &[&[u8]]) -> Result<Option<usize>, Memory>
    ensures { IfOk result (λ place. IfSome place (λ at. at ≤ length bytes.now)) }
{
    let path = text_of(alloc, names)?;
    place_of_table(alloc, bytes, &path)
}
