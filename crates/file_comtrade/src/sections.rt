//! A record in one file (`.cff`): its configuration and its data.

ghost use Rattle.std.specs.Prelude.{◌≡◌, ◌<◌, ◌≤◌, ◌+◌, ◌^◌, IfOk, IfSome, length, option_map, Some};
ghost use Rattle.base_memory.specs.Gives.{Gives};
ghost use Rattle.file_comtrade.specs.Sections.{ascii_behind, binary_behind, data_behind, found_in, head_of};
ghost use Rattle.file_comtrade.specs.Sections.{is_wanted, parts_behind, parts_of};
ghost use Rattle.file_comtrade.specs.SectionViews.{found_of, if_wanted, parts_values};
ghost use Rattle.file_comtrade.specs.Sections.{Found};

use crate::blank::is_blank;
use crate::heads::head_of;
use crate::places::behind_first;
use crate::text::{before_byte, unmarked};
use base_memory::Stopped;
use std::alloc::{AllocError, Global};

/// What a line names.
#[derive(Clone, Copy)]
pub enum Head {
    Config,
    /// Data in ASCII.
    Ascii,
    /// So many bytes of binary data.
    Binary(u32),
    /// Data of none of these kinds.
    Wrong,
    /// Any other section.
    Other,
}

/// What kind of line is looked for.
#[derive(Clone, Copy)]
pub enum Wanted {
    Config,
    Data,
    Any,
}

/// A line that names a section: its index, and the text before it and behind it.
#[derive(Clone, Copy)]
pub struct Found<'a> {
    pub line: usize,
    pub head: Head,
    pub before: &'a [u8],
    pub rest: &'a [u8],
}

/// The configuration of a record in one file, and its data.
#[derive(Clone, Copy)]
pub struct Parts<'a> {
    pub config: &'a [u8],
    /// How many lines stand before the configuration.
    pub config_line: usize,
    pub samples: &'a [u8],
    /// How many lines stand before the data.
    pub samples_line: usize,
}

/// Why a file has no such parts. Lines are counted from 1.
#[derive(Clone, Copy, Drop)]
pub enum SectionFault {
    /// No line names a configuration.
    NoConfig,
    /// No line behind that of the configuration, which is this one, names data.
    NoData(usize),
    /// A second configuration before the data.
    Twice(usize),
    /// A section behind data in ASCII.
    Behind(usize),
    /// Data of none of the four kinds, or binary data without their number of bytes.
    Wrong(usize),
    /// Other bytes than the line says stand behind it, so many to the end of the file.
    Count { line: usize, found: usize },
}

fn is_wanted(what: Wanted, head: Option<Head>) -> bool
    ensures { result ≡ is_wanted what head }
{
    match (what, head) {
        (Wanted::Config, Some(Head::Config)) => true,
        (Wanted::Data, Some(Head::Ascii | Head::Binary(_) | Head::Wrong)) => true,
        (Wanted::Any, Some(_)) => true,
        _ => false,
    }
}

// What a line names, where that is wanted.
fn wanted_head(alloc: Global, what: Wanted, line: &[u8]) -> Result<Option<Head>, AllocError>
    ensures { IfOk result (λ head. head ≡ if_wanted what (head_of line.now)) }
{
    let head = head_of(alloc, line)?;
    if is_wanted(what, head) {
        Ok(head)
    } else {
        Ok(None)
    }
}

/// The first line that names a section of a kind.
fn find(alloc: Global, what: Wanted, text: &[u8]) -> Result<Option<Found<'_>>, AllocError>
    ensures first { IfOk result (λ found. option_map found_of found ≡ found_in what text.now) }
    ensures inside { IfOk result (λ found. IfSome found
        (λ f. f.line + length f.rest.now < length text.now)) }
    ensures before { IfOk result (λ found. IfSome found
        (λ f. length f.before.now ≤ length text.now)) }
{
    let mut rest = text;
    for n in 0..text.len() {
        if rest.is_empty() {
            return Ok(None);
        }
        let next = behind_first(rest, b'\n');
        if let Some(head) = wanted_head(alloc, what, before_byte(rest, b'\n'))? {
            return Ok(Some(Found {
                line: n,
                head,
                before: &text[..text.len() - rest.len()],
                rest: next,
            }));
        }
        rest = next;
    }
    Ok(None)
}

#[tactic(auto, unfolding(crate::specs::Sections::ascii_behind))]
fn ascii_behind(alloc: Global, n: usize, text: &[u8]) -> Result<&[u8], Stopped<SectionFault>>
    requires { n + length text.now < 2 ^ 63 }
    ensures { Gives (λ t. t.now) result (ascii_behind n text.now) }
{
    match find(alloc, Wanted::Any, text)? {
        Some(other) => Err(Stopped::Fault(SectionFault::Behind(n + other.line + 1))),
        None => Ok(text),
    }
}

#[tactic(auto, unfolding(crate::specs::Sections::binary_behind))]
fn binary_behind(n: usize, count: usize, text: &[u8]) -> Result<&[u8], Stopped<SectionFault>>
    ensures { Gives (λ t. t.now) result (binary_behind n count text.now) }
{
    if count <= text.len() && is_blank(&text[count..]) {
        Ok(&text[..count])
    } else {
        Err(Stopped::Fault(SectionFault::Count {
            line: n,
            found: text.len(),
        }))
    }
}

// The data behind line n, which names them so.
fn data_behind(
    alloc: Global,
    head: Head,
    n: usize,
    text: &[u8],
) -> Result<&[u8], Stopped<SectionFault>>
    requires { n + length text.now < 2 ^ 63 }
    ensures { Gives (λ t. t.now) result (data_behind (Some head) n text.now) }
{
    match head {
        Head::Ascii => ascii_behind(alloc, n, text),
        Head::Binary(count) => binary_behind(n, count as usize, text),
        Head::Config | Head::Wrong | Head::Other => Err(Stopped::Fault(SectionFault::Wrong(n))),
    }
}

// The parts of the text behind line n, which names the configuration.
#[tactic(auto, unfolding(crate::specs::Sections::parts_behind))]
fn parts_behind(alloc: Global, n: usize, text: &[u8]) -> Result<Parts<'_>, Stopped<SectionFault>>
    requires { n + length text.now < 2 ^ 63 }
    ensures { Gives parts_values result (parts_behind n text.now) }
{
    let Some(next) = find(alloc, Wanted::Any, text)? else {
        return Err(Stopped::Fault(SectionFault::NoData(n)));
    };
    let Some(data) = find(alloc, Wanted::Data, text)? else {
        return Err(Stopped::Fault(SectionFault::NoData(n)));
    };
    if let Some(twice) = find(alloc, Wanted::Config, data.before)? {
        return Err(Stopped::Fault(SectionFault::Twice(n + twice.line + 1)));
    }
    let line = n + data.line + 1;
    let samples = data_behind(alloc, data.head, line, data.rest)?;
    Ok(Parts {
        config: next.before,
        config_line: n,
        samples,
        samples_line: line,
    })
}

/// The configuration of a record in one file, and its data, or the first fault.
#[tactic(auto, unfolding(crate::specs::Sections::parts_of))]
pub fn parts_of(alloc: Global, bytes: &[u8]) -> Result<Parts<'_>, Stopped<SectionFault>>
    ensures { Gives parts_values result (parts_of bytes.now) }
{
    match find(alloc, Wanted::Config, unmarked(bytes))? {
        Some(config) => parts_behind(alloc, config.line + 1, config.rest),
        None => Err(Stopped::Fault(SectionFault::NoConfig)),
    }
}
