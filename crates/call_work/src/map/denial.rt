//! Why there is no such map.

ghost use Rattle.std.specs.Prelude.{◌≡◌, [], IfOk};
ghost use Rattle.call_work.specs.load.Lines.{one_line as line_by};
ghost use Rattle.call_work.specs.map.Denials.{fault_pieces, map_denial_pieces, number_in as number_of};
ghost use Rattle.call_work.specs.map.Denials.{number_words, pieces_of, unknown_pieces};
ghost use Rattle.call_work.specs.map.Denials.{map_denial_status, side_words as words_of_side};
ghost use Rattle.call_work.specs.map.Denials.{where_words as words_of_place, words_status as status_of_words};
ghost use Rattle.base_memory.specs.declared.stopped.Stopped.TheVariants as stopped;
ghost use Rattle.file_study.specs.times.AxisWords.{what_words};

use crate::load::{near_words, one_line, quoted_name};
use base_memory::{Memory, Stopped};
use call_choose::name_in_list;
use file_study::times::{AxisFault, names_of};
use itoa::Buffer;
use judge_margins::map::MapFault;
use model_line::Name;
use std::alloc::Global;

/// The axis of the columns, or that of the rows.
#[derive(Clone, Copy)]
pub enum Side {
    X,
    Y,
}

/// Why there is no such map: the first fault, in the order of the words, then of both axes together.
#[derive(Clone, Copy, Drop)]
pub enum MapDenial {
    /// The words of an axis are refused.
    Words(Side, AxisFault),
    /// This name of the list of an axis, counted from 1, stands for no parameter; this one is the
    /// nearest.
    Unknown {
        side: Side,
        number: usize,
        near: Option<Name>,
    },
    /// This parameter would move along both axes.
    Twice(Name),
    /// An interval would leave its limits, or there would be too many cells.
    Fault(MapFault),
}

impl From<MapDenial> for Stopped<MapDenial> {
    ghost from_gives = { λ denial why. why ≡ stopped.Fault denial };

    fn from(denial: MapDenial) -> Self {
        Stopped::Fault(denial)
    }
}

impl MapDenial {
    /// 9 where a parameter is unknown, else 4.
    pub fn status(&self) -> u8
        ensures { result ≡ map_denial_status self.now }
    {
        match self {
            MapDenial::Words(_, why) => words_status(*why),
            MapDenial::Unknown { .. } => 9,
            MapDenial::Twice(_) | MapDenial::Fault(_) => 4,
        }
    }
}

fn words_status(why: AxisFault) -> u8
    ensures { result ≡ status_of_words why }
{
    match why {
        AxisFault::Unknown(_) => 9,
        AxisFault::NoEquals
        | AxisFault::NoLast
        | AxisFault::NoStep
        | AxisFault::NoTicks(_)
        | AxisFault::BadTime(_, _)
        | AxisFault::NoInstant(_)
        | AxisFault::Beyond(_)
        | AxisFault::OffGrid(_)
        | AxisFault::Order
        | AxisFault::StepOfZero => 4,
    }
}

/// The line that says it, of the map of these words: `study: WORDS: WHAT; write ..`.
pub fn map_denial_line(
    alloc: Global,
    x: &[u8],
    y: &[u8],
    why: &MapDenial,
) -> Result<Vec<u8>, Memory>
    ensures { IfOk result (λ text.
        text.items ≡ line_by (map_denial_pieces x.now y.now why.now)) }
{
    match why {
        MapDenial::Words(side, fault) => words_line(alloc, side_words(x, y, *side), *fault),
        MapDenial::Unknown { side, number, near } => {
            unknown_line(alloc, side_words(x, y, *side), *number, *near)
        }
        MapDenial::Twice(name) => name_line(
            alloc,
            name.bytes(),
            b"moves along both axes",
            b": name it in one of them",
        ),
        MapDenial::Fault(fault) => fault_line(alloc, fault),
    }
}

// The line of what is wrong with the words of an axis.
fn words_line(alloc: Global, words: &[u8], fault: AxisFault) -> Result<Vec<u8>, Memory>
    ensures { IfOk result (λ text. text.items ≡ line_by (pieces_of words.now (words_of_place fault)
        (number_words (number_of fault)) (what_words fault) [])) }
{
    let place = place_words(fault);
    let what = fault.words().as_bytes();
    match number_in(fault) {
        Some(number) => {
            let mut digits = Buffer::new();
            let number = digits.format(number).as_bytes();
            line_of(alloc, words, place, number, what, b"")
        }
        None => line_of(alloc, words, place, b"", what, b""),
    }
}

/// The line of a name that stands for no parameter, with the nearest that does.
pub(crate) fn unknown_line(
    alloc: Global,
    words: &[u8],
    number: usize,
    near: Option<Name>,
) -> Result<Vec<u8>, Memory>
    ensures { IfOk result (λ text. text.items ≡ line_by (unknown_pieces words.now number near)) }
{
    let name = name_in_list(names_of(words), number.saturating_sub(1));
    let asked = quoted_name(alloc, Some(name))?;
    let near = near_words(alloc, near)?;
    one_line(
        alloc,
        &[
            b"study: ",
            words,
            b": there is no parameter",
            asked.as_slice(),
            near.as_slice(),
        ],
    )
}

// The number of a name, if it is one that is wrong.
fn number_in(fault: AxisFault) -> Option<usize>
    ensures { result ≡ number_of fault }
{
    match fault {
        AxisFault::Unknown(number) => Some(number),
        AxisFault::NoEquals
        | AxisFault::NoLast
        | AxisFault::NoStep
        | AxisFault::NoTicks(_)
        | AxisFault::BadTime(_, _)
        | AxisFault::NoInstant(_)
        | AxisFault::Beyond(_)
        | AxisFault::OffGrid(_)
        | AxisFault::Order
        | AxisFault::StepOfZero => None,
    }
}

// The line of which cell there cannot be.
fn fault_line(alloc: Global, fault: &MapFault) -> Result<Vec<u8>, Memory>
    ensures { IfOk result (λ text. text.items ≡ line_by (fault_pieces fault.now)) }
{
    match fault {
        MapFault::Late(name) => name_line(
            alloc,
            name.bytes(),
            b"would go beyond 4000 ticks",
            b": end before",
        ),
        MapFault::NoDelay(name) => name_line(
            alloc,
            name.bytes(),
            b"a delay that would begin at 0",
            b": begin at one tick",
        ),
        MapFault::TooMany => name_line(
            alloc,
            b"the map",
            b"more than 40000 cells",
            b": take longer steps",
        ),
    }
}

// The line of what is wrong with a parameter, and what to write.
fn name_line(alloc: Global, name: &[u8], what: &[u8], write: &[u8]) -> Result<Vec<u8>, Memory>
    ensures { IfOk result (λ text. text.items ≡ line_by (pieces_of name.now [] [] what.now write.now)) }
{
    line_of(alloc, name, b"", b"", what, write)
}

/// The line: the words or the parameter, where in the words, what is wrong, and what to write.
pub(crate) fn line_of<'a>(
    alloc: Global,
    words: &'a [u8],
    place: &'a [u8],
    number: &'a [u8],
    what: &'a [u8],
    write: &'a [u8],
) -> Result<Vec<u8>, Memory>
    ensures { IfOk result (λ text.
        text.items ≡ line_by (pieces_of words.now place.now number.now what.now write.now)) }
{
    let (head, colon): (&'a [u8], &'a [u8]) = (b"study: ", b": ");
    one_line(alloc, &[head, words, colon, place, number, what, write])
}

// The words of an axis.
fn side_words<'a>(x: &'a [u8], y: &'a [u8], side: Side) -> &'a [u8]
    ensures { result.now ≡ words_of_side x.now y.now side }
{
    match side {
        Side::X => x,
        Side::Y => y,
    }
}

// Where in the words it is.
fn place_words(fault: AxisFault) -> &'static [u8]
    ensures { result.now ≡ words_of_place fault }
{
    match fault {
        AxisFault::Unknown(_) => b"name ",
        AxisFault::NoTicks(part)
        | AxisFault::BadTime(part, _)
        | AxisFault::NoInstant(part)
        | AxisFault::Beyond(part)
        | AxisFault::OffGrid(part) => part.words().as_bytes(),
        AxisFault::NoEquals
        | AxisFault::NoLast
        | AxisFault::NoStep
        | AxisFault::Order
        | AxisFault::StepOfZero => b"",
    }
}
