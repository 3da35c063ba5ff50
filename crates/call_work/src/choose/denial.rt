//! Why nothing is chosen.

ghost use Rattle.std.specs.Prelude.{◌≡◌, IfOk, map};
ghost use Rattle.call_work.specs.load.Lines.{one_line as line_by};
ghost use Rattle.call_work.specs.choose.Denials.{choose_denial_pieces, choose_denial_status, word_at as word_of};
ghost use Rattle.base_memory.specs.declared.stopped.Stopped.TheVariants as stopped;

use crate::map::{line_of, unknown_line};
use base_memory::{Memory, Stopped};
use model_line::Name;
use std::alloc::Global;

/// Why nothing is chosen: the first fault, in the order of the words. A setting is told by its place
/// among them, from 0.
#[derive(Clone, Copy, Drop)]
pub enum ChooseDenial {
    /// This name of the list of a setting, counted from 1, stands for no parameter; this one is the nearest.
    Unknown {
        place: usize,
        number: usize,
        near: Option<Name>,
    },
    /// This parameter of a setting is a delay.
    Delay {
        place: usize,
        name: Name,
    },
}

impl From<ChooseDenial> for Stopped<ChooseDenial> {
    ghost from_gives = { λ denial why. why ≡ stopped.Fault denial };

    fn from(denial: ChooseDenial) -> Self {
        Stopped::Fault(denial)
    }
}

impl ChooseDenial {
    /// 9 where a parameter is unknown, else 4.
    pub fn status(&self) -> u8
        ensures { result ≡ choose_denial_status self.now }
    {
        match self {
            ChooseDenial::Unknown { .. } => 9,
            ChooseDenial::Delay { .. } => 4,
        }
    }
}

/// The line that says it, of these settings: `study: SETTING: WHAT; write ..`.
pub fn choose_denial_line(
    alloc: Global,
    words: &[&str],
    why: &ChooseDenial,
) -> Result<Vec<u8>, Memory>
    ensures { IfOk result (λ text. text.items
        ≡ line_by (choose_denial_pieces (map (λ word. word.now) words.now) why.now)) }
{
    match why {
        ChooseDenial::Unknown {
            place,
            number,
            near,
        } => { unknown_line(alloc, word_at(words, *place), *number, *near) }
        ChooseDenial::Delay { place, name } => line_of(
            alloc,
            word_at(words, *place),
            name.bytes(),
            b"",
            b" is a delay, which choose does not take",
            b": move it by study map",
        ),
    }
}

/// The word at a place.
pub fn word_at<'a>(words: &[&'a str], place: usize) -> &'a [u8]
    ensures { result.now ≡ word_of (map (λ word. word.now) words.now) place }
{
    match words.get(place) {
        Some(word) => word.as_bytes(),
        None => b"",
    }
}
