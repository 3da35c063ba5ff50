//! Words of labels, piece by piece.

ghost use Rattle.std.specs.Prelude.{◌≡◌, ◌==◌, ◌++◌, [], codes, decimal, if◌then◌else◌, IfOk};
ghost use Rattle.draw_run.specs.layout.Words.{said, milliseconds_said, places_said, ticks_said};

use itoa::Buffer;
use model_line::Memory;
use std::alloc::Global;

/// The bytes of a label so far.
#[derive(Drop)]
pub struct Words {
    pub bytes: Vec<u8>,
}

impl Words {
    /// No words.
    pub fn new(alloc: Global) -> Words
        ensures { said result ≡ [] }
    {
        Words {
            bytes: Vec::new(alloc),
        }
    }

    /// And this behind them.
    pub fn word(self, word: &[u8]) -> Result<Words, Memory>
        ensures { IfOk result (λ words. said words ≡ said self ++ word.now) }
    {
        let mut bytes = self.bytes;
        bytes.extend_from_slice(word)?;
        Ok(Words { bytes })
    }

    /// And this number, in decimal digits.
    pub fn number(self, number: u64) -> Result<Words, Memory>
        ensures { IfOk result (λ words. said words ≡ said self ++ decimal number) }
    {
        self.word(Buffer::new().format(number).as_bytes())
    }

    /// And this tick, in decimal digits.
    pub fn tick(self, t: u32) -> Result<Words, Memory>
        ensures { IfOk result (λ words. said words ≡ said self ++ decimal t) }
    {
        self.number(t as u64)
    }

    /// And these microseconds as milliseconds, with up to three decimal places.
    pub fn milliseconds(self, microseconds: u64) -> Result<Words, Memory>
        ensures { IfOk result (λ words.
            said words ≡ said self ++ milliseconds_said microseconds) }
    {
        self.number(microseconds / 1000)?
            .places(microseconds % 1000)
    }

    // And so many microseconds below a millisecond, as decimal places.
    fn places(self, rest: u64) -> Result<Words, Memory>
        ensures { IfOk result (λ words. said words ≡ said self ++ places_said rest) }
    {
        if rest == 0 {
            return Ok(self);
        }
        let words = self.word(b".")?.number(rest / 100)?;
        if rest % 100 == 0 {
            return Ok(words);
        }
        let words = words.number(rest / 10 % 10)?;
        if rest % 10 == 0 {
            return Ok(words);
        }
        words.number(rest % 10)
    }

    /// And so many ticks, as ticks and milliseconds.
    pub fn ticks(self, ticks: u64, tick_us: u32) -> Result<Words, Memory>
        ensures { IfOk result (λ words. said words ≡ said self ++ ticks_said tick_us ticks) }
    {
        self.number(ticks)?
            .word(unit(ticks))?
            .milliseconds(ticks.saturating_mul(tick_us as u64))?
            .word(b" ms")
    }
}

// What stands behind a number of ticks.
fn unit(ticks: u64) -> &'static [u8]
    ensures { result.now ≡ (if ticks == 1 then codes " tick, " else codes " ticks, ") }
{
    if ticks == 1 { b" tick, " } else { b" ticks, " }
}
