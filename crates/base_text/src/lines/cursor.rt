//! A text, line by line.

ghost use Rattle.std.specs.Prelude.{◌≡◌, ◌≤◌, ◌<◌, ◌+◌, ◌++◌, ◌^◌, List, ℕ, length};
ghost use Rattle.std.specs.Prelude.{MatchResult};
ghost use Rattle.std.specs.List.{position_or_len};
ghost use Rattle.base_text.specs.lines.Lines.{BeginsWith, is_feed};

use crate::lines::fault::TextFault;
use crate::lines::find::find_byte;
use crate::lines::start::is_named;

/// What is left of a text of lines, and the number of the line that comes next. Lines are counted
/// from 1 and end with a line feed.
#[derive(Drop)]
pub struct LineCursor<'a> {
    pub rest: &'a [u8],
    pub number: usize,
    pub ghost bounded: { number + length rest.now < 2 ^ 64 },
}

impl<'a> LineCursor<'a> {
    /// All lines of a text are to come.
    pub fn new(text: &'a [u8]) -> LineCursor<'a>
        ensures all { result.rest.now ≡ text.now }
        ensures first { result.number ≡ 1 }
    {
        LineCursor {
            rest: text,
            number: 1,
        }
    }

    /// Takes the next line and its line feed.
    pub fn take_line(&mut self) -> Result<&'a [u8], TextFault>
        ensures { MatchResult result
            (λ line. BeginsWith self.old.rest.now line.now self.new.rest.now
            × (self.new.number ≡ self.old.number + 1))
            (λ fault. (fault.line ≡ self.old.number)
            × ((line rest : List ℕ) → ¬ BeginsWith self.old.rest.now line rest)) }
    {
        let end = find_byte(self.rest, b'\n');
        if end == self.rest.len() {
            return Err(TextFault { line: self.number });
        }
        let line = &self.rest[..end];
        self.rest = &self.rest[end + 1..];
        self.number += 1;
        Ok(line)
    }

    /// Takes the next line, which is to be this text.
    pub fn take(&mut self, text: &[u8]) -> Result<(), TextFault>
        ensures { MatchResult result
            (λ _. BeginsWith self.old.rest.now text.now self.new.rest.now
            × (self.new.number ≡ self.old.number + 1))
            (λ fault. (fault.line ≡ self.old.number)
            × ((rest : List ℕ) → ¬ BeginsWith self.old.rest.now text.now rest)) }
    {
        self.take_named(b"", text)
    }

    /// Takes the next line, which is to be the start and then the name.
    pub fn take_named(&mut self, start: &[u8], name: &[u8]) -> Result<(), TextFault>
        ensures { MatchResult result
            (λ _. BeginsWith self.old.rest.now (start.now ++ name.now) self.new.rest.now
            × (self.new.number ≡ self.old.number + 1))
            (λ fault. (fault.line ≡ self.old.number)
            × ((rest : List ℕ) → ¬ BeginsWith self.old.rest.now (start.now ++ name.now) rest)) }
    {
        let number = self.number;
        let line = self.take_line()?;
        if is_named(line, start, name) {
            Ok(())
        } else {
            Err(TextFault { line: number })
        }
    }
}
