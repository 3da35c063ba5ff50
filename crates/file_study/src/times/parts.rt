//! The parts of the words of an axis.

ghost use Rattle.std.specs.Prelude.{◌≡◌, ◌≤◌, ◌<◌, ◌+◌, ◌==◌, length};
ghost use Rattle.std.specs.List.{after_first};
ghost use Rattle.file_study.specs.times.Parts.{behind_of, dots_in, first_of, is_dotted};
ghost use Rattle.file_study.specs.times.Parts.{last_of, names_of as names_for, numbers_of, step_of};

use base_text::lines::find_byte;

/// What stands before the first `=`; all where there is none.
pub fn names_of(words: &[u8]) -> &[u8]
    ensures { result.now ≡ names_for words.now }
{
    &words[..find_byte(words, b'=')]
}

/// What stands behind it.
pub fn numbers(words: &[u8]) -> &[u8]
    ensures { result.now ≡ numbers_of words.now }
{
    behind_byte(words, b'=')
}

// What stands behind the first of a byte; nothing where there is none.
fn behind_byte(text: &[u8], byte: u8) -> &[u8]
    ensures { result.now ≡ after_first (λ other. other == byte) text.now }
{
    let place = find_byte(text, byte);
    if place < text.len() {
        &text[place + 1..]
    } else {
        &text[place..]
    }
}

/// What stands before the first two points.
pub fn first(numbers: &[u8]) -> &[u8]
    ensures { result.now ≡ first_of numbers.now }
{
    &numbers[..dots(numbers)]
}

/// What stands behind the first two points; nothing where there are none.
pub fn behind(numbers: &[u8]) -> &[u8]
    ensures { result.now ≡ behind_of numbers.now }
{
    let place = dots(numbers);
    if place < numbers.len() && 2 <= numbers.len() - place {
        &numbers[place + 2..]
    } else {
        &numbers[numbers.len()..]
    }
}

/// What stands there before the first colon.
pub fn last(numbers: &[u8]) -> &[u8]
    ensures { result.now ≡ last_of numbers.now }
{
    let rest = behind(numbers);
    &rest[..find_byte(rest, b':')]
}

/// What stands behind that colon.
pub fn step(numbers: &[u8]) -> &[u8]
    ensures { result.now ≡ step_of numbers.now }
{
    behind_byte(behind(numbers), b':')
}

/// Where two points stand first; the length of the text where they stand nowhere.
pub fn dots(text: &[u8]) -> usize
    ensures is { result ≡ dots_in text.now }
    ensures inside { result ≤ length text.now }
{
    for i in 0..text.len() {
        if is_dotted(&text[i..]) {
            return i;
        }
    }
    text.len()
}

// Whether two points stand at the front.
fn is_dotted(text: &[u8]) -> bool
    ensures { result ≡ is_dotted text.now }
{
    2 <= text.len() && text[0] == b'.' && text[1] == b'.'
}
