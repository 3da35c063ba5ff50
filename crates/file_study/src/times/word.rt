//! The words of a text, parted by spaces.

ghost use Rattle.std.specs.Prelude.{◌≡◌, ◌≤◌, length};
ghost use Rattle.std.specs.Str.{bytes_eq};
ghost use Rattle.std.specs.List.{position_or_len};
ghost use Rattle.file_study.specs.times.Words.{is_no_space, next_start, next_end, place_of};
ghost use Rattle.file_study.specs.times.Words.{word_of, sign_in};

use base_text::lines::find_byte;

/// What a word that is no number and no unit can be.
#[derive(Clone, Copy, Drop)]
pub enum Sign {
    /// There is no word: the text has ended.
    End,
    /// `..`
    To,
    /// `+-`
    PlusMinus,
    /// `by`
    By,
    /// `%`
    Percent,
    /// Another word.
    Other,
}

// The first place from here on whose byte is no space.
fn next_start(text: &[u8], from: usize) -> usize
    requires { from ≤ length text.now }
    ensures is { result ≡ next_start text.now from }
    ensures inside { result ≤ length text.now }
{
    from + leading_spaces(&text[from..])
}

// How many spaces the text begins with.
fn leading_spaces(text: &[u8]) -> usize
    ensures is { result ≡ position_or_len is_no_space text.now }
    ensures inside { result ≤ length text.now }
{
    for (i, byte) in text.iter().enumerate() {
        if *byte != b' ' {
            return i;
        }
    }
    text.len()
}

// The first place from here on whose byte is a space.
fn next_end(text: &[u8], from: usize) -> usize
    requires { from ≤ length text.now }
    ensures is { result ≡ next_end text.now from }
    ensures inside { result ≤ length text.now }
{
    from + find_byte(&text[from..], b' ')
}

/// Where word `number` begins, counted from 0; the end of the text where there are fewer words.
pub fn place(text: &[u8], number: usize) -> usize
    ensures is { result ≡ place_of text.now number }
    ensures inside { result ≤ length text.now }
{
    let mut place = next_start(text, 0);
    for _ in 0..number {
        place = next_start(text, next_end(text, place));
    }
    place
}

/// Word `number`, counted from 0; nothing where there are fewer words.
pub fn word(text: &[u8], number: usize) -> &[u8]
    ensures { result.now ≡ word_of text.now number }
{
    let rest = &text[place(text, number)..];
    &rest[..find_byte(rest, b' ')]
}

/// Whether the word is this one.
pub fn is(word: &[u8], other: &[u8]) -> bool
    ensures { result ≡ bytes_eq word.now other.now }
{
    word == other
}

/// Which sign a word is.
pub fn sign_in(word: &[u8]) -> Sign
    ensures { result ≡ sign_in word.now }
{
    if is(word, b"") {
        Sign::End
    } else if is(word, b"..") {
        Sign::To
    } else if is(word, b"+-") {
        Sign::PlusMinus
    } else if is(word, b"by") {
        Sign::By
    } else if is(word, b"%") {
        Sign::Percent
    } else {
        Sign::Other
    }
}
