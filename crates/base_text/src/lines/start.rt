//! The start of a line, taken off.

ghost use Rattle.std.specs.Prelude.{◌≡◌, ◌≢◌, ◌++◌, ℕ, List, MatchOption};
ghost use Rattle.std.specs.Bool.{Decides};
ghost use Rattle.base_text.specs.lines.Named.{named};

/// What follows the start, if the text begins with it.
pub fn after<'a>(text: &'a [u8], start: &[u8]) -> Option<&'a [u8]>
    ensures { MatchOption result
        ((rest : List ℕ) → text.now ≢ start.now ++ rest)
        (λ rest. text.now ≡ start.now ++ rest.now) }
{
    text.strip_prefix(start)
}

/// Whether it is this text.
pub fn is(bytes: &[u8], text: &[u8]) -> bool
    ensures { Decides result (bytes.now ≡ text.now) }
{
    bytes == text
}

/// Whether it is the start and then the name.
pub(crate) fn is_named(bytes: &[u8], start: &[u8], name: &[u8]) -> bool
    ensures { Decides result (bytes.now ≡ start.now ++ name.now) }
{
    match after(bytes, start) {
        Some(rest) => is(rest, name),
        None => false,
    }
}

/// What follows the word and the name, each with its space, if the text begins with them.
pub fn after_name<'a>(text: &'a [u8], word: &[u8], name: &[u8]) -> Option<&'a [u8]>
    ensures { MatchOption result
        ((words : List ℕ) → text.now ≢ named word.now name.now words)
        (λ words. text.now ≡ named word.now name.now words.now) }
{
    let rest = after(text, word)?;
    let rest = after(rest, b" ")?;
    let rest = after(rest, name)?;
    after(rest, b" ")
}
