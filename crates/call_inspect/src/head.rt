//! The head of a file: its first words, and the keys at the beginning of its lines.

ghost use Rattle.std.specs.Prelude.{◌≡◌, ◌<◌, ◌≤◌, length};
ghost use Rattle.call_inspect.specs.Kinds.{begins_line as is_begin, begins_parted as is_parted};
ghost use Rattle.call_inspect.specs.Kinds.{behind_mark as behind, has_ending as ends, has_key as has};
ghost use Rattle.call_inspect.specs.Kinds.{has_line as has_front, is_line_front as is_front};

/// Whether the last four bytes of a name are these, in letters of either case.
pub fn has_ending(name: &[u8], ending: &[u8]) -> bool
    ensures { result ≡ ends name.now ending.now }
{
    if name.len() < 4 {
        return false;
    }
    name[name.len() - 4..].eq_ignore_ascii_case(ending)
}

/// The bytes behind a byte order mark, or all.
pub fn behind_mark(bytes: &[u8]) -> &[u8]
    ensures is { result.now ≡ behind bytes.now }
    ensures within { length result.now ≤ length bytes.now }
{
    if bytes.starts_with(b"\xef\xbb\xbf") && bytes.len() >= 3 {
        &bytes[3..]
    } else {
        bytes
    }
}

/// Whether a header of records begins with one of these: two words with a comma, a semicolon or a tab
/// between them.
pub fn begins_parted(commas: &[u8], semicolons: &[u8], tabs: &[u8], text: &[u8]) -> bool
    ensures { result ≡ is_parted commas.now semicolons.now tabs.now text.now }
{
    text.starts_with(commas) || text.starts_with(semicolons) || text.starts_with(tabs)
}

/// Whether some line begins with a key, behind which a blank, a tab or an equals sign stands.
pub fn has_key(blank: &[u8], tab: &[u8], equals: &[u8], text: &[u8]) -> bool
    ensures { result ≡ has blank.now tab.now equals.now text.now }
{
    has_line(blank, text) || has_line(tab, text) || has_line(equals, text)
}

/// Whether some line begins so.
pub fn has_line(front: &[u8], text: &[u8]) -> bool
    ensures { result ≡ has_front front.now text.now }
{
    let mut found = false;
    for k in 0..text.len() {
        found = is_line_front(front, text, k) || found;
    }
    found
}

fn is_line_front(front: &[u8], text: &[u8], k: usize) -> bool
    requires { k < length text.now }
    ensures { result ≡ is_front front.now text.now k }
{
    begins_line(text, k) && text[k..].starts_with(front)
}

// Whether a line begins at this place.
fn begins_line(text: &[u8], k: usize) -> bool
    requires { k < length text.now }
    ensures { result ≡ is_begin text.now k }
{
    k == 0 || text[k - 1] == b'\n'
}
