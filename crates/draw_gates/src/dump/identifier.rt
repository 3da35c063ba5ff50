//! Identifiers of a value change dump.

ghost use Rattle.std.specs.Prelude.{◌≡◌, ◌++◌, OnOk};
ghost use Rattle.std.specs.List.{list_all};
ghost use Rattle.draw_gates.specs.dump.Variables.{identifier, is_simple as is_simple_name};
ghost use Rattle.draw_gates.specs.dump.Variables.{may_begin as may_begin_one, may_follow as may_follow_one};

use crate::dump::put::put;
use model_line::Memory;

/// Appends a name as an identifier: as it stands where it is a simple one, else escaped. A blank
/// has to follow.
pub fn put_identifier(text: &mut Vec<u8>, name: &[u8]) -> Result<(), Memory>
    ensures { OnOk result (text.new.items ≡ text.old.items ++ identifier name.now) }
{
    if !is_simple(name) {
        put(text, b"\\")?;
    }
    put(text, name)
}

fn is_simple(name: &[u8]) -> bool
    ensures { result ≡ is_simple_name name.now }
{
    match name {
        [] => false,
        [first, rest @ ..] => may_begin(*first) && may_all_follow(rest),
    }
}

fn may_all_follow(bytes: &[u8]) -> bool
    ensures { result ≡ list_all may_follow_one bytes.now }
{
    bytes.iter().all(|b| may_follow(*b))
}

fn may_begin(b: u8) -> bool
    ensures { result ≡ may_begin_one b }
{
    b.is_ascii_alphabetic() || b == b'_'
}

fn may_follow(b: u8) -> bool
    ensures { result ≡ may_follow_one b }
{
    b.is_ascii_alphanumeric() || b == b'_' || b == b'$'
}
