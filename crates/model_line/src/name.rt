//! Names of 1 to 64 bytes.

ghost use Rattle.std.specs.Prelude.{◌≡◌, ◌≤◌, ◌<◌, ◌↔◌, length, IsSome, IfSome, IsTrue, true};
ghost use Rattle.std.specs.List.{list_all};
ghost use Rattle.model_line.specs.PlainNames.{is_plain_byte, is_plain_name};

use std::marker::Model;

/// A name: 1 to 64 bytes. The bytes of the array past the name's end are 0.
#[derive(Clone, Copy, PartialEq, Eq)]
pub struct Name {
    bytes: [u8; 64],
    len: u8,
}

// contracts see a name as the list of its bytes
impl Model for Name {
    ghost use Rattle.std.specs.Prelude.{List, ℕ, take};

    ghost Value = { List ℕ };

    ghost use Rattle.model_line.specs.NameOfBytes.{IsName, from_list, from_list-take};

    ghost view = { λ n. take n.len n.bytes };

    ghost invariant = { IsName };

    ghost inverse = { from_list };

    ghost inverse_ok = { from_list-take };
}

impl Name {
    /// The name of these bytes, where there are 1 to 64.
    pub fn from_bytes(bytes: &[u8]) -> Option<Name>
        ensures some { IsSome result ↔ ((0 < length bytes.now) × (length bytes.now ≤ 64)) }
        ensures value { IfSome result (λ n. n ≡ bytes.now) }
    {
        if bytes.is_empty() || bytes.len() > 64 {
            return None;
        }
        let mut all = [0; 64];
        all[..bytes.len()].copy_from_slice(bytes);
        Some(Name {
            bytes: all,
            len: bytes.len() as u8,
        })
    }

    /// The name of these bytes, which are a plain name.
    pub fn plain(bytes: &[u8]) -> Name
        requires { IsTrue (is_plain_name bytes.now) }
        ensures { result ≡ bytes.now }
    {
        match Name::from_bytes(bytes) {
            Some(name) => name,
            None => unreachable!(),
        }
    }

    /// The name's own bytes.
    pub fn bytes(&self) -> &[u8]
        ensures same { result.now ≡ self.now }
        ensures within { (0 < length result.now) × (length result.now ≤ 64) }
    {
        &self.bytes[..self.len as usize]
    }

    /// A plain name as a text.
    pub fn plain_text(&self) -> &str
        requires { is_plain_name self.now ≡ true }
        ensures { result.now ≡ self.now }
    {
        match std::str::from_utf8(self.bytes()) {
            Ok(text) => text,
            Err(_) => unreachable!(),
        }
    }
}

/// Whether the bytes are a plain name: 1 to 16 letters, digits, `_` and `-`.
pub fn is_plain(bytes: &[u8]) -> bool
    ensures { result ≡ is_plain_name bytes.now }
{
    if bytes.is_empty() || bytes.len() > 16 {
        return false;
    }
    are_plain(bytes)
}

fn are_plain(bytes: &[u8]) -> bool
    ensures { result ≡ list_all is_plain_byte bytes.now }
{
    bytes.iter().all(|b| is_plain_letter(*b))
}

fn is_plain_letter(b: u8) -> bool
    ensures { result ≡ is_plain_byte b }
{
    b.is_ascii_alphanumeric() || b == b'_' || b == b'-'
}
