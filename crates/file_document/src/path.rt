//! Where in a document something stands.

ghost use Rattle.std.specs.Prelude.{◌≡◌, ◌≤◌, [], length, take};
ghost use Rattle.file_document.specs.Paths.{shown_byte, pushed, pushed_all, under, numbered};

use itoa::Buffer;
use std::fmt;
use std::marker::Model;

/// A place in a document, as `fault[0].stage[1].lasts`: its first 160 bytes, each from 0x21 to 0x7E.
/// The bytes of the array past the path's end are 0.
#[derive(Clone, Copy)]
pub struct Path {
    bytes: [u8; 160],
    len: u8,
}

impl Model for Path {
    ghost use Rattle.std.specs.Prelude.{List, ℕ, take};
    ghost use Rattle.file_document.specs.PathBytes.{IsPath, path_of, path_of-take};

    ghost Value = { List ℕ };

    ghost view = { λ p. take p.len p.bytes };

    ghost invariant = { IsPath };

    ghost inverse = { path_of };

    ghost inverse_ok = { path_of-take };
}

impl Path {
    /// The path's bytes.
    pub fn bytes(&self) -> &[u8]
        ensures same { result.now ≡ self.now }
        ensures within { length result.now ≤ 160 }
    {
        &self.bytes[..self.len as usize]
    }

    /// The document itself.
    pub fn root() -> Path
        ensures { result ≡ [] }
    {
        Path {
            bytes: [0; 160],
            len: 0,
        }
    }

    /// A key of the table at this path: its first 64 bytes.
    #[tactic(auto, unfolding(crate::specs::Paths::under))]
    pub fn key(self, key: &[u8]) -> Path
        ensures { result ≡ under self key.now }
    {
        let mut path = self;
        if path.len > 0 {
            path.push(b'.');
        }
        path.push_all(first(key, 64));
        path
    }

    /// An item of the array at this path.
    #[tactic(auto, unfolding(crate::specs::Paths::numbered))]
    pub fn item(self, index: usize) -> Path
        ensures { result ≡ numbered self index }
    {
        let mut path = self;
        let mut buffer = Buffer::new();
        path.push(b'[');
        path.push_all(buffer.format(index).as_bytes());
        path.push(b']');
        path
    }

    fn push_all(&mut self, bytes: &[u8])
        ensures { self.new ≡ pushed_all self.old bytes.now }
    {
        for byte in bytes {
            self.push(*byte);
        }
    }

    fn push(&mut self, byte: u8)
        ensures { self.new ≡ pushed self.old byte }
    {
        if self.len < 160 {
            self.bytes[self.len as usize] = shown(byte);
            self.len += 1;
        }
    }
}

// The first n bytes, or all where there are fewer.
fn first(bytes: &[u8], n: usize) -> &[u8]
    ensures { result.now ≡ take n bytes.now }
{
    if bytes.len() <= n { bytes } else { &bytes[..n] }
}

// A byte as a path shows it.
fn shown(byte: u8) -> u8
    ensures { result ≡ shown_byte byte }
{
    if (0x21..=0x7e).contains(&byte) {
        byte
    } else {
        b'?'
    }
}

impl fmt::Display for Path {
    fn fmt<W: fmt::Write>(&self, f: &mut fmt::Formatter<W>) -> fmt::Result {
        for byte in self.bytes() {
            f.write_char(char::from(*byte))?;
        }
        Ok(())
    }
}
