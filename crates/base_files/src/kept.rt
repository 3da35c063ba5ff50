//! A reader that is read once, front to back, and keeps what it gave.

ghost use Rattle.std.specs.Prelude.{◌≡◌, ◌+◌, ◌≤◌, [], length, IfOk, IfSome, IsFalse, IsTrue, OnOk};
ghost use Rattle.std.specs.Io.KnownBytes.{IsAtEnd, Keeps};
ghost use Rattle.base_files.specs.Kept.{KeptView, HasReached, whole_of};
ghost use Rattle.base_text.specs.store.Store.{IsPiece};

use std::alloc::Global;
use std::io;
use std::io::Read;
use std::marker::Model;

// How many bytes one read asks for.
const PIECE: usize = 65536;

/// A reader, and all that it gave so far: what is asked for again comes from there.
#[derive(Drop)]
pub struct Kept<F: Read + Drop> {
    reader: F,
    bytes: Vec<u8>,
    is_at_end: bool,
}

impl<F: Read + Drop> Model for Kept<F> {
    ghost Value = { KeptView };

    ghost view = { λ s. record { kept = s.bytes.items; left = F.remaining s.reader } };

    ghost invariant = { λ s. IsTrue s.is_at_end → IsAtEnd (F.remaining s.reader) };
}

impl<F: Read + Drop> Kept<F> {
    /// The reader, of which nothing is read yet.
    pub fn new(alloc: Global, reader: F) -> Self
        ensures { result ≡ record { kept = []; left = F.remaining reader } }
    {
        Kept {
            reader,
            bytes: Vec::new(alloc),
            is_at_end: false,
        }
    }

    /// Fills the front of `into` with the bytes from that place on, counted from the first that the
    /// reader gave, and gives their number. Where `into` has room, 0 means that there are no more.
    pub fn pull(&mut self, from: u64, into: &mut [u8]) -> io::Result<usize>
        ensures bound { IfOk result (λ n. n ≤ length into.new) }
        ensures bytes { IfOk result (λ n.
            IfSome (whole_of self.old) (λ bytes. IsPiece bytes from into.new n)) }
        ensures whole { Keeps (whole_of self.old) (whole_of self.new) }
    {
        self.read_past(from)?;
        Ok(copy_from(self.bytes.as_slice(), from, into))
    }

    // Reads on until a byte of that place is there, or none is left.
    fn read_past(&mut self, from: u64) -> io::Result<()>
        ensures past { OnOk result (HasReached (from + 1) self.new) }
        ensures whole { Keeps (whole_of self.old) (whole_of self.new) }
    {
        for _turn in 0..=from {
            if self.bytes.len() as u64 > from || !self.read_on()? {
                return Ok(());
            }
        }
        Ok(())
    }

    // One read, where the end was not seen yet. Whether it gave anything.
    fn read_on(&mut self) -> io::Result<bool>
        ensures more { IfOk result (λ more.
            IsTrue more → length self.old.kept + 1 ≤ length self.new.kept) }
        ensures none { IfOk result (λ more. IsFalse more → IsAtEnd self.new.left) }
        ensures whole { Keeps (whole_of self.old) (whole_of self.new) }
    {
        if self.is_at_end {
            return Ok(false);
        }
        let kept = self.bytes.len();
        self.bytes.resize(kept + PIECE, 0)?;
        match self.reader.read(&mut self.bytes[kept..]) {
            Ok(count) => {
                self.bytes.truncate(kept + count);
                self.is_at_end = count == 0;
                Ok(count > 0)
            }
            Err(error) => {
                self.bytes.truncate(kept);
                Err(error)
            }
        }
    }
}

// Copies the bytes from that place on, as many as fit into the piece.
fn copy_from(bytes: &[u8], from: u64, into: &mut [u8]) -> usize
    ensures within { result ≤ length into.new }
    ensures piece { IsPiece bytes.now from into.new result }
{
    if from >= bytes.len() as u64 {
        return 0;
    }
    let rest = &bytes[from as usize..];
    let count = rest.len().min(into.len());
    into[..count].copy_from_slice(&rest[..count]);
    count
}
