//! The sink over a file that takes its name when it is whole. It tells nothing of what the file took.

ghost use Rattle.std.specs.Prelude.{◌≡◌, ◌≤◌, None, length, IfOk, OnErr};
ghost use Rattle.base_text.specs.store.Counts.{Rose};
ghost use Rattle.base_text.specs.store.StdSink.{SinkCounts};

use crate::store::sink::{Sink, SinkFailed};
use std::io::Write;
use std::marker::Model;
use std::rt::Files;
use std::{fs, io};

/// A sink over a file of that name. What is pushed goes to a file beside it, which the first push
/// makes, or empties where it is there; `close` gives it the name. So until the call is done, and
/// where it fails or has no text, a file of the name is as it was. What stands under the name and
/// is no plain file, as a device, a pipe or a link, is written to itself.
#[derive(Drop)]
pub struct NewFile<'a, R: Files> {
    rt: &'a R,
    name: &'a str,
    beside: Option<&'a str>,
    file: Option<R::File>,
    faults: u64,
    pushes: u64,
}

impl<'a, R: Files> Model for NewFile<'a, R> {
    ghost Value = { SinkCounts };

    ghost view = { λ s. record { faults = s.faults; pushes = s.pushes } };
}

impl<'a, R: Files> NewFile<'a, R> {
    /// A sink over the file of this name, with the other beside it, and with all counts at 0.
    pub fn new(rt: &'a R, name: &'a str, beside: &'a str) -> Self
        ensures { result ≡ record { faults = 0; pushes = 0 } }
    {
        NewFile {
            rt,
            name,
            beside: if is_plain_or_absent(rt, name) {
                Some(beside)
            } else {
                None
            },
            file: None,
            faults: 0,
            pushes: 0,
        }
    }

    /// Gives the file beside it the name if the text is whole, and removes it if not. Where the name
    /// cannot be given it is removed too: a fault.
    pub fn close(&mut self, whole: bool) -> Result<(), SinkFailed>
        ensures later { self.old.faults ≤ self.new.faults }
        ensures failed { OnErr result (Rose self.old.faults self.new.faults) }
        ensures pushes { self.new.pushes ≡ self.old.pushes }
    {
        let Some(beside) = self.beside else {
            return Ok(());
        };
        if self.file.is_none() {
            return Ok(());
        }
        self.file = None;
        if whole && fs::rename(self.rt, beside, self.name).is_ok() {
            return Ok(());
        }
        let _ = fs::remove_file(self.rt, beside);
        if whole {
            self.faults = self.faults.saturating_add(1);
            return Err(SinkFailed);
        }
        Ok(())
    }
}

// Whether nothing stands under the name, or a plain file.
fn is_plain_or_absent<R: Files>(rt: &R, name: &str) -> bool {
    match fs::symlink_metadata(rt, name) {
        Ok(found) => found.is_file(),
        Err(_) => true,
    }
}

// One write, to the file that is open or is made.
fn write_once<R: Files>(
    rt: &R,
    name: &str,
    open: &mut Option<R::File>,
    piece: &[u8],
) -> io::Result<usize>
    ensures { IfOk result (λ n. n ≤ length piece.now) }
{
    if open.is_none() {
        *open = Some(fs::create(rt, name)?);
    }
    match open {
        Some(file) => file.write(piece),
        None => Ok(0),
    }
}

impl<R: Files> Sink for NewFile<'_, R> {
    ghost written = { λ _. None };

    ghost faults = { λ s. s.faults };

    ghost pushes = { λ s. s.pushes };

    fn push(&mut self, piece: &[u8]) -> Result<usize, SinkFailed> {
        self.pushes = self.pushes.saturating_add(1);
        let name = self.beside.unwrap_or(self.name);
        let taken = write_once(self.rt, name, &mut self.file, piece);
        if !matches!(taken, Ok(1..)) {
            self.faults = self.faults.saturating_add(1);
        }
        taken.map_err(|_| SinkFailed)
    }
}
