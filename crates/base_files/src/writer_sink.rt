//! The sink over a writer that knows why a push failed. It tells nothing of what the writer took.

ghost use Rattle.std.specs.Prelude.{◌≡◌, ◌≤◌, None, length, IfOk};
ghost use Rattle.base_files.specs.Views.{SinkView};
ghost use Rattle.base_files.specs.declared.reason.Reason.TheVariants as reason;

use crate::reason::Reason;
use base_text::store::{Sink, SinkFailed};
use std::io;
use std::io::Write;
use std::marker::Model;

/// A sink over the writer of standard output or standard error: each push writes once and flushes.
#[derive(Drop)]
pub struct WriterSink<W: Write + Drop> {
    writer: W,
    why: Reason,
    faults: u64,
    pushes: u64,
}

impl<W: Write + Drop> Model for WriterSink<W> {
    ghost Value = { SinkView };

    ghost view = { λ s. record { why = s.why; faults = s.faults; pushes = s.pushes } };
}

impl<W: Write + Drop> WriterSink<W> {
    /// A sink over this writer, with all counts at 0.
    pub fn new(writer: W) -> Self
        ensures { result ≡ record { why = reason.Other; faults = 0; pushes = 0 } }
    {
        WriterSink {
            writer,
            why: Reason::Other,
            faults: 0,
            pushes: 0,
        }
    }

    /// Why the latest push that failed did so; `Other` before any.
    pub fn reason(&self) -> Reason
        ensures { result ≡ self.now.why }
    {
        self.why
    }
}

// One write and one flush.
fn write_once<W: Write + Drop>(writer: &mut W, piece: &[u8]) -> io::Result<usize>
    ensures { IfOk result (λ n. n ≤ length piece.now) }
{
    let count = writer.write(piece)?;
    writer.flush()?;
    Ok(count)
}

impl<W: Write + Drop> Sink for WriterSink<W> {
    ghost written = { λ _. None };

    ghost faults = { λ s. s.faults };

    ghost pushes = { λ s. s.pushes };

    fn push(&mut self, piece: &[u8]) -> Result<usize, SinkFailed> {
        self.pushes = self.pushes.saturating_add(1);
        let taken = write_once(&mut self.writer, piece);
        if !matches!(taken, Ok(1..)) {
            self.faults = self.faults.saturating_add(1);
        }
        if let Err(error) = &taken {
            self.why = Reason::of(error);
        }
        taken.map_err(|_| SinkFailed)
    }
}
