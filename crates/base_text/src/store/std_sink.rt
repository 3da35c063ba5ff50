//! The sink over a writer. It tells nothing of what the writer took.
ghost use Rattle.std.specs.Prelude.{◌≡◌, ◌≤◌, None, length, IfOk};
ghost use Rattle.base_text.specs.store.StdSink.{SinkCounts};

use crate::store::sink::{Sink, SinkFailed};
use std::io;
use std::io::Write;
use std::marker::Model;

/// A sink over the writer of standard output or standard error: each push writes once and flushes.
#[derive(Drop)]
pub struct StdSink<W: Write + Drop> {
    writer: W,
    faults: u64,
    pushes: u64,
}

impl<W: Write + Drop> Model for StdSink<W> {
    ghost Value = { SinkCounts };

    ghost view = { λ s. record { faults = s.faults; pushes = s.pushes } };
}

impl<W: Write + Drop> StdSink<W> {
    /// A sink over this writer, with all counts at 0.
    pub fn new(writer: W) -> Self
        ensures { result ≡ record { faults = 0; pushes = 0 } }
    {
        StdSink {
            writer,
            faults: 0,
            pushes: 0,
        }
    }
}

// One write and one flush.
fn write_once<W: Write + Drop>(writer: &mut W, piece: &[u8]) -> io::Result<usize>
    ensures { IfOk result (λ n. n ≤ length piece.now) }
{
    let count = writer.write(piece)?;
    writer.flush()?;
    Ok(count)
}

impl<W: Write + Drop> Sink for StdSink<W> {
    ghost written = { λ _. None };

    ghost faults = { λ s. s.faults };

    ghost pushes = { λ s. s.pushes };

    fn push(&mut self, piece: &[u8]) -> Result<usize, SinkFailed> {
        self.pushes = self.pushes.saturating_add(1);
        let taken = write_once(&mut self.writer, piece);
        if !matches!(taken, Ok(1..)) {
            self.faults = self.faults.saturating_add(1);
        }
        taken.map_err(|_| SinkFailed)
    }
}
