//! The store over files. It tells nothing of what they hold.
ghost use Rattle.std.specs.Prelude.{◌≡◌, ◌≤◌, None, length, IfOk};
ghost use Rattle.base_text.specs.store.FileStore.{StoreCounts};

use crate::store::store::{Store, StoreFailed};
use std::io::{Read, Seek, SeekFrom};
use std::marker::Model;
use std::rt::Files;
use std::{fs, io};

/// A store over the files of the system: each pull opens the named file, seeks and reads once.
///
/// Its one count of faults is the count of every name.
#[derive(Drop)]
pub struct FileStore<'a, R: Files> {
    rt: &'a R,
    faults: u64,
    given: u64,
    pulls: u64,
}

impl<'a, R: Files> Model for FileStore<'a, R> {
    ghost Value = { StoreCounts };

    ghost view = { λ s. record { faults = s.faults; given = s.given; pulls = s.pulls } };
}

impl<'a, R: Files> FileStore<'a, R> {
    /// A store over these files, with all counts at 0.
    pub fn new(rt: &'a R) -> Self
        ensures { result ≡ record { faults = 0; given = 0; pulls = 0 } }
    {
        FileStore {
            rt,
            faults: 0,
            given: 0,
            pulls: 0,
        }
    }
}

// One open, one seek and one read.
fn read_at<R: Files>(rt: &R, name: &str, from: u64, into: &mut [u8]) -> io::Result<usize>
    ensures { IfOk result (λ n. n ≤ length into.new) }
{
    let mut file = fs::open(rt, name)?;
    file.seek(SeekFrom::Start(from))?;
    file.read(into)
}

impl<R: Files> Store for FileStore<'_, R> {
    ghost held = { λ _ _. None };

    ghost faults = { λ s _. s.faults };

    ghost given = { λ s. s.given };

    ghost pulls = { λ s. s.pulls };

    fn pull(&mut self, name: &str, from: u64, into: &mut [u8]) -> Result<usize, StoreFailed> {
        self.pulls = self.pulls.saturating_add(1);
        match read_at(self.rt, name, from, into) {
            Ok(count) => {
                self.given = self.given.saturating_add(count as u64);
                Ok(count)
            }
            Err(_) => {
                self.faults = self.faults.saturating_add(1);
                Err(StoreFailed)
            }
        }
    }
}
