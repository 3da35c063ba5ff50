//! The store over files that reads each once. It tells nothing of what they hold.

ghost use Rattle.std.specs.Prelude.{◌≡◌, ◌<◌, ◌≤◌, None, length, IfOk};
ghost use Rattle.base_files.specs.Views.{StoreView};
ghost use Rattle.base_files.specs.declared.reason.Reason.TheVariants as reason;

use crate::kept::Kept;
use crate::reason::Reason;
use crate::reasoned::Reasoned;
use crate::same_file::is_same_file;
use base_text::store::{Store, StoreFailed};
use std::alloc::Global;
use std::marker::Model;
use std::rt::Files;
use std::{fs, io};

/// A store over the files of the system. Each is opened at its first pull, is read once, front to
/// back, and stays as it was then: a later pull gets what was read. So a pipe can be pulled again.
///
/// Its one count of faults is the count of every name.
#[derive(Drop)]
pub struct KeptStore<'a, R: Files> {
    rt: &'a R,
    alloc: Global,
    files: Vec<NamedFile<R::File>>,
    why: Reason,
    faults: u64,
    given: u64,
    pulls: u64,
}

// A file that was opened, under the name by which it was asked for.
#[derive(Drop)]
struct NamedFile<F: io::Read + Drop> {
    name: String,
    kept: Kept<F>,
}

impl<'a, R: Files> Model for KeptStore<'a, R> {
    ghost Value = { StoreView };

    ghost view = { λ s. record {
      why = s.why;
      faults = s.faults;
      given = s.given;
      pulls = s.pulls;
    } };
}

impl<'a, R: Files> KeptStore<'a, R> {
    /// A store over these files, of which none is opened yet, with all counts at 0.
    pub fn new(rt: &'a R, alloc: Global) -> Self
        ensures { result ≡ record { why = reason.Other; faults = 0; given = 0; pulls = 0 } }
    {
        KeptStore {
            rt,
            alloc,
            files: Vec::new(alloc),
            why: Reason::Other,
            faults: 0,
            given: 0,
            pulls: 0,
        }
    }

    /// The name under which a plain file was opened that has this name too, if one was.
    pub fn name_of_same(&self, name: &str) -> Option<&str> {
        for file in self.files.iter() {
            if is_same_file(self.rt, file.name.as_str(), name) {
                return Some(file.name.as_str());
            }
        }
        None
    }
}

// The place of the file of that name, which is opened where it has none yet.
fn place_of<R: Files>(
    rt: &R,
    alloc: Global,
    files: &mut Vec<NamedFile<R::File>>,
    name: &str,
) -> io::Result<usize>
    ensures { IfOk result (λ place. place < length files.new.items) }
{
    for (place, file) in files.iter().enumerate() {
        if file.name.as_str() == name {
            return Ok(place);
        }
    }
    let opened = NamedFile {
        name: String::from_str(alloc, name)?,
        kept: Kept::new(alloc, fs::open(rt, name)?),
    };
    files.push(opened)?;
    Ok(files.len() - 1)
}

// What a pull gives of the file of that name.
fn pull_named<R: Files>(
    rt: &R,
    alloc: Global,
    files: &mut Vec<NamedFile<R::File>>,
    name: &str,
    from: u64,
    into: &mut [u8],
) -> io::Result<usize>
    ensures { IfOk result (λ n. n ≤ length into.new) }
{
    let place = place_of(rt, alloc, files, name)?;
    files[place].kept.pull(from, into)
}

impl<R: Files> Store for KeptStore<'_, R> {
    ghost held = { λ _ _. None };

    ghost faults = { λ s _. s.faults };

    ghost given = { λ s. s.given };

    ghost pulls = { λ s. s.pulls };

    fn pull(&mut self, name: &str, from: u64, into: &mut [u8]) -> Result<usize, StoreFailed> {
        self.pulls = self.pulls.saturating_add(1);
        match pull_named(self.rt, self.alloc, &mut self.files, name, from, into) {
            Ok(count) => {
                self.given = self.given.saturating_add(count as u64);
                Ok(count)
            }
            Err(error) => {
                self.why = Reason::of(&error);
                self.faults = self.faults.saturating_add(1);
                Err(StoreFailed)
            }
        }
    }
}

impl<R: Files> Reasoned for KeptStore<'_, R> {
    ghost why = { λ s. s.why };

    fn reason(&self) -> Reason {
        self.why
    }
}
