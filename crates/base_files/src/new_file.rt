//! The sink over a file that takes its name when it is whole. It tells nothing of what the file took.

ghost use Rattle.std.specs.Prelude.{◌≡◌, ◌≤◌, None, length, IfOk, OnErr};
ghost use Rattle.base_text.specs.store.Counts.{Rose};
ghost use Rattle.base_files.specs.Views.{SinkView};
ghost use Rattle.base_files.specs.declared.reason.Reason.TheVariants as reason;

use crate::part::Part;
use crate::reason::Reason;
use base_text::store::{Sink, SinkFailed};
use std::alloc::Global;
use std::fs::OpenFile;
use std::io::{ErrorKind, Write};
use std::marker::Model;
use std::rt::Files;
use std::{fs, io};

/// A sink over a file of that name. What is pushed goes to a file beside it, which the first push
/// makes; `close` gives it the name. So until the call is done, and where it fails, a file of the
/// name is as it was. A link to a plain file stays, and the file that it leads to is replaced. What
/// stands under the name and is no plain file, as a device or a pipe, is written to itself.
#[derive(Drop)]
pub struct NewFile<'a, R: Files> {
    rt: &'a R,
    alloc: Global,
    name: &'a str,
    open: Option<Opened<R::File>>,
    why: Reason,
    faults: u64,
    pushes: u64,
}

// A file that is written, and the name that it is to take, if it stands beside that.
#[derive(Drop)]
struct Opened<F: Write + Drop> {
    file: F,
    part: Option<Part>,
}

impl<'a, R: Files> Model for NewFile<'a, R> {
    ghost Value = { SinkView };

    ghost view = { λ s. record { why = s.why; faults = s.faults; pushes = s.pushes } };
}

impl<'a, R: Files> NewFile<'a, R> {
    /// A sink over the file of this name, of which nothing is made yet, with all counts at 0.
    pub fn new(rt: &'a R, alloc: Global, name: &'a str) -> Self
        ensures { result ≡ record { why = reason.Other; faults = 0; pushes = 0 } }
    {
        NewFile {
            rt,
            alloc,
            name,
            open: None,
            why: Reason::Other,
            faults: 0,
            pushes: 0,
        }
    }

    /// The name.
    pub fn name(&self) -> &'a str {
        self.name
    }

    /// Why the latest push or the close failed; `Other` before any did.
    pub fn reason(&self) -> Reason
        ensures { result ≡ self.now.why }
    {
        self.why
    }

    /// Gives the file beside it the name if the text is whole, and removes it if not. A text that is
    /// empty makes an empty file. Where the name cannot be given the file beside it is removed too: a
    /// fault.
    pub fn close(&mut self, whole: bool) -> Result<(), SinkFailed>
        ensures later { self.old.faults ≤ self.new.faults }
        ensures failed { OnErr result (Rose self.old.faults self.new.faults) }
        ensures pushes { self.new.pushes ≡ self.old.pushes }
    {
        let open = self.open.take();
        let closed = if whole {
            finish(self.rt, self.alloc, self.name, open)
        } else {
            discard(self.rt, open);
            Ok(())
        };
        match closed {
            Ok(()) => Ok(()),
            Err(error) => {
                self.why = Reason::of(&error);
                self.faults = self.faults.saturating_add(1);
                Err(SinkFailed)
            }
        }
    }
}

// Opens what a text of this name goes to.
fn open<R: Files>(rt: &R, alloc: Global, name: &str) -> io::Result<Opened<R::File>> {
    let Some(target) = target_of(rt, alloc, name)? else {
        return Ok(Opened {
            file: fs::create(rt, name)?,
            part: None,
        });
    };
    let (part, file) = Part::make(rt, alloc, target)?;
    Ok(Opened {
        file,
        part: Some(part),
    })
}

// The name of the plain file that is to be replaced or made; none where something else has the name.
fn target_of<R: Files>(rt: &R, alloc: Global, name: &str) -> io::Result<Option<String>> {
    let is_link = match fs::symlink_metadata(rt, name) {
        Ok(found) => found.is_symlink(),
        Err(_) => false,
    };
    match fs::metadata(rt, name) {
        Ok(found) if found.is_dir() => Err(io::Error::from(ErrorKind::IsADirectory)),
        Ok(found) if !found.is_file() => Ok(None),
        Ok(_) if is_link => Ok(Some(rt.canonicalize(alloc, name)?.into_string())),
        Err(_) if is_link => Ok(None),
        _ => Ok(Some(String::from_str(alloc, name)?)),
    }
}

// Gives what is written its name; where that cannot be, removes it.
fn finish<R: Files>(
    rt: &R,
    alloc: Global,
    name: &str,
    opened: Option<Opened<R::File>>,
) -> io::Result<()> {
    let Opened { file, part } = match opened {
        Some(opened) => opened,
        None => open(rt, alloc, name)?,
    };
    let Some(part) = part else {
        return Ok(());
    };
    let named = named(rt, &file, &part);
    if named.is_err() {
        let _ = part.remove(rt);
    }
    named
}

// Gives a file its name once the system has all of it.
fn named<R: Files>(rt: &R, file: &R::File, part: &Part) -> io::Result<()> {
    file.sync_all()?;
    part.take_name(rt)
}

// Removes what is written, if it stands beside its name.
fn discard<R: Files>(rt: &R, opened: Option<Opened<R::File>>) {
    let Some(Opened { file: _, part }) = opened else {
        return;
    };
    if let Some(part) = part {
        let _ = part.remove(rt);
    }
}

// One write, to the file that is open or is opened.
fn write_once<R: Files>(
    rt: &R,
    alloc: Global,
    name: &str,
    opened: &mut Option<Opened<R::File>>,
    piece: &[u8],
) -> io::Result<usize>
    ensures { IfOk result (λ n. n ≤ length piece.now) }
{
    if opened.is_none() {
        *opened = Some(open(rt, alloc, name)?);
    }
    match opened {
        Some(opened) => opened.file.write(piece),
        None => Ok(0),
    }
}

impl<R: Files> Sink for NewFile<'_, R> {
    ghost written = { λ _. None };

    ghost faults = { λ s. s.faults };

    ghost pushes = { λ s. s.pushes };

    fn push(&mut self, piece: &[u8]) -> Result<usize, SinkFailed> {
        self.pushes = self.pushes.saturating_add(1);
        let taken = write_once(self.rt, self.alloc, self.name, &mut self.open, piece);
        if !matches!(taken, Ok(1..)) {
            self.faults = self.faults.saturating_add(1);
        }
        if let Err(error) = &taken {
            self.why = Reason::of(error);
        }
        taken.map_err(|_| SinkFailed)
    }
}
