//! A file beside another one, whose name it may take.

use std::alloc::Global;
use std::fs::{Metadata, OpenFile, OpenOptions};
use std::io::ErrorKind;
use std::os::unix::fs::{OpenOptionsExt, PermissionsExt};
use std::rt::Files;
use std::{fs, io};

// How many names beside the file are tried.
const TRIES: u32 = 100;

/// A file of a name of its own, and the name that it is to take.
#[derive(Drop)]
pub struct Part {
    name: String,
    target: String,
}

impl Part {
    /// Makes a file beside the target, under the first name that nobody has: that of the target and
    /// `.part`, `.part1` and so on. If a plain file stands there already, it has to let itself be
    /// written, and the new one may be read and written by whom that one may.
    pub fn make<R: Files>(rt: &R, alloc: Global, target: String) -> io::Result<(Part, R::File)> {
        let found = fs::metadata(rt, target.as_str()).ok();
        if is_protected(found.as_ref()) {
            return Err(io::Error::from(ErrorKind::PermissionDenied));
        }
        for place in 0..TRIES {
            let name = name_beside(alloc, target.as_str(), place)?;
            match create_new(rt, name.as_str(), found.as_ref()) {
                Ok(file) => return Ok((Part { name, target }, file)),
                Err(error) if error.kind() == ErrorKind::AlreadyExists => {}
                Err(error) => return Err(error),
            }
        }
        Err(io::Error::from(ErrorKind::AlreadyExists))
    }

    /// Gives the file the name of the target. Where that cannot be, it stays as it is.
    pub fn take_name<R: Files>(&self, rt: &R) -> io::Result<()> {
        fs::rename(rt, self.name.as_str(), self.target.as_str())
    }

    /// Removes the file.
    pub fn remove<R: Files>(&self, rt: &R) -> io::Result<()> {
        fs::remove_file(rt, self.name.as_str())
    }
}

// Whether a file is there that nobody may write.
fn is_protected(found: Option<&Metadata>) -> bool {
    match found {
        Some(found) => found.permissions().readonly(),
        None => false,
    }
}

// The name that is tried at this place.
fn name_beside(alloc: Global, target: &str, place: u32) -> io::Result<String> {
    if place == 0 {
        return Ok(format!(in alloc; "{target}.part")?);
    }
    Ok(format!(in alloc; "{target}.part{place}")?)
}

// Makes a file of this name, which nobody has yet, with the permissions of the one that it is to
// replace, if there is one.
fn create_new<R: Files>(rt: &R, name: &str, found: Option<&Metadata>) -> io::Result<R::File> {
    let mut options = OpenOptions::new();
    options.write(true).create_new(true);
    let Some(found) = found else {
        return options.open(rt, name);
    };
    let permissions = found.permissions();
    options.mode(permissions.mode() & 0o777);
    let file = options.open(rt, name)?;
    // What the system takes off them is given back; where it keeps none, there is none to give.
    let _ = file.set_permissions(permissions);
    Ok(file)
}
