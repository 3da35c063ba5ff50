//! The program `pilot`: the top call over files, standard output and standard error.
#![tactic(auto)]

ghost use Rattle.std.specs.Prelude.{◌≡◌};
ghost use Rattle.std.specs.Process.{exit_status};
ghost use Rattle.pilot.specs.Exit.{exit_number};

use base_text::store::{FileStore, StdSink};
use call_engine::NetEngine;
use call_files::Status;
use call_pilot::top::pilot;
use std::io::ErrorKind;
use std::process::ExitCode;
use std::rt::Env;
use std::{env, io};

// The words after the program's name.
fn words<R: Env + AllocGlobal>(rt: &R) -> io::Result<Vec<String>> {
    let mut all = env::args(rt)?;
    let _name = all.next();
    let words = all.collect(rt.alloc())?;
    Ok(words)
}

// The exit status of an answer, 0 to 8.
fn exit_code(status: Status) -> ExitCode
    ensures { exit_status result ≡ exit_number status }
{
    ExitCode::from(status as u8)
}

fn main(rt: HostRuntime) -> ExitCode {
    let words = match words(&rt) {
        Ok(words) => words,
        Err(error) => {
            if error.kind() == ErrorKind::OutOfMemory {
                return exit_code(Status::Memory);
            }
            // Words that are no text are no command.
            Vec::new(rt.alloc())
        }
    };
    let mut engine = NetEngine::new();
    let mut store = FileStore::new(&rt);
    let mut out = StdSink::new(rt.stdout());
    let mut err = StdSink::new(rt.stderr());
    let status = pilot(
        rt.alloc(),
        words.as_slice(),
        &mut engine,
        &mut store,
        &mut out,
        &mut err,
    );
    exit_code(status)
}
