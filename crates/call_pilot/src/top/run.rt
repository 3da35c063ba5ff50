//! The command that the words are, over a store.
ghost use Rattle.std.specs.Prelude.{◌≡◌, OnOk, map, string_bytes};
ghost use Rattle.call_engine.specs.Calls.{Calls};
ghost use Rattle.call_pilot.specs.top.Words.{command_of, own_file as file_of_work};
ghost use Rattle.call_pilot.specs.top.Words.{one_file as one_file_command};
ghost use Rattle.call_pilot.specs.top.Words.{three_files as three_files_command};
ghost use Rattle.call_pilot.specs.top.Words.{two_files as two_files_command};
ghost use Rattle.call_pilot.specs.top.CommandView.{command_view, two_files_view};
ghost use Rattle.call_pilot.specs.{top.Call.Asked, top.Ends.EndsOf};
ghost use Rattle.call_answer.specs.Sinks.{sink_view};

use crate::top::dispatch::{no_file, one_file, three_files, two_files};
use crate::top::words::{Command, OneFile, ThreeFiles, TwoFiles, command_of_words};
use base_text::store::{Sink, Store};
use call_engine::Engine;
use call_files::{File, Status, Stop, fetch_file};
use std::alloc::Global;

/// All of the call but the line to err.
pub fn answer<G: Engine, S: Store, O: Sink>(
    alloc: Global,
    words: &[String],
    engine: &mut G,
    store: &mut S,
    out: &mut O,
) -> Result<Status, Stop>
    ensures ends { EndsOf (sink_view O.written O.faults) (command_of (map string_bytes words.now))
        (S.held store.old) (S.faults store.old) (S.faults store.new) out.old out.new result }
    ensures asked { OnOk result (Asked (command_of (map string_bytes words.now))
        (S.held store.old) (G.calls engine.old) (G.calls engine.new)) }
    ensures untouched { command_of (map string_bytes words.now) ≡ None → store.new ≡ store.old }
{
    match command_of_words(words) {
        None => Err(Stop::Usage),
        Some(command) => run(alloc, command, engine, store, out),
    }
}

// Fetches the files of the command in the order of its words, and does its work.
fn run<G: Engine, S: Store, O: Sink>(
    alloc: Global,
    command: Command<'_>,
    engine: &mut G,
    store: &mut S,
    out: &mut O,
) -> Result<Status, Stop>
    ensures asked { OnOk result (Asked (Some (command_view command.entry)) (S.held store.old)
        (G.calls engine.old) (G.calls engine.new)) }
    ensures ends { EndsOf (sink_view O.written O.faults) (Some (command_view command.entry))
        (S.held store.old) (S.faults store.old) (S.faults store.new) out.old out.new result }
{
    match command {
        Command::Bench(size) => no_file(alloc, size, engine, out),
        Command::OneFile { work, line } => run_one(alloc, work, line, store, out),
        Command::TwoFiles {
            work,
            line,
            scripts,
        } => run_two(alloc, work, line, scripts, engine, store, out),
        Command::ThreeFiles {
            work,
            line,
            scripts,
            third,
        } => run_three(alloc, work, line, scripts, third, engine, store, out),
    }
}

fn run_one<S: Store, O: Sink>(
    alloc: Global,
    work: OneFile,
    line: &str,
    store: &mut S,
    out: &mut O,
) -> Result<Status, Stop>
    ensures asked { OnOk result ((calls : Calls) →
        Asked (Some (one_file_command work line.now)) (S.held store.old) calls calls) }
    ensures ends { EndsOf (sink_view O.written O.faults) (Some (one_file_command work line.now))
        (S.held store.old) (S.faults store.old) (S.faults store.new) out.old out.new result }
{
    let line = fetch_file(alloc, store, File::Line, line)?;
    one_file(alloc, work, line.as_slice(), out)
}

fn run_two<G: Engine, S: Store, O: Sink>(
    alloc: Global,
    work: TwoFiles<'_>,
    line: &str,
    scripts: &str,
    engine: &mut G,
    store: &mut S,
    out: &mut O,
) -> Result<Status, Stop>
    ensures asked { OnOk result (Asked
        (Some (two_files_command (two_files_view work.entry) line.now scripts.now))
        (S.held store.old) (G.calls engine.old) (G.calls engine.new)) }
    ensures ends { EndsOf (sink_view O.written O.faults)
        (Some (two_files_command (two_files_view work.entry) line.now scripts.now))
        (S.held store.old) (S.faults store.old) (S.faults store.new) out.old out.new result }
{
    let line = fetch_file(alloc, store, File::Line, line)?;
    let scripts = fetch_file(alloc, store, File::Scripts, scripts)?;
    two_files(
        alloc,
        work,
        line.as_slice(),
        scripts.as_slice(),
        engine,
        out,
    )
}

fn run_three<G: Engine, S: Store, O: Sink>(
    alloc: Global,
    work: ThreeFiles,
    line: &str,
    scripts: &str,
    third: &str,
    engine: &mut G,
    store: &mut S,
    out: &mut O,
) -> Result<Status, Stop>
    ensures asked { OnOk result (Asked
        (Some (three_files_command work line.now scripts.now third.now))
        (S.held store.old) (G.calls engine.old) (G.calls engine.new)) }
    ensures ends { EndsOf (sink_view O.written O.faults)
        (Some (three_files_command work line.now scripts.now third.now))
        (S.held store.old) (S.faults store.old) (S.faults store.new) out.old out.new result }
{
    let line = fetch_file(alloc, store, File::Line, line)?;
    let scripts = fetch_file(alloc, store, File::Scripts, scripts)?;
    let third = fetch_file(alloc, store, own_file(work), third)?;
    three_files(
        alloc,
        work,
        line.as_slice(),
        scripts.as_slice(),
        third.as_slice(),
        engine,
        out,
    )
}

// The file of a command's own.
fn own_file(work: ThreeFiles) -> File
    ensures { result ≡ file_of_work work }
{
    match work {
        ThreeFiles::Play => File::Timings,
        ThreeFiles::Check => File::Cert,
        ThreeFiles::Match => File::Record,
        ThreeFiles::Recheck => File::Trees,
    }
}
