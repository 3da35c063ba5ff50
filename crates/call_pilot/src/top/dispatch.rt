//! The work of each command, over the bytes of its files.
ghost use Rattle.std.specs.Prelude.{◌≤◌, IfOk, OnOk, length};
ghost use Rattle.call_answer.specs.{Answers.Says, Sinks.sink_view, Study.IsStudy};
ghost use Rattle.call_engine.specs.Calls.{Calls};
ghost use Rattle.call_pilot.specs.top.Call.{answer_by, asks_by};
ghost use Rattle.call_pilot.specs.top.Reading.{bench as of_bench, no_other_file};
ghost use Rattle.call_pilot.specs.top.Reading.{one_file as of_one_file, three_files as of_three_files};
ghost use Rattle.call_pilot.specs.top.Reading.{two_files as of_two_files, third_file, work_of_one};
ghost use Rattle.call_pilot.specs.{top.Commands.answer, top.CommandView.two_files_view, top.Ends.Works};
ghost use Rattle.call_files.specs.Files.{limit_of};
ghost use Rattle.call_pilot.specs.top.Words.{own_file, margin as margin_words};
ghost use Rattle.call_pilot.specs.declared.top.words.ThreeFiles.TheVariants as three;

use crate::commands::{
    certify, check, line, margin, match_records, migrate, net, play, recheck, report, run_bench,
    split,
};
use crate::top::bench_size::BenchSize;
use crate::top::words::{OneFile, ThreeFiles, TwoFiles};
use base_text::store::Sink;
use call_answer::{Said, Study, put_said};
use call_engine::Engine;
use call_files::{Refusal, Status, Stop, ended, read_study};
use file_line::read_line;
use file_tables::timing::read_timings;
use judge_match::matching::read_seen;
use model_line::{Line, Memory};
use model_names::parameter_of_name;
use std::alloc::Global;

/// `bench` over its first scripts.
pub fn no_file<G: Engine, O: Sink>(
    alloc: Global,
    size: BenchSize,
    engine: &mut G,
    out: &mut O,
) -> Result<Status, Stop>
    ensures asked { OnOk result (asks_by (of_bench size.scripts)
        (G.calls engine.old) (G.calls engine.new)) }
    ensures works { Works (sink_view O.written O.faults) (answer_by (of_bench size.scripts))
        out.old out.new result }
{
    let said = run_bench::bench(alloc, size.scripts, engine)?;
    ended(put_said(out, &said))
}

/// A command over the bytes of a line file.
pub fn one_file<O: Sink>(
    alloc: Global,
    work: OneFile,
    line: &[u8],
    out: &mut O,
) -> Result<Status, Stop>
    ensures asked { OnOk result ((calls : Calls) →
        asks_by (of_one_file work line.now) calls calls) }
    ensures works { Works (sink_view O.written O.faults) (answer_by (of_one_file work line.now))
        out.old out.new result }
{
    let line = read_line(alloc, line)?;
    let said = said_of_line(alloc, work, &line)?;
    ended(put_said(out, &said))
}

fn said_of_line(alloc: Global, work: OneFile, of: &Line) -> Result<Said, Memory>
    ensures { IfOk result (Says (answer (work_of_one work of.now))) }
{
    match work {
        OneFile::Net => net::print_net(alloc, of),
        OneFile::Line => line::print_ticks(alloc, of),
        OneFile::Migrate => migrate::print_microseconds(alloc, of),
    }
}

/// A command over the bytes of a line file and a scripts file.
pub fn two_files<G: Engine, O: Sink>(
    alloc: Global,
    work: TwoFiles<'_>,
    line: &[u8],
    scripts: &[u8],
    engine: &mut G,
    out: &mut O,
) -> Result<Status, Stop>
    ensures asked { OnOk result
        (asks_by (of_two_files (two_files_view work.entry) line.now scripts.now)
        (G.calls engine.old) (G.calls engine.new)) }
    ensures works { Works (sink_view O.written O.faults)
        (answer_by (of_two_files (two_files_view work.entry) line.now scripts.now))
        out.old out.new result }
{
    let study = read_study(alloc, line, scripts)?;
    match work {
        TwoFiles::Certify => ended(certify::certify(alloc, &study, engine, out)),
        TwoFiles::Report => {
            let said = report::report(alloc, &study)?;
            ended(put_said(out, &said))
        }
        TwoFiles::Margin(parameter) => margin_of(alloc, &study, parameter, out),
        TwoFiles::Split(depth) => {
            let said = split::split(alloc, &study, depth.splits)?;
            ended(put_said(out, &said))
        }
    }
}

// `margin` of the parameter of that name.
fn margin_of<O: Sink>(
    alloc: Global,
    study: &Study,
    parameter: &str,
    out: &mut O,
) -> Result<Status, Stop>
    requires { IsStudy study.now }
    ensures { Works (sink_view O.written O.faults)
        (answer_by
        (no_other_file (margin_words parameter.now) study.now.line study.now.scripts.items))
        out.old out.new result }
{
    let Some(param) = parameter_of_name(&study.line, parameter.as_bytes()) else {
        return Err(Stop::Refused(Refusal::UnknownParameter));
    };
    let said = margin::margin(alloc, study, param)?;
    ended(put_said(out, &said))
}

/// A command over the bytes of a line file, a scripts file and a file of its own.
pub fn three_files<G: Engine, O: Sink>(
    alloc: Global,
    work: ThreeFiles,
    line: &[u8],
    scripts: &[u8],
    third: &[u8],
    engine: &mut G,
    out: &mut O,
) -> Result<Status, Stop>
    requires { length third.now ≤ limit_of (own_file work) }
    ensures asked { OnOk result (asks_by (of_three_files work line.now scripts.now third.now)
        (G.calls engine.old) (G.calls engine.new)) }
    ensures works { Works (sink_view O.written O.faults)
        (answer_by (of_three_files work line.now scripts.now third.now)) out.old out.new result }
{
    let study = read_study(alloc, line, scripts)?;
    match work {
        ThreeFiles::Play => play_timings(alloc, &study, third, engine, out),
        ThreeFiles::Check => {
            let said = check::check(alloc, &study, third, engine)?;
            ended(put_said(out, &said))
        }
        ThreeFiles::Match => match_record(alloc, &study, third, out),
        ThreeFiles::Recheck => {
            let said = recheck::recheck(alloc, &study, third)?;
            ended(put_said(out, &said))
        }
    }
}

// `play` over the bytes of a timings file.
fn play_timings<G: Engine, O: Sink>(
    alloc: Global,
    study: &Study,
    bytes: &[u8],
    engine: &mut G,
    out: &mut O,
) -> Result<Status, Stop>
    requires study { IsStudy study.now }
    requires short { length bytes.now ≤ 4194304 }
    ensures asked { OnOk result (asks_by
        (third_file three.Play bytes.now study.now.line study.now.scripts.items)
        (G.calls engine.old) (G.calls engine.new)) }
    ensures works { Works (sink_view O.written O.faults)
        (answer_by (third_file three.Play bytes.now study.now.line study.now.scripts.items))
        out.old out.new result }
{
    let timings = read_timings(alloc, &study.line, bytes)?;
    ended(play::play(alloc, study, timings.as_slice(), engine, out))
}

// `match` over the bytes of a record file.
fn match_record<O: Sink>(
    alloc: Global,
    study: &Study,
    bytes: &[u8],
    out: &mut O,
) -> Result<Status, Stop>
    requires study { IsStudy study.now }
    requires short { length bytes.now ≤ 1048576 }
    ensures { Works (sink_view O.written O.faults)
        (answer_by (third_file three.Match bytes.now study.now.line study.now.scripts.items))
        out.old out.new result }
{
    let records = read_seen(alloc, &study.line, study.scripts.as_slice(), bytes)?;
    let said = match_records::match_records(alloc, study, records.as_slice())?;
    ended(put_said(out, &said))
}
