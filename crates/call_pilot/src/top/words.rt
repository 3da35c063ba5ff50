//! The words of a command.
ghost use Rattle.std.specs.Prelude.{◌≡◌, map, option_map, string_bytes};
ghost use Rattle.base_text.specs.store.Number.{number_of};
ghost use Rattle.call_pilot.specs.top.Words.{bench_size as size_of, bench, command_of};
ghost use Rattle.call_pilot.specs.top.Words.{split_depth as depth_of, split, two_files};
ghost use Rattle.call_pilot.specs.top.Words.{command_of_four as of_four, command_of_three as of_three};
ghost use Rattle.call_pilot.specs.top.Words.{command_of_two as of_two};
ghost use Rattle.call_pilot.specs.top.CommandView.{command_view};

use crate::top::bench_size::BenchSize;
use crate::top::split_depth::SplitDepth;
use base_text::store::number;

/// A command over a line file.
#[derive(Clone, Copy)]
pub enum OneFile {
    Net,
    Line,
    Migrate,
}

/// A command over a line file and a scripts file.
#[derive(Clone, Copy)]
pub enum TwoFiles<'a> {
    Certify,
    Report,
    /// Of the parameter of this name.
    Margin(&'a str),
    Split(SplitDepth),
}

/// A command over a line file, a scripts file and a file of its own.
#[derive(Clone, Copy)]
pub enum ThreeFiles {
    /// Its own file has timings.
    Play,
    /// Its own file is a certificate.
    Check,
    /// Its own file has records of the field.
    Match,
    /// Its own file has split trees.
    Recheck,
}

/// A command with the names of its files.
#[derive(Clone, Copy)]
pub enum Command<'a> {
    Bench(BenchSize),
    OneFile {
        work: OneFile,
        line: &'a str,
    },
    TwoFiles {
        work: TwoFiles<'a>,
        line: &'a str,
        scripts: &'a str,
    },
    ThreeFiles {
        work: ThreeFiles,
        line: &'a str,
        scripts: &'a str,
        third: &'a str,
    },
}

/// The command that the words are, if they are one.
pub fn command_of_words(words: &[String]) -> Option<Command<'_>>
    ensures { option_map command_view result ≡ command_of (map string_bytes words.now) }
{
    match words {
        [word, first] => command_of_two(word.as_str(), first.as_str()),
        [word, first, second] => {
            command_of_three(word.as_str(), first.as_str(), second.as_str())
        }
        [word, first, second, third] => command_of_four(
            word.as_str(),
            first.as_str(),
            second.as_str(),
            third.as_str(),
        ),
        _ => None,
    }
}

// The number of scripts of a bench, 1 to 64.
fn bench_size(word: &str) -> Option<BenchSize>
    ensures { option_map (λ size. size.scripts) result ≡ size_of (number_of word.now) }
{
    match number(word.as_bytes()) {
        Some(scripts) if scripts >= 1 && scripts <= 64 => Some(BenchSize { scripts }),
        _ => None,
    }
}

// `bench N`.
fn bench_command<'a>(word: &str) -> Option<Command<'a>>
    ensures { option_map command_view result ≡ option_map bench (size_of (number_of word.now)) }
{
    match bench_size(word) {
        Some(size) => Some(Command::Bench(size)),
        None => None,
    }
}

// The depth of a split, 0 to 8.
fn split_depth(word: &str) -> Option<SplitDepth>
    ensures { option_map (λ depth. depth.splits) result ≡ depth_of (number_of word.now) }
{
    match number(word.as_bytes()) {
        Some(splits) if splits <= 8 => Some(SplitDepth { splits }),
        _ => None,
    }
}

// `split LINE SCRIPTS DEPTH`.
fn split_command<'a>(line: &'a str, scripts: &'a str, word: &str) -> Option<Command<'a>>
    ensures { option_map command_view result
        ≡ option_map (λ n. two_files (split n) line.now scripts.now)
        (depth_of (number_of word.now)) }
{
    match split_depth(word) {
        Some(depth) => Some(Command::TwoFiles {
            work: TwoFiles::Split(depth),
            line,
            scripts,
        }),
        None => None,
    }
}

// `net LINE`, `line LINE`, `migrate LINE` and `bench N`.
fn command_of_two<'a>(word: &str, line: &'a str) -> Option<Command<'a>>
    ensures { option_map command_view result ≡ of_two word.now line.now }
{
    let work = if word == "net" {
        OneFile::Net
    } else if word == "line" {
        OneFile::Line
    } else if word == "migrate" {
        OneFile::Migrate
    } else if word == "bench" {
        return bench_command(line);
    } else {
        return None;
    };
    Some(Command::OneFile { work, line })
}

// `certify LINE SCRIPTS` and `report LINE SCRIPTS`.
fn command_of_three<'a>(word: &str, line: &'a str, scripts: &'a str) -> Option<Command<'a>>
    ensures { option_map command_view result ≡ of_three word.now line.now scripts.now }
{
    let work = if word == "certify" {
        TwoFiles::Certify
    } else if word == "report" {
        TwoFiles::Report
    } else {
        return None;
    };
    Some(Command::TwoFiles {
        work,
        line,
        scripts,
    })
}

// `play LINE SCRIPTS TIMINGS`, `check LINE SCRIPTS CERT`, `match LINE SCRIPTS RECORD`,
// `recheck LINE SCRIPTS TREES`, `margin LINE SCRIPTS PARAMETER` and `split LINE SCRIPTS DEPTH`.
fn command_of_four<'a>(
    word: &str,
    line: &'a str,
    scripts: &'a str,
    third: &'a str,
) -> Option<Command<'a>>
    ensures { option_map command_view result ≡ of_four word.now line.now scripts.now third.now }
{
    let work = if word == "play" {
        ThreeFiles::Play
    } else if word == "check" {
        ThreeFiles::Check
    } else if word == "match" {
        ThreeFiles::Match
    } else if word == "recheck" {
        ThreeFiles::Recheck
    } else if word == "margin" {
        return Some(Command::TwoFiles {
            work: TwoFiles::Margin(third),
            line,
            scripts,
        });
    } else if word == "split" {
        return split_command(line, scripts, third);
    } else {
        return None;
    };
    Some(Command::ThreeFiles {
        work,
        line,
        scripts,
        third,
    })
}
