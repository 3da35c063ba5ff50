//! What is said of a fault of a map of records.

use crate::places::{last_key, table_of};
use crate::words::rules::{Rule, rule_in};
use crate::words::said::{Said, missing, words};
use file_document::DocumentFault;

const MAP: &[Rule] = &[
    Rule {
        key: "version",
        what: "the version of a map is 1",
        write: "version = 1",
    },
    Rule {
        key: "script",
        what: "a script has a name of 1 to 16 letters A to Z, a to z, digits, `_` and `-`",
        write: "script = \"E1\"",
    },
    Rule {
        key: "kind",
        what: "a fault is \"internal\" or \"external\"",
        write: "kind = \"internal\"",
    },
    Rule {
        key: "deadline",
        what: "a deadline is a whole number of ticks below the horizon of the line",
        write: "deadline = 60",
    },
    Rule {
        key: "start",
        what: "tick 0 is at a date and a time of day without an offset, of a year from 1000 on",
        write: "start = \"2026-03-05T12:00:00.1\"",
    },
    Rule {
        key: "recorder",
        what: "a map has 1 to 8 recorders, each a table of a list",
        write: "[[recorder]] before each",
    },
    Rule {
        key: "terminal",
        what: "a recorder is at a terminal of the line",
        write: "the name of that terminal in quotes",
    },
    Rule {
        key: "config",
        what: "a record is a configuration, whose name ends in .cfg, or one file, whose name ends in .cff",
        write: "config = \"west.cfg\"",
    },
    Rule {
        key: "date",
        what: "the order of a date is \"dmy\" or \"mdy\"",
        write: "date = \"mdy\"",
    },
    Rule {
        key: "shift_us",
        what: "a shift is a whole number of microseconds, at most a day",
        write: "shift_us = 0",
    },
    Rule {
        key: "loss",
        what: "losses are a table, with the names of other terminals as its keys",
        write: "loss = { east = \"!ROKB\" }",
    },
];

const SOURCE: Rule = Rule {
    key: "",
    what: "a signal is told by a digital channel, by its id or by # and its number, with ! before it where it is on while the channel is off, or by an array of these",
    write: "\"M2P\", \"#3\" or [\"50P\", \"50G\"]",
};

/// What is wrong at this path, and what to write.
pub fn map_said(fault: &DocumentFault, path: &[u8]) -> Said<'static> {
    let rule = rule_in(MAP, last_key(path)).unwrap_or(SOURCE);
    match fault {
        DocumentFault::Missing(_) => missing(rule.what, rule.write),
        _ => words(rule.what, rule.write),
    }
}

/// The keys of the table in which the key at this path of a map stands.
pub fn map_keys(path: &[u8]) -> &'static [&'static str] {
    match last_key(table_of(path)) {
        b"" => &["version", "script", "kind", "deadline", "start", "recorder"],
        b"recorder" => &[
            "terminal", "config", "date", "shift_us", "z1", "z2", "rv", "uv", "cur", "loss", "key",
            "trip",
        ],
        b"loss" => &[],
        _ => &["id", "inverted"],
    }
}

/// What else may stand there.
pub fn map_others(path: &[u8]) -> &'static str {
    if last_key(table_of(path)) == b"loss".as_slice() {
        "the name of another terminal"
    } else {
        ""
    }
}
