//! What is said of a fault of a line file.

use crate::words::rules::line_rule;
use crate::words::said::{Said, missing, words};
use file_document::DocumentFault;

/// What is wrong at this path, and what to write.
pub fn line_said(fault: &DocumentFault, path: &[u8]) -> Said<'static> {
    let rule = line_rule(path);
    match fault {
        DocumentFault::Missing(_) => missing(rule.what, rule.write),
        DocumentFault::Twice(_) => twice_said(path),
        DocumentFault::Channels(_, _) => words(
            "each ordered pair of terminals needs a channel",
            "a table [[channel]] with from, to and delay",
        ),
        _ => words(rule.what, rule.write),
    }
}

fn twice_said(path: &[u8]) -> Said<'static> {
    if path.starts_with(b"channel") {
        return words(
            "a channel before it has the same ends",
            "one channel for each ordered pair of terminals",
        );
    }
    words("a terminal before it has this name", "another name")
}
