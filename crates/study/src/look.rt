//! Whether a table is told as columns, and with colours.

use call_words::{Call, Colors, Form, Look, is_table};
use std::os::unix::fs::FileTypeExt;
use std::{env, fs};

/// How the text of a call is told: as it is, or as columns, with colours or without.
#[derive(Clone, Copy)]
pub enum Shown {
    AsItIs,
    AsColumns { is_colored: bool },
}

/// How the text of a call is told on standard output.
pub fn shown_on_output(rt: &HostRuntime, call: &Call<'_>, look: Look) -> Shown {
    let is_terminal = is_terminal(rt);
    let is_columns = match look.form {
        Form::Csv => false,
        Form::Columns => true,
        Form::ByOutput => is_terminal,
    };
    let is_colored = match look.colors {
        Colors::Always => true,
        Colors::Never => false,
        Colors::ByOutput => is_terminal && env::var(rt, "NO_COLOR").is_err(),
    };
    told(call, is_columns, is_colored)
}

/// How it is told in a file.
pub fn shown_in_file(call: &Call<'_>, look: Look) -> Shown {
    let is_columns = match look.form {
        Form::Csv | Form::ByOutput => false,
        Form::Columns => true,
    };
    let is_colored = match look.colors {
        Colors::Always => true,
        Colors::Never | Colors::ByOutput => false,
    };
    told(call, is_columns, is_colored)
}

fn told(call: &Call<'_>, is_columns: bool, is_colored: bool) -> Shown {
    if is_columns && is_table(call) {
        Shown::AsColumns { is_colored }
    } else {
        Shown::AsItIs
    }
}

// Whether standard output is a device that takes characters, as a terminal is.
fn is_terminal(rt: &HostRuntime) -> bool {
    match fs::metadata(rt, "/dev/stdout") {
        Ok(found) => found.file_type().is_char_device(),
        Err(_) => false,
    }
}
