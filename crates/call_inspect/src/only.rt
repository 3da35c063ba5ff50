//! The only file of a kind.

ghost use Rattle.std.specs.Prelude.{◌≡◌, ◌<◌, IfSome, length, position};
ghost use Rattle.std.specs.List.{list_any};
ghost use Rattle.call_inspect.specs.Given.{has_a_line as is_line_file};
ghost use Rattle.call_inspect.specs.Given.{has_scripts as is_scripts_file, kind_in as kind_seen, only};

use crate::given::GivenFile;
use crate::kind::{Kind, kind_of};

/// Of what kind a file is.
pub fn kind_in(file: &GivenFile<'_>) -> Option<Kind>
    ensures { result ≡ kind_seen file.now }
{
    kind_of(file.name.as_bytes(), file.content())
}

fn has_a_line(file: &GivenFile<'_>) -> bool
    ensures { result ≡ is_line_file file.now }
{
    matches!(kind_in(file), Some(Kind::Study | Kind::Line))
}

fn has_scripts(file: &GivenFile<'_>) -> bool
    ensures { result ≡ is_scripts_file file.now }
{
    matches!(kind_in(file), Some(Kind::Scripts))
}

/// The place of the only study or line file.
pub fn only_line(files: &[GivenFile<'_>]) -> Option<usize>
    ensures is { result ≡ only is_line_file files.now }
    ensures within { IfSome result (λ i. i < length files.now) }
{
    let first = first_line(files)?;
    if has_any_line(&files[first + 1..]) {
        return None;
    }
    Some(first)
}

fn has_any_line(files: &[GivenFile<'_>]) -> bool
    ensures { result ≡ list_any is_line_file files.now }
{
    files.iter().any(|file| has_a_line(file))
}

fn first_line(files: &[GivenFile<'_>]) -> Option<usize>
    ensures is { result ≡ position is_line_file files.now }
    ensures within { IfSome result (λ i. i < length files.now) }
{
    files.iter().position(|file| has_a_line(file))
}

/// The place of the only file of scripts.
pub fn only_scripts(files: &[GivenFile<'_>]) -> Option<usize>
    ensures is { result ≡ only is_scripts_file files.now }
    ensures within { IfSome result (λ i. i < length files.now) }
{
    let first = first_scripts(files)?;
    if has_any_scripts(&files[first + 1..]) {
        return None;
    }
    Some(first)
}

fn has_any_scripts(files: &[GivenFile<'_>]) -> bool
    ensures { result ≡ list_any is_scripts_file files.now }
{
    files.iter().any(|file| has_scripts(file))
}

fn first_scripts(files: &[GivenFile<'_>]) -> Option<usize>
    ensures is { result ≡ position is_scripts_file files.now }
    ensures within { IfSome result (λ i. i < length files.now) }
{
    files.iter().position(|file| has_scripts(file))
}
