//! Steps into a TOML document: what stands behind them, and the path that a reader writes of them.

ghost use Rattle.std.specs.Prelude.{◌≡◌, ◌∷◌, [], Some, is_some, option_map};
ghost use Rattle.toml.specs.View.{table_view, view};
ghost use Rattle.call_refused.specs.places.Entries.{has_entry, onward as onward_of, path_of as path_by};
ghost use Rattle.call_refused.specs.places.Entries.{reached, stepped};

use base_memory::Memory;
use file_document::Path;
use file_document::keys::find;
use std::alloc::Global;
use toml::{Table, Value};

/// A step to the value at a key of a table, or to an item of an array.
#[derive(Clone, Copy)]
pub enum Step<'a> {
    Key(&'a str),
    Item(usize),
}

// What stands one step further.
fn stepped<'a>(value: &'a Value, step: &Step<'_>) -> Option<&'a Value>
    ensures { option_map (λ v. view v.now) result ≡ stepped (view value.now) step.now }
{
    match step {
        Step::Key(key) => value.get(*key),
        Step::Item(i) => value.get(*i),
    }
}

// Whether something stands behind these steps from a value.
fn reaches(value: &Value, steps: &[Step<'_>]) -> bool
    ensures { result ≡ is_some (reached (Some (view value.now)) steps.now) }
{
    let mut here = value;
    for step in steps {
        match stepped(here, step) {
            Some(next) => here = next,
            None => return false,
        }
    }
    true
}

/// Whether the table has an entry behind these steps.
pub fn has_entry(top: &Table, steps: &[Step<'_>]) -> bool
    ensures { result ≡ has_entry (table_view top.now) steps.now }
{
    match steps {
        [] => true,
        [first, rest @ ..] => has_behind(top, first, rest),
    }
}

// The same behind a first step and the rest.
fn has_behind(top: &Table, first: &Step<'_>, rest: &[Step<'_>]) -> bool
    ensures { result ≡ has_entry (table_view top.now) (first.now ∷ rest.now) }
{
    match first {
        Step::Key(key) => match find(top, key) {
            Some(value) => reaches(value, rest),
            None => false,
        },
        Step::Item(_) => false,
    }
}

// The path of a step further.
fn onward(path: Path, step: &Step<'_>) -> Path
    ensures { result ≡ onward_of path step.now }
{
    match step {
        Step::Key(key) => path.key(key.as_bytes()),
        Step::Item(i) => path.item(*i),
    }
}

/// The path that a reader writes of these steps.
pub fn path_of(steps: &[Step<'_>]) -> Path
    ensures { result ≡ path_by [] steps.now }
{
    let mut path = Path::root();
    for step in steps {
        path = onward(path, step);
    }
    path
}

/// The steps of a path: what stands between its dots, and the numbers in brackets.
pub fn steps_in<'a>(alloc: Global, path: &'a str) -> Result<Vec<Step<'a>>, Memory> {
    let mut steps = Vec::new(alloc);
    for part in path.split('.') {
        push_part(&mut steps, part)?;
    }
    Ok(steps)
}

// Adds the key of a part of a path, and the numbers behind it.
fn push_part<'a>(steps: &mut Vec<Step<'a>>, part: &'a str) -> Result<(), Memory> {
    let mut is_key = true;
    for piece in part.split('[') {
        if is_key {
            is_key = false;
            steps.push(Step::Key(piece))?;
        } else if let Some(digits) = piece.strip_suffix(']') {
            steps.push(Step::Item(digits.parse::<usize>().unwrap_or(usize::MAX)))?;
        }
    }
    Ok(())
}
