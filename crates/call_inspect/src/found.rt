//! What is found in a file.

ghost use Rattle.std.specs.Prelude.{◌≡◌, ◌≤◌, IfOk, length};
ghost use Rattle.call_lint.specs.lint.Outcomes.{IsSaid};
ghost use Rattle.call_inspect.specs.{Found.IsFound, Found.IsFoundBy, Found.IsKindFound, Given.content};
ghost use Rattle.call_inspect.specs.Kinds.{kind_of as kind_in, limit_of as limit};

use crate::alone::without_kind;
use crate::fetch::MOST;
use crate::given::GivenFile;
use crate::ground::Ground;
use crate::kind::{Kind, kind_of};
use crate::records::{config_found, one_file_found, record_found};
use crate::tables::{map_found, scripts_found, timings_found};
use crate::texts::{certificate_found, splits_found, trees_found};
use base_memory::Memory;
use call_lint::lint::{Linted, lint_line_file, lint_study_file};
use call_refused::too_long;
use std::alloc::Global;

/// What is found in a file, and the text that tells it.
pub fn found_in(
    alloc: Global,
    ground: &Ground<'_, '_>,
    file: &GivenFile<'_>,
) -> Result<Linted, Memory>
    ensures found { IfOk result (λ linted. IsFound ground.now file.now linted.outcome) }
    ensures said { IfOk result (λ linted.
        IsSaid file.now.name.now (content file.now) linted.outcome linted.text.items) }
{
    match &file.bytes {
        Some(bytes) => found_by(
            alloc,
            ground,
            kind_of(file.name.as_bytes(), bytes.as_slice()),
            file.name,
            bytes.as_slice(),
        ),
        None => Ok(Linted::refused(too_long(alloc, file.name, &[], &(MOST as usize))?)),
    }
}

fn found_by(
    alloc: Global,
    ground: &Ground<'_, '_>,
    kind: Option<Kind>,
    name: &str,
    bytes: &[u8],
) -> Result<Linted, Memory>
    ensures found { IfOk result (λ linted. IsFoundBy kind ground.now bytes.now linted.outcome) }
    ensures said { IfOk result (λ linted.
        IsSaid name.now bytes.now linted.outcome linted.text.items) }
{
    let Some(kind) = kind else {
        return without_kind(alloc, name, bytes);
    };
    let limit = kind.limit();
    if limit < bytes.len() {
        return Ok(Linted::refused(too_long(alloc, name, bytes, &limit)?));
    }
    found_of_kind(alloc, ground, kind, name, bytes)
}

fn found_of_kind(
    alloc: Global,
    ground: &Ground<'_, '_>,
    kind: Kind,
    name: &str,
    bytes: &[u8],
) -> Result<Linted, Memory>
    requires { length bytes.now ≤ limit kind }
    ensures found { IfOk result (λ linted.
        IsKindFound kind ground.now bytes.now linted.outcome) }
    ensures said { IfOk result (λ linted.
        IsSaid name.now bytes.now linted.outcome linted.text.items) }
{
    match kind {
        Kind::Study => lint_study_file(alloc, bytes, name),
        Kind::Line => lint_line_file(alloc, bytes, name),
        Kind::Scripts => scripts_found(alloc, ground, name, bytes),
        Kind::Timings => timings_found(alloc, ground, name, bytes),
        Kind::Record => record_found(alloc, ground, name, bytes),
        Kind::Map => map_found(alloc, ground, name, bytes),
        Kind::Certificate => certificate_found(alloc, ground, name, bytes),
        Kind::Splits => splits_found(alloc, ground, name, bytes),
        Kind::Trees => trees_found(alloc, ground, name, bytes),
        Kind::Config => config_found(alloc, name, bytes),
        Kind::OneFile => one_file_found(alloc, name, bytes),
    }
}
