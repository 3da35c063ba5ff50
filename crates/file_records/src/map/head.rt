//! What a map says of its script.

ghost use Rattle.std.specs.Prelude.{◌≡◌, ◌<◌, ◌^◌, IfOk, map};
ghost use Rattle.toml.specs.View.{table_view};
ghost use Rattle.file_records.specs.map.Maps.{kind_at, top_keys, script_at};
ghost use Rattle.file_records.specs.map.Maps.{deadline_at, start_at};

use crate::map::instant::instant;
use file_document::keys::{number, text};
use file_document::words::{kind_of, plain_name};
use file_document::{DocumentFault, Path};
use model_line::{Kind, Line, Name};
use toml::Table;

#[tactic(auto, unfolding(crate::specs::map::Maps::kind_at))]
pub fn kind(top: &Table) -> Result<Kind, DocumentFault>
    ensures { result ≡ kind_at (table_view top.now) }
{
    let text = text(Path::root(), "kind", top)?;
    kind_of(Path::root().key(b"kind"), text)
}

/// The keys at the top.
pub fn top_keys(kind: Kind) -> &'static [&'static str]
    ensures { map (λ name. name.now) result.now ≡ top_keys kind }
{
    match kind {
        Kind::Internal => &["version", "script", "kind", "deadline", "start", "recorder"],
        Kind::External => &["version", "script", "kind", "start", "recorder"],
    }
}

/// The script's name, a plain one.
#[tactic(auto, unfolding(crate::specs::map::Maps::script_at))]
pub fn script(top: &Table) -> Result<Name, DocumentFault>
    ensures { result ≡ script_at (table_view top.now) }
{
    let text = text(Path::root(), "script", top)?;
    plain_name(Path::root().key(b"script"), text)
}

/// The deadline of an internal fault, a tick below the horizon; of an external one 0.
pub fn deadline(line: &Line, kind: Kind, top: &Table) -> Result<u32, DocumentFault>
    ensures { result ≡ deadline_at line.now kind (table_view top.now) }
{
    match kind {
        Kind::Internal => number(Path::root(), "deadline", 0, line.horizon - 1, top),
        Kind::External => Ok(0),
    }
}

/// The instant of tick 0.
#[tactic(auto, unfolding(crate::specs::map::Maps::start_at))]
pub fn start(top: &Table) -> Result<u128, DocumentFault>
    ensures value { result ≡ start_at (table_view top.now) }
    ensures early { IfOk result (λ n. n < 2 ^ 80) }
{
    let text = text(Path::root(), "start", top)?;
    instant(Path::root().key(b"start"), text.as_bytes())
}
