//! Of records: of the field, and of relays (COMTRADE).

ghost use Rattle.std.specs.Prelude.{◌≡◌, ◌≤◌, ◌<◌, IfOk, None, length};
ghost use Rattle.file_comtrade.specs.{Config.config_of, Sections.parts_of as parts_said};
ghost use Rattle.call_refused.specs.told.Told.{IsToldAt};
ghost use Rattle.call_lint.specs.lint.Outcomes.{IsSaid};
ghost use Rattle.call_inspect.specs.Found.{Against, IsRecordFound, config_outcome, one_file_outcome};
ghost use Rattle.call_inspect.specs.Grounds.{scripts_in};

use crate::alone::{without_line, without_scripts};
use crate::ground::{Ground, LineGround, few_scripts};
use base_memory::{Memory, Stopped};
use call_lint::lint::Linted;
use call_records::{config_spot, config_words, section_line};
use call_refused::places::place_of_line;
use call_refused::refused_record;
use call_refused::told::told;
use file_comtrade::{ConfigFault, column_in, parts_of, read_config};
use judge_match::matching::read_seen;
use std::alloc::Global;

/// What is found in a record of the field.
pub fn record_found(
    alloc: Global,
    ground: &Ground<'_, '_>,
    name: &str,
    bytes: &[u8],
) -> Result<Linted, Memory>
    requires { length bytes.now ≤ 1048576 }
    ensures found { IfOk result (λ linted.
        Against (IsRecordFound bytes.now) ground.now linted.outcome) }
    ensures said { IfOk result (λ linted.
        IsSaid name.now bytes.now linted.outcome linted.text.items) }
{
    match ground {
        Ground::Nothing => without_line(alloc, name, bytes),
        Ground::Refused => Ok(Linted::clean(alloc)),
        Ground::Line(own) => record_of(alloc, own, name, bytes),
    }
}

fn record_of(
    alloc: Global,
    own: &LineGround<'_, '_>,
    name: &str,
    bytes: &[u8],
) -> Result<Linted, Memory>
    requires { length bytes.now ≤ 1048576 }
    ensures found { IfOk result (λ linted.
        IsRecordFound bytes.now own.now.line (scripts_in own.now.scripts) linted.outcome) }
    ensures said { IfOk result (λ linted.
        IsSaid name.now bytes.now linted.outcome linted.text.items) }
{
    let Some(scripts) = few_scripts(own) else {
        return without_scripts(alloc, name, bytes);
    };
    match read_seen(alloc, &own.line, scripts, bytes) {
        Ok(_) => Ok(Linted::clean(alloc)),
        Err(Stopped::Memory) => Err(Memory),
        Err(Stopped::Fault(fault)) => {
            Ok(Linted::refused(refused_record(alloc, name, bytes, &fault)?))
        }
    }
}

/// What is found in a configuration.
pub fn config_found(alloc: Global, name: &str, bytes: &[u8]) -> Result<Linted, Memory>
    ensures found { IfOk result (λ linted.
        linted.outcome ≡ config_outcome (config_of None bytes.now)) }
    ensures said { IfOk result (λ linted.
        IsSaid name.now bytes.now linted.outcome linted.text.items) }
{
    config_within(alloc, name, bytes, bytes, 0)
}

// The same of a configuration that stands in a file behind so many lines.
fn config_within(
    alloc: Global,
    name: &str,
    bytes: &[u8],
    config: &[u8],
    before: usize,
) -> Result<Linted, Memory>
    ensures found { IfOk result (λ linted.
        linted.outcome ≡ config_outcome (config_of None config.now)) }
    ensures said { IfOk result (λ linted.
        IsSaid name.now bytes.now linted.outcome linted.text.items) }
{
    match read_config(alloc, config, None) {
        Ok(_) => Ok(Linted::clean(alloc)),
        Err(Stopped::Memory) => Err(Memory),
        Err(Stopped::Fault(why)) => {
            let line = config_line(alloc, name, bytes, config, before, why)?;
            match why {
                ConfigFault::OtherOrder { .. } => Ok(Linted::suspicious(line)),
                _ => Ok(Linted::refused(line)),
            }
        }
    }
}

// The line of a fault of a configuration that stands in a file behind so many lines.
fn config_line(
    alloc: Global,
    name: &str,
    bytes: &[u8],
    config: &[u8],
    before: usize,
    why: ConfigFault,
) -> Result<Vec<u8>, Memory>
    ensures { IfOk result (λ line. IsToldAt name.now bytes.now line.items) }
{
    let spot = config_spot(why);
    let column = column_in(config, spot.line.saturating_sub(1), spot.field);
    let at = place_of_line(bytes, before.saturating_add(spot.line))
        .saturating_add(column.saturating_sub(1))
        .min(bytes.len());
    told(
        alloc,
        name,
        bytes,
        at,
        rule_of(why),
        &[config_words(why).as_bytes()],
    )
}

// What is said before the words of a fault.
fn rule_of(why: ConfigFault) -> &'static str
    ensures { 0 < length result.now }
{
    match why {
        ConfigFault::OtherOrder { .. } => "warning: ",
        _ => "no configuration: ",
    }
}

/// What is found in a record in one file: in its sections, and then in its configuration.
pub fn one_file_found(alloc: Global, name: &str, bytes: &[u8]) -> Result<Linted, Memory>
    ensures found { IfOk result (λ linted.
        linted.outcome ≡ one_file_outcome (parts_said bytes.now)) }
    ensures said { IfOk result (λ linted.
        IsSaid name.now bytes.now linted.outcome linted.text.items) }
{
    match parts_of(alloc, bytes) {
        Ok(parts) => config_within(alloc, name, bytes, parts.config, parts.config_line),
        Err(Stopped::Memory) => Err(Memory),
        Err(Stopped::Fault(why)) => {
            let at = place_of_line(bytes, section_line(why));
            Ok(Linted::refused(told(alloc, name, bytes, at, SECTIONS, &[])?))
        }
    }
}

const SECTIONS: &str =
    "a record in one file has its configuration and then its data, each behind a line of its own; write --- file type: CFG ---, and --- file type: DAT ASCII --- or --- file type: DAT BINARY: N --- with the number of bytes behind it";
