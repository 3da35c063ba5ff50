//! The keys of a table and the values under them.

ghost use Rattle.std.specs.Prelude.{◌≡◌, ◌≤◌, ◌++◌, IfOk, map, option_map, length};
ghost use Rattle.std.specs.Str.{bytes_eq};
ghost use Rattle.std.specs.List.{list_any};
ghost use Rattle.toml.specs.{Data.get_member, View.view, View.table_view, View.items_view};
ghost use Rattle.base_memory.specs.Gives.{Gives, seen};
ghost use Rattle.model_line.specs.Settings.{time_key};
ghost use Rattle.file_document.specs.Keys.{document_of, opened, first_unknown, all_known, required};
ghost use Rattle.file_document.specs.Keys.{value_at, number_in, number_at};
ghost use Rattle.file_document.specs.Keys.{number_or_none, text_in, text_at, flag_or_false};
ghost use Rattle.file_document.specs.Keys.{array_in, array_at, table_in, table_or_none, member_of};
ghost use Rattle.file_document.specs.Keys.{array_or_none, none_unknown, counted};

use crate::fault::DocumentFault;
use crate::path::Path;
use base_memory::Stopped;
use model_line::{Name, Setting};
use std::alloc::Global;
use toml::{Table, Value};

/// The document's table.
pub fn open(alloc: Global, bytes: &[u8]) -> Result<Table, Stopped<DocumentFault>>
    ensures { Gives table_view result (opened (document_of bytes.now)) }
{
    let Ok(text) = std::str::from_utf8(bytes) else {
        return Err(Stopped::Fault(DocumentFault::NotToml));
    };
    match toml::table_from_str(alloc, text) {
        Ok(table) => Ok(table),
        Err(error) => {
            if error.is_memory() {
                return Err(Stopped::Memory);
            }
            Err(Stopped::Fault(DocumentFault::NotToml))
        }
    }
}

/// The value at a key.
pub fn find<'a>(table: &'a Table, key: &str) -> Option<&'a Value>
    ensures { option_map (λ v. view v.now) result ≡ get_member key.now (table_view table.now) }
{
    table.get(key)
}

fn is_among(known: &[&str], names: &[Name], key: &str) -> bool
    ensures { result
        ≡ list_any (λ name. bytes_eq name key.now) (map (λ name. name.now) known.now ++ names.now) }
{
    let named = known.contains(&key);
    named || is_name(names, key)
}

fn is_name(names: &[Name], key: &str) -> bool
    ensures { result ≡ list_any (λ name. bytes_eq name key.now) names.now }
{
    names.iter().any(|name| name.bytes() == key.as_bytes())
}

fn is_key_of(settings: &[Setting], key: &str) -> bool
    ensures { result ≡ list_any (λ setting. bytes_eq (time_key setting) key.now) settings.now }
{
    settings.iter().any(|setting| setting.key() == key)
}

fn is_known(settings: &[Setting], known: &[&str], names: &[Name], key: &str) -> bool
    ensures { result
        ≡ list_any (λ name. bytes_eq name key.now)
        (map time_key settings.now ++ (map (λ name. name.now) known.now ++ names.now)) }
{
    let timed = is_key_of(settings, key);
    timed || is_among(known, names, key)
}

/// The first key of a table, by its bytes, that is no setting's, none of these keys and no name.
pub fn unknown_key<'a>(
    table: &'a Table,
    settings: &[Setting],
    known: &[&str],
    names: &[Name],
) -> Option<&'a str>
    ensures { option_map (λ key. key.now) result
        ≡ first_unknown
        (map time_key settings.now ++ (map (λ name. name.now) known.now ++ names.now))
        (table_view table.now) }
{
    for (key, _value) in table {
        if !is_known(settings, known, names, key.as_str()) {
            return Some(key.as_str());
        }
    }
    None
}

/// Refuses a key of the table at the path that is not one of these.
#[tactic(auto, unfolding(crate::specs::Keys::all_known))]
pub fn only(path: Path, known: &[&str], names: &[Name], table: &Table) -> Result<(), DocumentFault>
    ensures { result ≡ all_known path (map (λ name. name.now) known.now ++ names.now)
        (table_view table.now) }
{
    match unknown_key(table, &[], known, names) {
        Some(key) => Err(DocumentFault::Unknown(path.key(key.as_bytes()))),
        None => Ok(()),
    }
}

/// Refuses a key of the table at the path that is not one of these settings'.
#[tactic(auto, unfolding(crate::specs::Keys::all_known))]
pub fn only_settings(path: Path, settings: &[Setting], table: &Table) -> Result<(), DocumentFault>
    ensures { result ≡ all_known path (map time_key settings.now) (table_view table.now) }
{
    match unknown_key(table, settings, &[], &[]) {
        Some(key) => Err(DocumentFault::Unknown(path.key(key.as_bytes()))),
        None => Ok(()),
    }
}

/// The value that has to stand at the path.
pub fn required<'a>(path: Path, value: Option<&'a Value>) -> Result<&'a Value, DocumentFault>
    ensures { seen (λ v. view v.now) result
        ≡ required path (option_map (λ v. view v.now) value.entry) }
{
    match value {
        Some(value) => Ok(value),
        None => Err(DocumentFault::Missing(path)),
    }
}

/// The value of a required key of the table at the path.
#[tactic(auto, unfolding(crate::specs::Keys::value_at))]
pub fn value<'a>(path: Path, key: &str, table: &'a Table) -> Result<&'a Value, DocumentFault>
    ensures { seen (λ v. view v.now) result ≡ value_at path key.now (table_view table.now) }
{
    required(path.key(key.as_bytes()), find(table, key))
}

/// A whole number in these bounds.
pub fn number_of(path: Path, least: u32, greatest: u32, value: &Value) -> Result<u32, DocumentFault>
    ensures value { result ≡ number_in path least greatest (view value.now) }
    ensures within { IfOk result (λ n. (least ≤ n) × (n ≤ greatest)) }
{
    let Some(number) = value.as_integer() else {
        return Err(DocumentFault::WrongKind(path));
    };
    match u32::try_from(number) {
        Ok(number) if least <= number && number <= greatest => Ok(number),
        _ => Err(DocumentFault::Range(path)),
    }
}

/// A required whole number in these bounds.
#[tactic(auto, unfolding(crate::specs::Keys::number_at))]
pub fn number(
    path: Path,
    key: &str,
    least: u32,
    greatest: u32,
    table: &Table,
) -> Result<u32, DocumentFault>
    ensures value { result ≡ number_at path key.now least greatest (table_view table.now) }
    ensures within { IfOk result (λ n. (least ≤ n) × (n ≤ greatest)) }
{
    let value = value(path, key, table)?;
    number_of(path.key(key.as_bytes()), least, greatest, value)
}

/// A whole number in these bounds that may be absent.
pub fn optional_number(
    path: Path,
    least: u32,
    greatest: u32,
    value: Option<&Value>,
) -> Result<Option<u32>, DocumentFault>
    ensures { result
        ≡ number_or_none path least greatest (option_map (λ v. view v.now) value.entry) }
{
    let Some(value) = value else {
        return Ok(None);
    };
    let number = number_of(path, least, greatest, value)?;
    Ok(Some(number))
}

/// A text.
pub fn text_of<'a>(path: Path, value: &'a Value) -> Result<&'a str, DocumentFault>
    ensures { seen (λ t. t.now) result ≡ text_in path (view value.now) }
{
    match value.as_str() {
        Some(text) => Ok(text),
        None => Err(DocumentFault::WrongKind(path)),
    }
}

/// A required text.
#[tactic(auto, unfolding(crate::specs::Keys::text_at))]
pub fn text<'a>(path: Path, key: &str, table: &'a Table) -> Result<&'a str, DocumentFault>
    ensures { seen (λ t. t.now) result ≡ text_at path key.now (table_view table.now) }
{
    let value = value(path, key, table)?;
    text_of(path.key(key.as_bytes()), value)
}

/// A truth value, false where the key is absent.
pub fn flag(path: Path, value: Option<&Value>) -> Result<bool, DocumentFault>
    ensures { result ≡ flag_or_false path (option_map (λ v. view v.now) value.entry) }
{
    let Some(value) = value else {
        return Ok(false);
    };
    match value.as_bool() {
        Some(flag) => Ok(flag),
        None => Err(DocumentFault::WrongKind(path)),
    }
}

/// The items of an array.
pub fn items_of<'a>(path: Path, value: &'a Value) -> Result<&'a [Value], DocumentFault>
    ensures { seen (λ vs. items_view vs.now) result ≡ array_in path (view value.now) }
{
    match value {
        Value::Array(items) => Ok(items.as_slice()),
        _ => Err(DocumentFault::WrongKind(path)),
    }
}

/// The items of a required array.
#[tactic(auto, unfolding(crate::specs::Keys::array_at))]
pub fn items<'a>(path: Path, key: &str, table: &'a Table) -> Result<&'a [Value], DocumentFault>
    ensures { seen (λ vs. items_view vs.now) result ≡ array_at path key.now (table_view table.now) }
{
    let value = value(path, key, table)?;
    items_of(path.key(key.as_bytes()), value)
}

/// The items of an array that may be absent.
pub fn optional_items<'a>(
    path: Path,
    value: Option<&'a Value>,
) -> Result<&'a [Value], DocumentFault>
    ensures { seen (λ vs. items_view vs.now) result
        ≡ array_or_none path (option_map (λ v. view v.now) value.entry) }
{
    match value {
        Some(value) => items_of(path, value),
        None => Ok(&[]),
    }
}

/// These items, where there are so many at least and so many at most.
pub fn counted<'a>(
    path: Path,
    least: usize,
    greatest: usize,
    items: &'a [Value],
) -> Result<&'a [Value], DocumentFault>
    ensures items { seen (λ vs. items_view vs.now) result
        ≡ counted path least greatest (items_view items.now) }
    ensures same { IfOk result (λ vs. vs.now ≡ items.now) }
    ensures count { IfOk result (λ vs. (least ≤ length vs.now) × (length vs.now ≤ greatest)) }
{
    if least <= items.len() && items.len() <= greatest {
        Ok(items)
    } else {
        Err(DocumentFault::Range(path))
    }
}

/// A table.
pub fn table_of<'a>(path: Path, value: &'a Value) -> Result<&'a Table, DocumentFault>
    ensures { seen (λ t. table_view t.now) result ≡ table_in path (view value.now) }
{
    match value {
        Value::Table(table) => Ok(table),
        _ => Err(DocumentFault::WrongKind(path)),
    }
}

/// A table that may be absent.
pub fn optional_table<'a>(
    path: Path,
    value: Option<&'a Value>,
) -> Result<Option<&'a Table>, DocumentFault>
    ensures { seen (option_map (λ t. table_view t.now)) result
        ≡ table_or_none path (option_map (λ v. view v.now) value.entry) }
{
    let Some(value) = value else {
        return Ok(None);
    };
    let table = table_of(path, value)?;
    Ok(Some(table))
}

/// The value at a key of a table that may be absent.
pub fn find_in<'a>(table: Option<&'a Table>, key: &str) -> Option<&'a Value>
    ensures { option_map (λ v. view v.now) result
        ≡ member_of key.now (option_map (λ t. table_view t.now) table.entry) }
{
    match table {
        Some(table) => find(table, key),
        None => None,
    }
}

/// Refuses a key that is not one of these, where there is a table.
pub fn only_in(
    path: Path,
    known: &[&str],
    names: &[Name],
    table: Option<&Table>,
) -> Result<(), DocumentFault>
    ensures { result ≡ none_unknown path (map (λ name. name.now) known.now ++ names.now)
        (option_map (λ t. table_view t.now) table.entry) }
{
    match table {
        Some(table) => only(path, known, names, table),
        None => Ok(()),
    }
}
