//! Where the keys of a line's tables stand, in the document that the user wrote.

ghost use Rattle.std.specs.Prelude.{◌≡◌, [], map};
ghost use Rattle.toml.specs.{View.view, View.table_view, Data.no_members};
ghost use Rattle.base_memory.specs.Gives.{seen};
ghost use Rattle.file_document.specs.Paths.{under, numbered};
ghost use Rattle.file_line.specs.Places.{places_of, in_table, only_keys, key_value, key_text};

use file_document::keys::{find, required, text_of, unknown_key};
use file_document::{DocumentFault, Path};
use toml::{Table, Value};

/// Where the keys of a terminal's or a channel's table stand: what a table of its own has, in that
/// one, at its path; and every other key in the table at the other path. In a line file there is none of
/// its own: that table is empty.
#[derive(Drop)]
pub struct TablePlaces<'a> {
    pub own_path: Path,
    pub own: &'a Table,
    pub path: Path,
}

impl<'a> TablePlaces<'a> {
    /// The path of one of its keys.
    pub fn key(&self, key: &str) -> Path
        ensures { result ≡ (places_of self.now).key key.now }
    {
        if find(self.own, key).is_some() {
            self.own_path.key(key.as_bytes())
        } else {
            self.path.key(key.as_bytes())
        }
    }

    /// Refuses a key of the table that is not one of these.
    #[tactic(auto, unfolding(crate::specs::Places::only_keys))]
    pub fn only(&self, known: &[&str], table: &Table) -> Result<(), DocumentFault>
        ensures { result
            ≡ only_keys (places_of self.now) (map (λ name. name.now) known.now)
            (table_view table.now) }
    {
        match unknown_key(table, &[], known, &[]) {
            Some(key) => Err(DocumentFault::Unknown(self.key(key))),
            None => Ok(()),
        }
    }

    /// The value of a required key of the table.
    pub fn value<'b>(&self, key: &str, table: &'b Table) -> Result<&'b Value, DocumentFault>
        ensures { seen (λ v. view v.now) result
            ≡ key_value (places_of self.now) key.now (table_view table.now) }
    {
        required(self.key(key), find(table, key))
    }

    /// A required text of the table.
    #[tactic(auto, unfolding(crate::specs::Places::key_text))]
    pub fn text<'b>(&self, key: &str, table: &'b Table) -> Result<&'b str, DocumentFault>
        ensures { seen (λ t. t.now) result
            ≡ key_text (places_of self.now) key.now (table_view table.now) }
    {
        let value = self.value(key, table)?;
        text_of(self.key(key), value)
    }
}

/// In item i of an array at the top.
pub fn in_item<'a>(none: &'a Table, array: &str, i: usize) -> TablePlaces<'a>
    requires { table_view none.now ≡ no_members }
    ensures { places_of result ≡ in_table (numbered (under [] array.now) i) }
{
    let path = Path::root().key(array.as_bytes()).item(i);
    TablePlaces {
        own_path: path,
        own: none,
        path,
    }
}
