//! The law of unknown keys.

ghost use Rattle.std.specs.Prelude.{◌≡◌, ℕ, List, Some};
ghost use Rattle.toml.specs.View.{table_view};
ghost use Rattle.file_document.specs.{Keys.first_unknown, LeastUnknown.IsLeastUnknown};

use toml::Table;

/// The first unknown key of a table is the least by its bytes, since a table's keys ascend.
pub fn the_first_unknown_key_is_the_least(table: &Table)
    ensures { (known : List (List ℕ)) (key : List ℕ) →
        first_unknown known (table_view table.now) ≡ Some key →
        IsLeastUnknown known (table_view table.now) key }
{
    let _entries = table.iter();
}
