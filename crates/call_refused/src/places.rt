//! Places in the bytes of a file.
//!
//! - `place`: the line and the column of a byte, and the line as it stands; `bytes`: lines and bytes.
//! - `records`: where a record of a CSV file stands.
//! - `keys`: where a key of a TOML document stands; for this `scan` goes over it byte by byte, with
//!   `counters` of its arrays of tables and `path`, the paths of keys.
//! - `document`: where bytes cease to be TOML.
//! - `fault`: where what a fault names begins, which is checked by reading the bytes before and through
//!   its line; `steps`: the keys and numbers of a path.

mod bytes;
mod counters;
mod document;
mod fault;
mod keys;
mod path;
mod pieces;
mod place;
mod records;
mod scan;
mod steps;

pub use bytes::{first_line, has_byte};
pub use document::{TomlPlace, toml_place};
pub use fault::place_of_fault;
pub use keys::{place_of_key, place_of_table};
pub use path::{last_key, table_of};
pub use pieces::joint;
pub use place::{column, line_number, line_text, place_of_line};
pub use records::place_of_record;
