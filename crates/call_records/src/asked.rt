//! What is asked for, once the map is fetched.

use call_ask::RecordsWork;

/// What is to be made, and the map by which: its name and its bytes.
#[derive(Clone, Copy)]
pub struct Asked<'a> {
    pub work: RecordsWork,
    pub name: &'a str,
    pub bytes: &'a [u8],
}
