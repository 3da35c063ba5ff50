//! Whether a file to write is one that the call reads.

use crate::told::tell_input;
use base_files::{KeptStore, is_same_file};
use call_words::{Call, inputs_of};

/// Whether the file of this name is one that the words of the call name, under this or another name;
/// then that is told.
pub fn is_input(rt: &HostRuntime, call: &Call<'_>, name: &str) -> bool {
    for input in inputs_of(call) {
        if let Some(input) = input
            && is_same_file(rt, input.name, name)
        {
            tell_input(rt, name, input.what);
            return true;
        }
    }
    false
}

/// Whether the file of this name is one that was read, as those that a map of records names; then that
/// is told.
pub fn was_read(rt: &HostRuntime, store: &KeptStore<'_, HostRuntime>, name: &str) -> bool {
    match store.name_of_same(name) {
        Some(read) => {
            tell_input(rt, name, read);
            true
        }
        None => false,
    }
}
