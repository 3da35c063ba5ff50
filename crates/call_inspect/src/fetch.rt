//! The files of the call.

ghost use Rattle.std.specs.Prelude.{◌≡◌, map};
ghost use Rattle.call_inspect.specs.Files.{FetchesAll, FetchesOne};

use crate::given::GivenFile;
use crate::halt::Halt;
use base_memory::Stopped;
use base_text::store::{FetchFault, Store, fetch};
use std::alloc::Global;

/// The most bytes of a file.
pub const MOST: u32 = 67_108_864;

/// The files of these names, in their order, each fetched once.
pub fn fetch_files<'a, S: Store>(
    alloc: Global,
    store: &mut S,
    names: &[&'a str],
) -> Result<Vec<GivenFile<'a>>, Halt>
    ensures { FetchesAll (S.held store.old) (S.faults store.old) (S.faults store.new)
        (map (λ name. name.now) names.now) result }
{
    let mut files = Vec::new(alloc);
    for place in 0..names.len() {
        let name = names[place];
        let bytes = fetch_one(alloc, store, name, place)?;
        files.push(GivenFile { name, bytes })?;
    }
    Ok(files)
}

// The bytes of a file; none where it has too many.
fn fetch_one<S: Store>(
    alloc: Global,
    store: &mut S,
    name: &str,
    place: usize,
) -> Result<Option<Vec<u8>>, Halt>
    ensures file { FetchesOne (S.held store.old) (S.faults store.old) (S.faults store.new) name.now
        place result }
    ensures held { S.held store.new ≡ S.held store.old }
{
    match fetch(alloc, store, name, MOST) {
        Ok(bytes) => Ok(Some(bytes)),
        Err(Stopped::Fault(FetchFault::TooLong)) => Ok(None),
        Err(Stopped::Fault(FetchFault::Failed)) => Err(Halt::Unread(place)),
        Err(Stopped::Memory) => Err(Halt::Memory),
    }
}
