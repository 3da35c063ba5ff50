//! The files of the call.

ghost use Rattle.std.specs.Prelude.{[], ◌≡◌, ◌≤◌, List, IfOk, length, map};
ghost use Rattle.file_records.specs.{map.Recorders.recorder_values};
ghost use Rattle.call_records.specs.{Beside.beside as name_beside, Halts.told_of};
ghost use Rattle.call_records.specs.Course.{Course, one_course, pair_course, recorder_course};
ghost use Rattle.call_records.specs.{Course.recorders_course, Parts.RecorderFiles as Files};
ghost use Rattle.call_records.specs.{Files.Fetches, Files.Leads, Read.files_values, Read.bytes_seen};
ghost use Rattle.call_records.specs.Read.{text_seen};

use crate::beside::beside;
use crate::halt::{File, Halt};
use crate::refusal::too_long;
use base_memory::Stopped;
use base_text::store::{FetchFault, Store, fetch};
use file_records::map::{Recorder, data_name, is_one_file};
use std::alloc::Global;

/// The most bytes of a line, a map or a configuration.
pub const SMALL: u32 = 1_048_576;
/// The most bytes of data.
pub const LARGE: u32 = 67_108_864;

/// A file of a recorder, by its name in the store.
#[derive(Drop)]
pub struct NamedBytes {
    pub name: Vec<u8>,
    pub bytes: Vec<u8>,
}

/// The files of a recorder.
#[derive(Drop)]
pub struct RecorderFiles {
    /// The configuration, or a record in one file.
    pub config: NamedBytes,
    /// The data; none of a record in one file.
    pub samples: Option<NamedBytes>,
}

/// The bytes of a file of that name.
pub fn fetch_file<S: Store>(
    alloc: Global,
    store: &mut S,
    file: File,
    name: &str,
    limit: u32,
) -> Result<Vec<u8>, Halt>
    requires { limit ≤ 67108864 }
    ensures file { Fetches (S.held store.old) (S.faults store.old) (S.faults store.new)
        (record { told = told_of file; name = name.now; limit = limit }) (text_seen result) }
    ensures held { S.held store.new ≡ S.held store.old }
{
    match fetch(alloc, store, name, limit) {
        Ok(bytes) => Ok(bytes),
        Err(Stopped::Fault(FetchFault::Failed)) => Err(Halt::Store(file)),
        Err(Stopped::Fault(FetchFault::TooLong)) => Err(too_long(alloc, name, limit)),
        Err(Stopped::Memory) => Err(Halt::Memory),
    }
}

// The bytes of a file that lies beside the map.
fn fetch_beside<S: Store>(
    alloc: Global,
    store: &mut S,
    map_name: &str,
    name: &[u8],
    limit: u32,
) -> Result<NamedBytes, Halt>
    requires { limit ≤ 67108864 }
    ensures file { Fetches (S.held store.old) (S.faults store.old) (S.faults store.new)
        (record {
          told = name_beside map_name.now name.now;
          name = name_beside map_name.now name.now;
          limit = limit;
        }) (bytes_seen result) }
    ensures named { IfOk result (λ f. f.name.items ≡ name_beside map_name.now name.now) }
    ensures held { S.held store.new ≡ S.held store.old }
{
    let name = beside(alloc, map_name.as_bytes(), name)?;
    // A name in TOML is text, and so is the name of a file: this cannot come.
    let Ok(text) = std::str::from_utf8(name.as_slice()) else {
        return Err(Halt::Memory);
    };
    match fetch(alloc, store, text, limit) {
        Ok(bytes) => Ok(NamedBytes { name, bytes }),
        Err(Stopped::Fault(FetchFault::Failed)) => Err(Halt::Store(File::Recorder(name))),
        Err(Stopped::Fault(FetchFault::TooLong)) => Err(too_long(alloc, text, limit)),
        Err(Stopped::Memory) => Err(Halt::Memory),
    }
}

// A configuration and its data.
fn fetch_pair<S: Store>(
    alloc: Global,
    store: &mut S,
    map_name: &str,
    recorder: &Recorder,
) -> Result<RecorderFiles, Halt>
    ensures course { (next : Files → Course) → Leads (S.held store.old) (S.faults store.old)
        (S.faults store.new) (pair_course map_name.now recorder.now.config.items next)
        (λ f. next (files_values f)) result }
    ensures held { S.held store.new ≡ S.held store.old }
{
    let config = fetch_beside(alloc, store, map_name, recorder.config.as_slice(), SMALL)?;
    let data = data_name(alloc, recorder)?;
    let samples = fetch_beside(alloc, store, map_name, data.as_slice(), LARGE)?;
    Ok(RecorderFiles {
        config,
        samples: Some(samples),
    })
}

// A record in one file.
fn fetch_one<S: Store>(
    alloc: Global,
    store: &mut S,
    map_name: &str,
    recorder: &Recorder,
) -> Result<RecorderFiles, Halt>
    ensures course { (next : Files → Course) → Leads (S.held store.old) (S.faults store.old)
        (S.faults store.new) (one_course map_name.now recorder.now.config.items next)
        (λ f. next (files_values f)) result }
    ensures held { S.held store.new ≡ S.held store.old }
{
    let config = fetch_beside(alloc, store, map_name, recorder.config.as_slice(), LARGE)?;
    Ok(RecorderFiles {
        config,
        samples: None,
    })
}

// The files of a recorder.
fn fetch_recorder<S: Store>(
    alloc: Global,
    store: &mut S,
    map_name: &str,
    recorder: &Recorder,
) -> Result<RecorderFiles, Halt>
    ensures course { (next : Files → Course) → Leads (S.held store.old) (S.faults store.old)
        (S.faults store.new) (recorder_course map_name.now (recorder_values recorder.now) next)
        (λ f. next (files_values f)) result }
    ensures held { S.held store.new ≡ S.held store.old }
{
    if is_one_file(recorder.config.as_slice()) {
        fetch_one(alloc, store, map_name, recorder)
    } else {
        fetch_pair(alloc, store, map_name, recorder)
    }
}

/// The files of all recorders, in the order of the map.
pub fn fetch_recorders<S: Store>(
    alloc: Global,
    store: &mut S,
    map_name: &str,
    recorders: &[Recorder],
) -> Result<Vec<RecorderFiles>, Halt>
    ensures course { (next : List Files → Course) → Leads (S.held store.old) (S.faults store.old)
        (S.faults store.new) (recorders_course map_name.now (map recorder_values recorders.now) []
        next) (λ v. next (map files_values v.items)) result }
    ensures many { IfOk result (λ v. length v.items ≡ length recorders.now) }
    ensures held { S.held store.new ≡ S.held store.old }
{
    let mut files = Vec::new(alloc);
    for recorder in recorders {
        let own = fetch_recorder(alloc, store, map_name, recorder)?;
        files.push(own)?;
    }
    Ok(files)
}
