//! A play as a record: three files, or none.

use crate::call::made;
use crate::inputs::is_input;
use crate::status::{MEMORY, SINK, USAGE};
use crate::told::{tell, tell_unwritten};
use base_files::{KeptStore, NewFile};
use base_text::store::Store;
use call_ask::Ask;
use call_words::{Call, Event};
use std::fs;

// How each configuration and each map begins that is made here.
const CONFIG_FRONT: &[u8] = b"pilot,";

const MAP_FRONT: &[u8] = b"version = 1\nscript = ";

// The names of the three files.
#[derive(Drop)]
struct Names {
    config: String,
    samples: String,
    map: String,
}

impl Names {
    fn new(rt: &HostRuntime, begin: &str) -> Result<Self, std::alloc::AllocError> {
        Ok(Names {
            config: format!(in rt.alloc(); "{begin}.cfg")?,
            samples: format!(in rt.alloc(); "{begin}.dat")?,
            map: format!(in rt.alloc(); "{begin}.toml")?,
        })
    }

    fn all(&self) -> [&str; 3] {
        [
            self.config.as_str(),
            self.samples.as_str(),
            self.map.as_str(),
        ]
    }
}

/// The exit status of a play as a record, whose three files have names that begin so. All three are
/// made, or none.
pub fn to_three(rt: &HostRuntime, event: &Event<'_>) -> u8 {
    let Ok(names) = Names::new(rt, event.output) else {
        return MEMORY;
    };
    let call = Call::Study(event.config);
    for name in names.all() {
        if is_input(rt, &call, name) {
            return USAGE;
        }
    }
    if !event.is_forced
        && let Some(name) = strange_file(rt, &names)
    {
        tell_strange(rt, name);
        return USAGE;
    }
    written(rt, event, &names)
}

// A file of one of these names that was not made here: the data are taken for what their
// configuration is.
fn strange_file<'n>(rt: &HostRuntime, names: &'n Names) -> Option<&'n str> {
    let is_own = begins(rt, names.config.as_str(), CONFIG_FRONT);
    if !is_own {
        return names.all().into_iter().find(|name| is_there(rt, *name));
    }
    let map = names.map.as_str();
    if is_there(rt, map) && !begins(rt, map, MAP_FRONT) {
        return Some(map);
    }
    None
}

// Whether something has this name.
fn is_there(rt: &HostRuntime, name: &str) -> bool {
    fs::symlink_metadata(rt, name).is_ok()
}

// Whether a plain file of this name begins with these bytes.
fn begins(rt: &HostRuntime, name: &str, bytes: &[u8]) -> bool {
    let is_file = match fs::metadata(rt, name) {
        Ok(found) => found.is_file(),
        Err(_) => false,
    };
    let mut front = [0u8; 64];
    if !is_file {
        return false;
    }
    match KeptStore::new(rt, rt.alloc()).pull(name, 0, &mut front) {
        Ok(_) => front.starts_with(bytes),
        Err(_) => false,
    }
}

fn tell_strange(rt: &HostRuntime, name: &str) {
    tell(
        rt,
        &[
            b"study: --output: ",
            name.as_bytes(),
            b" is there, and no `comtrade export` made it; write another name, or --force\n",
        ],
    );
}

// The exit status once the three files are written, or none.
fn written(rt: &HostRuntime, event: &Event<'_>, names: &Names) -> u8 {
    let mut store = KeptStore::new(rt, rt.alloc());
    let mut config = NewFile::new(rt, rt.alloc(), names.config.as_str());
    let mut samples = NewFile::new(rt, rt.alloc(), names.samples.as_str());
    let mut map = NewFile::new(rt, rt.alloc(), names.map.as_str());
    let status = put(rt, 0, event.config, &mut store, &mut config);
    let status = put(rt, status, event.samples, &mut store, &mut samples);
    let status = put(rt, status, event.map, &mut store, &mut map);
    if status == 0 {
        return named(rt, &mut config, &mut samples, &mut map);
    }
    drop_unnamed(&mut config);
    drop_unnamed(&mut samples);
    drop_unnamed(&mut map);
    status
}

// The exit status once the text of one of the files is beside its name, or that of an earlier file,
// where one is not.
fn put(
    rt: &HostRuntime,
    before: u8,
    ask: Ask<'_>,
    store: &mut KeptStore<'_, HostRuntime>,
    file: &mut NewFile<'_, HostRuntime>,
) -> u8 {
    if before != 0 {
        return before;
    }
    let status = made(rt, &Call::Study(ask), store, file);
    if status == SINK {
        tell_unwritten(rt, file.name(), file.reason());
    }
    status
}

// The exit status once all three have their names, or none has.
fn named(
    rt: &HostRuntime,
    config: &mut NewFile<'_, HostRuntime>,
    samples: &mut NewFile<'_, HostRuntime>,
    map: &mut NewFile<'_, HostRuntime>,
) -> u8 {
    if !has_name(rt, config) {
        drop_unnamed(samples);
        drop_unnamed(map);
        return SINK;
    }
    if !has_name(rt, samples) {
        remove(rt, config);
        drop_unnamed(map);
        return SINK;
    }
    if !has_name(rt, map) {
        remove(rt, config);
        remove(rt, samples);
        return SINK;
    }
    0
}

// Gives a file its name, and says whether it has it. Where it has none that is told.
fn has_name(rt: &HostRuntime, file: &mut NewFile<'_, HostRuntime>) -> bool {
    match file.close(true) {
        Ok(()) => true,
        Err(_) => {
            tell_unwritten(rt, file.name(), file.reason());
            false
        }
    }
}

// Drops what stands beside the name of a file.
fn drop_unnamed(file: &mut NewFile<'_, HostRuntime>) {
    let _ = file.close(false);
}

// Removes a file that has its name.
fn remove(rt: &HostRuntime, file: &NewFile<'_, HostRuntime>) {
    let _ = fs::remove_file(rt, file.name());
}
