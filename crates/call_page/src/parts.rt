//! The scripts of each fault.

ghost use Rattle.std.specs.Prelude.{◌≡◌, ◌≤◌, ◌<◌, ◌+◌, ◌^◌, IfOk, length};
ghost use Rattle.call_page.specs.Choices.{IsFaultOfScript};
ghost use Rattle.call_page.specs.Parts.{AreParts, IsPart, fault_name, swept_values};
ghost use Rattle.file_study.specs.sweeps.Places.{place_in};

use file_study::sweeps::{Group, place_of_script};
use model_line::{Memory, Script, name_of_script};
use std::alloc::Global;

/// So many scripts, one after another, from this place on.
#[derive(Clone, Copy)]
pub struct Part {
    pub start: usize,
    pub count: usize,
}

/// All scripts in parts, each of one group.
pub fn parts(alloc: Global, groups: &[Group], scripts: usize) -> Result<Vec<Part>, Memory>
    requires { scripts < 2 ^ 32 }
    ensures all { IfOk result (λ parts. AreParts groups.now scripts parts.items) }
    ensures few { IfOk result (λ parts. length parts.items ≤ scripts) }
{
    let mut parts = Vec::new(alloc);
    let mut start = 0;
    'parts: while start < scripts {
        let part = part_from(groups, start, scripts);
        parts.push(part)?;
        start += part.count;
    }
    Ok(parts)
}

// The part that begins at a script.
fn part_from(groups: &[Group], start: usize, scripts: usize) -> Part
    requires { start < scripts }
    ensures start { result.start ≡ start }
    ensures part { IsPart groups.now scripts result }
{
    let count = match place_of_script(groups, start) {
        Some(place) => (place.group.swept.len() - place.at).min(scripts - start),
        None => 1,
    };
    Part { start, count }
}

/// The number of the part that has a script.
pub fn part_of_script(parts: &[Part], script: usize) -> u32
    requires { length parts.now < 2 ^ 32 }
    ensures { IsFaultOfScript parts.now script result }
{
    for i in 0..parts.len() {
        let part = parts[i];
        if part.start <= script && script - part.start < part.count {
            return i as u32;
        }
    }
    parts.len() as u32
}

/// The values of the swept times of a script, in ticks.
pub fn swept(alloc: Global, groups: &[Group], script: usize) -> Result<Vec<u32>, Memory>
    ensures { IfOk result (λ values. values.items
        ≡ swept_values (place_in groups.now script)) }
{
    match place_of_script(groups, script) {
        Some(place) => {
            let values = Vec::from_slice(alloc, place.group.swept[place.at].as_slice())?;
            Ok(values)
        }
        None => Ok(Vec::new(alloc)),
    }
}

/// The name of the fault that begins with a script.
pub fn name_from(
    alloc: Global,
    groups: &[Group],
    scripts: &[Script],
    start: u32,
) -> Result<Vec<u8>, Memory>
    ensures { IfOk result (λ name. name.items ≡ fault_name groups.now scripts.now start) }
{
    let name = match place_of_script(groups, start as usize) {
        Some(place) => place.group.name.bytes(),
        None => name_of_script(scripts, start),
    };
    Ok(Vec::from_slice(alloc, name)?)
}
