//! How many tables each array of tables has so far.

use base_memory::Memory;
use std::alloc::Global;

/// An array of tables: its path, and how many tables it has.
#[derive(Drop)]
struct Counter {
    path: Vec<u8>,
    count: u32,
}

/// The arrays of tables of a document, as far as it was read.
#[derive(Drop)]
pub struct Counters {
    all: Vec<Counter>,
}

impl Counters {
    /// None yet.
    pub fn new(alloc: Global) -> Counters {
        Counters {
            all: Vec::new(alloc),
        }
    }

    /// The number of the latest table of the array at this path, where there is one.
    pub fn latest(&self, path: &[u8]) -> Option<u32> {
        for counter in &self.all {
            if counter.path.as_slice() == path {
                return Some(counter.count.saturating_sub(1));
            }
        }
        None
    }

    /// The number of the next table of the array at this path.
    pub fn next(&mut self, alloc: Global, path: &[u8]) -> Result<u32, Memory> {
        for counter in self.all.iter_mut() {
            if counter.path.as_slice() == path {
                let number = counter.count;
                counter.count = number.saturating_add(1);
                return Ok(number);
            }
        }
        self.all.push(Counter {
            path: Vec::from_slice(alloc, path)?,
            count: 1,
        })?;
        Ok(0)
    }
}
