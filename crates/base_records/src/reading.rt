//! What the records so far say.

ghost use Rattle.std.specs.Prelude.{◌≡◌, [], ◌++◌, None, IfOk, option_to_list};

use base_memory::Memory;
use std::alloc::Global;

/// The things that are finished, and the latest, to which a record adds.
#[derive(Drop)]
pub struct Reading<T: Drop> {
    pub done: Vec<T>,
    pub latest: Option<T>,
}

impl<T: Drop> Reading<T> {
    /// Before the first.
    pub fn new(alloc: Global) -> Reading<T>
        ensures done { result.done.items ≡ [] }
        ensures latest { result.latest ≡ None }
    {
        Reading {
            done: Vec::new(alloc),
            latest: None,
        }
    }

    /// All of them, in file order.
    pub fn finished(self) -> Result<Vec<T>, Memory>
        ensures { IfOk result (λ v. v.items ≡ self.done.items ++ option_to_list self.latest) }
    {
        let Reading { mut done, latest } = self;
        if let Some(last) = latest {
            done.push(last)?;
        }
        Ok(done)
    }
}
