//! How often the members of a declaration are gone through one by one before a table of them is made.

use aidl_base::OutOfMemory;
use indexmap::IndexMap;
use std::alloc::Global;

/// So often the members of a declaration are gone through one by one before a table of them is made, and no table is made of
/// so few members.
pub const WALKS: usize = 16;

/// How often the members of each declaration were gone through, while one value is read or written. Any count would do: it
/// decides on time alone.
#[derive(Drop)]
pub struct Walks {
    counts: IndexMap<u32, usize>,
}

impl Walks {
    /// Of no declaration yet.
    pub fn new(alloc: Global) -> Walks {
        Walks {
            counts: IndexMap::new(alloc),
        }
    }

    /// Whether the members of a declaration are to be gone through once more, which is counted. It is an advice, and no clause binds it.
    pub fn is_walk(&mut self, decl: u32) -> Result<bool, OutOfMemory> {
        let count = match self.counts.get(&decl) {
            Some(count) => *count,
            None => 0,
        };
        if count < WALKS {
            self.counts.insert(decl, count + 1)?;
        }
        Ok(count < WALKS)
    }
}
