//! Lists that grow item by item, and remember a want of memory.
ghost use Rattle.std.specs.Prelude.{◌≡◌, [], ◌∷◌, false, true, IfOk, OnErr};
ghost use Rattle.growing.specs.Adds.{Adds};

use aidl_base::OutOfMemory;
use std::alloc::Global;

/// A list that grows item by item. Where memory is wanted for an item it isn't whole any more, whatever is added then, and who takes
/// the list is told; so no item has an error of its own.
pub struct GrowingList<T> {
    /// What was added.
    pub items: Vec<T>,
    /// Whether memory was there for each item.
    pub is_whole: bool,
}

// By hand, so that one who drops it meets one call.
impl<T: Drop> Drop for GrowingList<T> {
    fn drop(self) {
        let GrowingList {
            items: _,
            is_whole: _,
        } = self;
    }
}

impl<T> GrowingList<T> {
    /// The empty list.
    pub fn new(alloc: Global) -> GrowingList<T>
        ensures whole { result.is_whole ≡ true }
        ensures empty { result.items.items ≡ [] }
    {
        GrowingList {
            items: Vec::new(alloc),
            is_whole: true,
        }
    }

    /// Memory was wanted for an item, or for what it is made of.
    pub fn lose(&mut self)
        ensures { self.new.is_whole ≡ false }
    {
        self.is_whole = false;
    }

    /// What was added, as a slice.
    pub fn as_slice(&self) -> &[T]
        ensures { result.now ≡ self.now.items.items }
    {
        self.items.as_slice()
    }
}

impl<T: Drop> GrowingList<T> {
    /// Adds an item. Where memory is wanted for it, it is dropped.
    pub fn push(&mut self, item: T)
        ensures { Adds self.old self.new (item ∷ []) }
    {
        if self.items.push(item).is_err() {
            self.is_whole = false;
        }
    }

    /// The list, where memory was there for each item.
    pub fn into_vec(self) -> Result<Vec<T>, OutOfMemory>
        ensures list { IfOk result (λ list. (self.is_whole ≡ true) × (list.items ≡ self.items.items)) }
        ensures refused { OnErr result (self.is_whole ≡ false) }
    {
        let GrowingList { items, is_whole } = self;
        if is_whole {
            Ok(items)
        } else {
            Err(OutOfMemory)
        }
    }
}
