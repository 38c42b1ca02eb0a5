//! The numbers of declarations in the schema, by their numbers in the trees.
ghost use Rattle.std.specs.Prelude.{◌≡◌, ◌≤◌, ℕ, nat_eq, length, map, IfOk};
ghost use Rattle.std.specs.List.{position_from};
ghost use Rattle.indexmap.specs.IndexMap.{get};
ghost use Rattle.tree_schema.specs.Numbers.{has_number};
ghost use Rattle.tree_schema.specs.TreeViews.{numbered_of};

use crate::tree::Placed;
use aidl_base::OutOfMemory;
use indexmap::IndexMap;
use std::alloc::Global;

/// The place in a list of each declaration that stands there, by its number in the trees.
pub fn numbers_of(alloc: Global, all: &[Placed<'_, '_>]) -> Result<IndexMap<u32, u32>, OutOfMemory>
    requires few { length all.now ≤ 4294967296 }
    ensures { IfOk result (λ numbers. (n : ℕ)
        → get nat_eq numbers n ≡ position_from (has_number n) 0 (map numbered_of all.now)) }
{
    let mut numbers = IndexMap::new(alloc);
    for i in (0..all.len()).rev() {
        numbers.insert(all[i].number, i as u32)?;
    }
    Ok(numbers)
}
