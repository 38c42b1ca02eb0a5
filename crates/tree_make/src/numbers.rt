//! Numbers in byte order of their decimals.
ghost use Rattle.std.specs.Prelude.{◌≡◌, IfOk, map};
ghost use Rattle.tree_make.specs.Made as meant;

use aidl_base::OutOfMemory;
use std::alloc::Global;
use std::collections::BTreeMap;

/// The numbers below `count`, in byte order of their decimals.
pub fn in_order(alloc: Global, count: u32) -> Result<Vec<u32>, OutOfMemory>
    ensures { IfOk result (λ numbers. numbers.items ≡ meant.in_order count) }
{
    let mut places = BTreeMap::new(alloc);
    for number in 0..count {
        let decimal = number.to_string(alloc)?;
        places.insert(decimal, number)?;
    }
    values_of(alloc, places)
}

// The numbers of a map, in its order.
fn values_of(alloc: Global, mut places: BTreeMap<String, u32>) -> Result<Vec<u32>, OutOfMemory>
    ensures { IfOk result (λ numbers. numbers.items ≡ map (λ e. e.1) places.entries) }
{
    let mut numbers = Vec::with_capacity(alloc, places.len())?;
    'places: while let Some((_, number)) = places.pop_first() {
        numbers.push(number)?;
    }
    Ok(numbers)
}
