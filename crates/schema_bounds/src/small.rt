//! Which declarations have a default that isn't too large for E23.
ghost use Rattle.std.specs.Prelude.{◌≡◌, ◌&&◌, nat_le, length, map, IfOk};
ghost use Rattle.std.specs.List.{range_with_len};
ghost use Rattle.aidl_schema.specs.Sizes.{has_small_default};
ghost use Rattle.aidl_schema.specs.Valid.{one_of};

use crate::measure::Measure;
use crate::order::default_order;
use crate::places::number_at;
use crate::sizes::sizes;
use aidl_base::OutOfMemory;
use aidl_schema::Decl;
use std::alloc::Global;

/// Which declarations have a default of at most 32 levels and 512 nodes.
pub fn small_defaults(alloc: Global, decls: &[Decl]) -> Result<Vec<bool>, OutOfMemory>
    ensures { IfOk result (λ small. small.items
        ≡ map (λ n. has_small_default decls.now (one_of n)) (range_with_len 0 (length decls.now))) }
{
    let order = default_order(alloc, decls)?;
    let depths = sizes(alloc, Measure::Depth, decls, &order)?;
    let nodes = sizes(alloc, Measure::Nodes, decls, &order)?;
    let mut small = Vec::with_capacity(alloc, decls.len())?;
    for number in 0..decls.len() {
        small.push(is_small(number_at(&depths, number, 0), number_at(&nodes, number, 1)))?;
    }
    Ok(small)
}

fn is_small(depth: usize, nodes: usize) -> bool
    ensures { result ≡ (nat_le depth 32 && nat_le nodes 512) }
{
    depth <= 32 && nodes <= 512
}
