//! The order of the declarations in the schema.
ghost use Rattle.std.specs.Prelude.{◌≡◌, ◌≤◌, length, map, IfOk};
ghost use Rattle.declared_names.specs.Entries.{entry_of};
ghost use Rattle.tree_schema.specs.Numbers as meant;
ghost use Rattle.tree_schema.specs.TreeViews.{numbered_of};

use crate::tree::Placed;
use aidl_base::{OutOfMemory, joined_by_dots};
use declared_names::Found;
use std::alloc::Global;
use std::collections::BTreeMap;

/// The declarations of a tree in the order of a schema: by the bytes of their canonical names.
#[tactic(auto, unfolding(crate::specs::Numbers::sorted))]
pub fn in_schema_order<'a, 'b>(
    alloc: Global,
    found: &'a [Found<'b>],
) -> Result<Vec<Placed<'a, 'b>>, OutOfMemory>
    requires few { length found.now ≤ 16384 }
    ensures { IfOk result (λ all. map numbered_of all.items
        ≡ meant.sorted (map entry_of found.entry.now)) }
{
    let mut places = BTreeMap::new(alloc);
    for (i, f) in found.iter().enumerate() {
        let name = joined_by_dots(alloc, f.name.0.as_slice())?;
        let text = String::from_str(alloc, name.as_str())?;
        let placed = Placed {
            number: i as u32,
            found: f,
        };
        places.insert(text, placed)?;
    }
    Ok(places.into_values().collect(alloc)?)
}
