//! The items of a tree, sorted by file and place.
ghost use Rattle.std.specs.Prelude.{◌≡◌, map, IfOk};
ghost use Rattle.aidl_syntax.specs.Sources.{source_of};
ghost use Rattle.const_items.specs.Items as meant;
ghost use Rattle.const_items.specs.ItemViews.{item_of};

use crate::item::ItemRef;
use crate::listing::declared;
use aidl_base::OutOfMemory;
use aidl_names::Names;
use std::alloc::Global;
use std::collections::BTreeMap;

/// The items of a tree by file and place, the order of their numbers: initializers that are an expression, constants,
/// enumerators and members of brace lists (own).
#[tactic(auto, unfolding(crate::specs::Items::items))]
pub fn items<'a>(alloc: Global, names: &Names<'a>) -> Result<Vec<ItemRef<'a>>, OutOfMemory>
    ensures { IfOk result (λ all. map item_of all.items ≡ meant.items (map source_of names.now)) }
{
    let all = declared(alloc, names)?;
    let mut places = BTreeMap::new(alloc);
    for item in all.as_slice() {
        places.insert((item.file, item.place), *item)?;
    }
    Ok(places.into_values().collect(alloc)?)
}
