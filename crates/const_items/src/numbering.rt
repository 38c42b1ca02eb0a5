//! The numbers of items, and the look-up of an item by its place.
ghost use Rattle.std.specs.Prelude.{◌≡◌, ◌≤◌, ℕ, length, map, IfOk};
ghost use Rattle.indexmap.specs.IndexMap.{get};
ghost use Rattle.aidl_syntax.specs.Sources.{source_of};
ghost use Rattle.const_items.specs.Items as meant;
ghost use Rattle.const_items.specs.ItemViews.{item_of, same_place};

use crate::counted::law_count;
use crate::item::ItemRef;
use crate::order::items;
use aidl_base::OutOfMemory;
use aidl_names::Names;
use indexmap::IndexMap;
use std::alloc::Global;

/// The items of a tree in the order of their numbers, with a table of their places. They are at most 2^30.
#[derive(Drop)]
pub struct Items<'a> {
    list: Vec<ItemRef<'a>>,
    places: IndexMap<(u32, u32), usize>,
    ghost at: { (file place : ℕ) → get same_place places (file, place) ≡ meant.number_at (map item_of list.items) file place },
    ghost few: { length list.items ≤ 1073741824 },
}

/// The items of a tree, which have an outcome each.
pub fn number_items<'a>(alloc: Global, names: &Names<'a>) -> Result<Items<'a>, OutOfMemory>
    ensures { IfOk result (λ all. map item_of all.list.items
        ≡ meant.items (map source_of names.now)) }
{
    law_count(names);
    let list = items(alloc, names)?;
    let places = places(alloc, list.as_slice())?;
    Ok(Items { list, places })
}

impl<'a> Items<'a> {
    /// The items in the order of their numbers.
    pub fn list(&self) -> &[ItemRef<'a>]
        ensures { result.now ≡ self.now.list.items }
    {
        self.list.as_slice()
    }

    /// The number of the item with a place in a file.
    pub fn number_at(&self, file: u32, place: u32) -> Option<usize>
        ensures { result ≡ meant.number_at (map item_of self.now.list.items) file place }
    {
        self.places.get(&(file, place)).copied()
    }
}

// The number at each place, from the last item on, so that the first of a place stays.
fn places(alloc: Global, list: &[ItemRef<'_>]) -> Result<IndexMap<(u32, u32), usize>, OutOfMemory>
    ensures { IfOk result (λ places. (file place : ℕ) →
        get same_place places (file, place) ≡ meant.number_at (map item_of list.now) file place) }
{
    let mut places = IndexMap::new(alloc);
    for i in (0..list.len()).rev() {
        let item = &list[i];
        places.insert((item.file, item.place), i)?;
    }
    Ok(places)
}
