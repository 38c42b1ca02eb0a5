//! The dependence of items on each other, as the edges of a graph.
ghost use Rattle.std.specs.Prelude.{◌≡◌, ◌<◌, ◌++◌, [], map, ℕ, IfOk, IfSome, OnOk};
ghost use Rattle.std.specs.List.{cons_option};
ghost use Rattle.aidl_names.specs.Refusals.{IsScope};
ghost use Rattle.aidl_syntax.specs.Sources.{source_of};
ghost use Rattle.graph_cycles.specs.Paths.{targets};
ghost use Rattle.const_items.specs.Dependence as meant;
ghost use Rattle.const_items.specs.Items.{items as items_of};
ghost use Rattle.const_items.specs.ItemViews.{item_of};

use crate::item::{ItemRef, WrittenRef};
use crate::named::names_in;
use crate::numbering::Items;
use crate::target::{number_of, target_of};
use aidl_base::{OutOfMemory, Row};
use aidl_names::Names;
use std::alloc::Global;

/// Of each item in order the numbers of those that it depends on, and whether a name in it has no meaning.
#[derive(Drop)]
pub struct Dependence {
    pub next: Vec<Row<u32>>,
    pub unknown: Vec<bool>,
}

/// What the items of a tree depend on (own, after AOSP, "AIDL language", "Constants"): each on the items that its names mean, and
/// an enumerator without an expression on the one before it.
pub fn dependence_of(
    alloc: Global,
    names: &Names<'_>,
    items: &Items<'_>,
) -> Result<Dependence, OutOfMemory>
    requires { map item_of items.now.list.items ≡ items_of (map source_of names.now) }
    ensures rows { IfOk result (λ all.
        all.next.items
        ≡ map (meant.depends_on (map source_of names.now)) (items_of (map source_of names.now))) }
    ensures next { IfOk result (λ all. (n : ℕ)
        → targets all.next.items n ≡ meant.next (map source_of names.now) n) }
    ensures unknown { IfOk result (λ all.
        all.unknown.items ≡ map (meant.has_unknown_name (map source_of names.now))
        (items_of (map source_of names.now))) }
{
    let list = items.list();
    let mut next = Vec::with_capacity(alloc, list.len())?;
    let mut unknown = Vec::with_capacity(alloc, list.len())?;
    for item in list {
        let (numbers, lacks) = of_item(alloc, names, items, item)?;
        next.push(Row::from_vec(numbers))?;
        unknown.push(lacks)?;
    }
    Ok(Dependence { next, unknown })
}

// What an item depends on, and whether a name in it has no meaning.
fn of_item(
    alloc: Global,
    names: &Names<'_>,
    items: &Items<'_>,
    item: &ItemRef<'_>,
) -> Result<(Vec<u32>, bool), OutOfMemory>
    requires scope { IsScope (map source_of names.now) item.now.file item.now.scope }
    requires items { map item_of items.now.list.items ≡ items_of (map source_of names.now) }
    ensures next { IfOk result (λ all. all.0.items
        ≡ meant.depends_on (map source_of names.now) (item_of item.now)) }
    ensures unknown { IfOk result (λ all. all.1
        ≡ meant.has_unknown_name (map source_of names.now) (item_of item.now)) }
{
    let inside = names_in(alloc, *item)?;
    let mut numbers = Vec::new(alloc);
    let mut unknown = false;
    for name in inside.as_slice() {
        let target = target_of(names, item, name);
        unknown |= target.is_none();
        add_found(number_of(items, target), &mut numbers)?;
    }
    add_before(items, item, &mut numbers)?;
    Ok((numbers, unknown))
}

// The enumerator before an item, where it depends on it.
fn add_before(
    items: &Items<'_>,
    item: &ItemRef<'_>,
    numbers: &mut Vec<u32>,
) -> Result<(), OutOfMemory>
    ensures { OnOk result (numbers.new.items ≡ numbers.old.items
        ++ meant.before_among (map item_of items.now.list.items)
        (item_of item.now) (item_of item.now).value) }
{
    match item.value {
        WrittenRef::After(place) => add_found(items.number_at(item.file, place), numbers),
        WrittenRef::Expression(_) => Ok(()),
        WrittenRef::First => Ok(()),
    }
}

fn add_found(found: Option<usize>, numbers: &mut Vec<u32>) -> Result<(), OutOfMemory>
    requires { IfSome found (λ n. n < 4294967296) }
    ensures { OnOk result (numbers.new.items ≡ numbers.old.items ++ cons_option found []) }
{
    match found {
        Some(number) => {
            numbers.push(number as u32)?;
            Ok(())
        }
        None => Ok(()),
    }
}
