//! Items that are noted one after the other, and why no further one is.
ghost use Rattle.std.specs.Prelude.{◌≡◌, ◌∷◌, ◌++◌, ◌^◌, ◌<◌, [], OnOk};
ghost use Rattle.parcel_explain.specs.steps.Notes.{IsWrong, unplaced, unplaced_some};

use crate::item::{Item, ItemKind};
use crate::paths::Spot;
use aidl_base::{OutOfMemory, Row, Text};
use parcel_words::ReadFault;

/// Why no further items are noted.
#[derive(Drop)]
pub enum Stopped {
    /// An item is wrong: the path of the value that it is of, and the status that reading it answers.
    Wrong { path: Text, status: i32 },
    /// Memory was wanted for an item or a path.
    OutOfMemory,
}

impl From<OutOfMemory> for Stopped {
    ghost use Rattle.parcel_explain.specs.declared.noting.Stopped.TheVariants.{OutOfMemory as Lost};

    ghost from_gives = { λ _ stopped. stopped ≡ Lost };

    fn from(_fault: OutOfMemory) -> Stopped {
        Stopped::OutOfMemory
    }
}

/// Adds an item of so many bytes behind the others. Its offset is set once all items are known. It answers only want of memory.
pub fn push(
    spot: &Spot<'_>,
    kind: ItemKind,
    length: usize,
    items: &mut Row<Item>,
) -> Result<(), OutOfMemory>
    requires { length < 2 ^ 32 }
    ensures { OnOk result (items.new ≡ items.old ++ unplaced spot.now.path.now kind length ∷ []) }
{
    let path = spot.path.try_clone(spot.alloc)?;
    push_with(path, kind, length, items)
}

/// The same with a path that becomes the item's.
pub fn push_with(
    path: Text,
    kind: ItemKind,
    length: usize,
    items: &mut Row<Item>,
) -> Result<(), OutOfMemory>
    requires { length < 2 ^ 32 }
    ensures { OnOk result (items.new ≡ items.old ++ unplaced path kind length ∷ []) }
{
    items.push(Item {
        offset: 0,
        length: length as u32,
        path,
        kind,
    })?;
    Ok(())
}

/// Why noting ends at a value whose item can't be read: the value's path, and the status of the fault. It takes memory for the path.
pub fn stop_at(spot: &Spot<'_>, fault: ReadFault) -> Stopped
    ensures { IsWrong spot.now.path.now fault result }
{
    match spot.path.try_clone(spot.alloc) {
        Ok(path) => stop_with(path, fault),
        Err(_) => Stopped::OutOfMemory,
    }
}

/// The same with a path that is handed on.
pub fn stop_with(path: Text, fault: ReadFault) -> Stopped
    ensures { IsWrong path fault result }
{
    match fault.status() {
        Some(status) => Stopped::Wrong { path, status },
        None => Stopped::OutOfMemory,
    }
}

/// Adds an item of so many bytes behind the others, and none of no bytes. It answers only want of memory.
pub fn push_some(
    spot: &Spot<'_>,
    kind: ItemKind,
    length: usize,
    items: &mut Row<Item>,
) -> Result<(), OutOfMemory>
    requires { length < 2 ^ 32 }
    ensures { OnOk result (items.new ≡ items.old ++ unplaced_some spot.now.path.now kind length) }
{
    if length == 0 {
        return Ok(());
    }
    push(spot, kind, length, items)
}
