//! Sequences of values of a built-in type: their length in bytes, and how they are written and read.
ghost use Rattle.std.specs.Prelude.{◌≡◌, ◌≤◌, [], ◌++◌, pos, ℕ, List, Bool, Ok, Some, length, min, OnOk, OnErr, All, option_map};
ghost use Rattle.aidl_base.specs.Words.{word};
ghost use Rattle.aidl_base.specs.Spellings.{spell_sequence};
ghost use Rattle.aidl_base.specs.Readings.{items_at, sequence_at};
ghost use Rattle.parcel_words.specs.Place.{left, here, MovesOn};
ghost use Rattle.parcel_words.specs.Taken.{TakesIfMemory};
ghost use Rattle.parcel_words.specs.Written.{with_bytes};

use crate::fault::ReadFault;
use crate::reader::WordReader;
use crate::wire::Wire;
use crate::writer::WordWriter;
use aidl_base::Row;
use std::alloc::Global;

/// The number of bytes of the spelling of a sequence, its count included, or `usize::MAX` where they are more.
pub fn sequence_length<W: Wire>(items: &[W]) -> usize
    ensures { result ≡ min (length (spell_sequence W.spelling items.now)) usize.MAX }
{
    let mut len: usize = 4;
    for item in items {
        len = len.saturating_add(item.length());
    }
    len
}

/// Appends the number of items as a word, and the items.
pub fn put_sequence<W: Wire>(items: &[W], to: &mut WordWriter)
    requires few { length items.now ≤ 2147483647 }
    requires can { All W.can_put items.now }
    requires room { length (spell_sequence W.spelling items.now) ≤ to.old.room }
    ensures { to.new ≡ with_bytes to.old (spell_sequence W.spelling items.now) }
{
    to.count(items.len());
    for item in items {
        item.put(to);
    }
}

/// Takes a sequence, where None is null. It refuses as `word` does, by the rules for counts, and as an item is refused.
#[tactic(auto, using(crate::proofs::lemmas::Moves::on_and_on), unfolding(aidl_base::specs::Readings::sequence_at))]
pub fn take_sequence<W: Wire>(
    alloc: Global,
    nullable: bool,
    from: &mut WordReader,
) -> Result<Option<Row<W>>, ReadFault>
    ensures taken { TakesIfMemory (λ x. x) result
        (here (sequence_at (W.reading from.old.profile) nullable) from.old) (left from.new) }
    ensures passed { OnOk result (MovesOn from.old from.new) }
    ensures unchanged { OnErr result (from.new ≡ from.old) }
{
    let Some(count) = from.count(nullable)? else {
        return Ok(None);
    };
    match take_items(alloc, count, from) {
        Ok(items) => Ok(Some(items)),
        Err(fault) => {
            from.go_back(4);
            Err(fault)
        }
    }
}

/// Takes so many items, without a count before them. It refuses as an item is refused.
pub fn take_items<W: Wire>(
    alloc: Global,
    count: usize,
    from: &mut WordReader,
) -> Result<Row<W>, ReadFault>
    ensures taken { TakesIfMemory (λ x. x) result (here
        (λ inside. items_at (W.reading from.old.profile inside) count) from.old) (left from.new) }
    ensures passed { OnOk result (MovesOn from.old from.new) }
    ensures unchanged { OnErr result (from.new ≡ from.old) }
{
    let start = from.position();
    let items = take_each(alloc, count, from);
    if items.is_err() {
        from.go_back(from.position() - start);
    }
    items
}

/// Takes so many items, and stands after those that were taken.
fn take_each<W: Wire>(
    alloc: Global,
    count: usize,
    from: &mut WordReader,
) -> Result<Row<W>, ReadFault>
    ensures taken { TakesIfMemory (λ x. x) result (here
        (λ inside. items_at (W.reading from.old.profile inside) count) from.old) (left from.new) }
    ensures passed { MovesOn from.old from.new }
{
    let mut items = Row::new(alloc);
    for _ in 0..count {
        let item = W::take(alloc, from)?;
        items.push(item)?;
    }
    Ok(items)
}
