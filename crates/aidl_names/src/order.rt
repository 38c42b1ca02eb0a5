//! Breaches in their order.
ghost use Rattle.std.specs.Prelude.{◌≡◌, map, IfOk};
ghost use Rattle.aidl_names.specs.Breaches.{in_order};
ghost use Rattle.aidl_names.specs.Places.{breach_of};

use aidl_base::{Breach, OutOfMemory, Row};
use std::alloc::Global;
use std::collections::BTreeSet;

// Where a breach is, and its rule; ordered by these fields from first to last.
#[derive(Clone, Copy, PartialEq, Eq, PartialOrd, Ord)]
struct Place {
    file: u32,
    offset: u32,
    rule: u8,
}

/// Breaches sorted by file, offset and rule, each once.
pub fn in_order(alloc: Global, rows: &[Breach]) -> Result<Row<Breach>, OutOfMemory>
    ensures { IfOk result (λ sorted. sorted ≡ in_order rows.now) }
{
    let mut places = BTreeSet::new(alloc);
    for row in rows {
        places.insert(Place {
            file: row.file,
            offset: row.offset,
            rule: row.rule,
        })?;
    }
    rows_of(alloc, places)
}

fn rows_of(alloc: Global, mut places: BTreeSet<Place>) -> Result<Row<Breach>, OutOfMemory>
    ensures { IfOk result (λ rows. rows ≡ map breach_of places.keys) }
{
    let mut rows = Vec::with_capacity(alloc, places.len())?;
    'places: while let Some(place) = places.pop_first() {
        rows.push(Breach {
            rule: place.rule,
            file: place.file,
            offset: place.offset,
        })?;
    }
    Ok(Row::from_vec(rows))
}
