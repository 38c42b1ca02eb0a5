//! The faults of items as breaches of E6 to E12.
ghost use Rattle.std.specs.Prelude.{◌≡◌, ◌++◌, map, IfOk, OnOk};
ghost use Rattle.std.specs.Option.{option_to_list};
ghost use Rattle.const_eval.specs.Breaches as meant;
ghost use Rattle.const_items.specs.ItemViews.{item_of};
ghost use Rattle.const_eval.specs.Outcomes.{outcome_at};

use crate::outcome::Outcome;
use crate::settled::{InitId, Settled};
use aidl_base::{Breach, OutOfMemory, Row};
use const_items::ItemRef;
use std::alloc::Global;

/// The breaches of E6 to E12: one for each item whose outcome is a fault, at the item's place, in the order of files and places.
pub fn breaches(alloc: Global, settled: &Settled<'_>) -> Result<Row<Breach>, OutOfMemory>
    ensures { IfOk result (λ rows.
        rows ≡ meant.breaches (outcome_at settled.now.outcomes.items)
        (map item_of settled.now.items.list.items)) }
{
    let mut rows = Row::new(alloc);
    for (i, item) in settled.items().iter().enumerate() {
        add_breach(item, settled.outcome(InitId(i as u32)), &mut rows)?;
    }
    Ok(rows)
}

fn add_breach(
    item: &ItemRef<'_>,
    outcome: &Outcome,
    rows: &mut Row<Breach>,
) -> Result<(), OutOfMemory>
    ensures { OnOk result (rows.new
        ≡ rows.old ++ option_to_list (meant.breach_by (item_of item.now) outcome.now)) }
{
    match outcome {
        Outcome::Fault(fault) => rows.push(Breach {
            rule: fault.number() + 5,
            file: item.file,
            offset: item.place,
        }),
        Outcome::Given(_) => Ok(()),
        Outcome::Unjudged => Ok(()),
    }
}
