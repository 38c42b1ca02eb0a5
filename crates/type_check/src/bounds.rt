//! The breaches of E22 and E23, made of the bounds of the declarations in the schema.
ghost use Rattle.std.specs.Prelude.{◌≡◌, ◌≤◌, ◌++◌, map, length, OnOk};
ghost use Rattle.declared_names.specs.Numbered.{in_each};
ghost use Rattle.tree_schema.specs.TreeViews.{numbered_of};
ghost use Rattle.type_check.specs.Bounds as meant;
ghost use Rattle.type_check.specs.Bounds.{bound_at};

use aidl_base::{Breach, OutOfMemory};
use aidl_names::add_if;
use schema_bounds::Bound;
use tree_schema::Placed;

/// Adds the breaches of E22 or E23 in declarations, by the bounds of the schema that has them in the same order.
pub fn add_broken(
    rule: u8,
    bounds: &[Bound],
    order: &[Placed<'_, '_>],
    rows: &mut Vec<Breach>,
) -> Result<(), OutOfMemory>
    requires few { length order.now ≤ 16384 }
    requires same { length bounds.now ≡ length order.now }
    ensures { OnOk result (rows.new.items ≡ rows.old.items ++ in_each
        (meant.broken_at rule (bound_at bounds.now)) 0 (map numbered_of order.now)) }
{
    for (i, placed) in order.iter().enumerate() {
        let name = &placed.found.tree.name;
        let broken = rule_of(bounds[i]) == rule;
        add_if(broken, rule, placed.found.file, name.offset, rows)?;
    }
    Ok(())
}

// The number of the rule that a declaration with a bound breaks.
fn rule_of(bound: Bound) -> u8
    ensures { result ≡ meant.rule_of bound }
{
    match bound {
        Bound::Within => 0,
        Bound::HoldsItself => 22,
        Bound::TooLarge => 23,
    }
}
