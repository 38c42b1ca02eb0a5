//! The draft of a schema: all declarations of a tree, valid or not.
ghost use Rattle.std.specs.Prelude.{◌≡◌, ℕ, nat_eq, map, IfOk};
ghost use Rattle.indexmap.specs.IndexMap.{get};
ghost use Rattle.declared_names.specs.Declarations.{declarations};
ghost use Rattle.aidl_names.specs.Refusals.{IsScope};
ghost use Rattle.aidl_syntax.specs.Sources.{source_of};
ghost use Rattle.const_items.specs.Items.{items};
ghost use Rattle.const_items.specs.ItemViews.{item_of};
ghost use Rattle.const_eval.specs.Outcomes.{outcome_at};
ghost use Rattle.tree_schema.specs.Numbers.{number_of, sorted};
ghost use Rattle.tree_schema.specs.SchemaOf as meant;
ghost use Rattle.tree_schema.specs.TreeViews.{numbered_of};

use crate::constants::constants_of;
use crate::kinds::kind_of;
use crate::numbers::numbers_of;
use crate::order::in_schema_order;
use crate::scope::Scope;
use crate::tree::Placed;
use aidl_base::{DottedName, Ident, OutOfMemory, Parts, Row};
use aidl_names::{Names, law_accepted};
use aidl_schema::Decl;
use const_eval::Settled;
use indexmap::IndexMap;
use std::alloc::Global;
use type_uses::kept_of;

/// The declarations of the schema of a tree, by the outcomes of its items: in the order of their canonical names, with their types and
/// values (own). What a rule refuses is left out, or something plain stands for it.
pub fn draft(
    alloc: Global,
    names: &Names<'_>,
    settled: &Settled<'_>,
) -> Result<Row<Decl>, OutOfMemory>
    requires items { map item_of settled.now.items.list.items ≡ items (map source_of names.now) }
    ensures { IfOk result (λ decls. decls
        ≡ meant.schema_of (map source_of names.now) (outcome_at settled.now.outcomes.items)) }
{
    law_accepted(names);
    let order = in_schema_order(alloc, names.decls())?;
    let numbers = numbers_of(alloc, order.as_slice())?;
    declarations_in(alloc, names, settled, &numbers, order.as_slice())
}

// The declarations of a tree, in the order in which they are given.
fn declarations_in(
    alloc: Global,
    names: &Names<'_>,
    settled: &Settled<'_>,
    numbers: &IndexMap<u32, u32>,
    order: &[Placed<'_, '_>],
) -> Result<Row<Decl>, OutOfMemory>
    requires items { map item_of settled.now.items.list.items ≡ items (map source_of names.now) }
    requires numbers { (n : ℕ) → get nat_eq numbers.now n
        ≡ number_of (declarations (map source_of names.now)) n }
    requires order { map numbered_of order.now ≡ sorted (declarations (map source_of names.now)) }
    ensures { IfOk result (λ decls. decls ≡ map (meant.declared (map source_of names.now)
        (outcome_at settled.now.outcomes.items)) (map numbered_of order.now)) }
{
    let mut decls = Vec::with_capacity(alloc, order.len())?;
    for placed in order {
        decls.push(declaration_of(alloc, names, settled, numbers, placed)?)?;
    }
    Ok(Row::from_vec(decls))
}

fn declaration_of(
    alloc: Global,
    names: &Names<'_>,
    settled: &Settled<'_>,
    numbers: &IndexMap<u32, u32>,
    placed: &Placed<'_, '_>,
) -> Result<Decl, OutOfMemory>
    requires items { map item_of settled.now.items.list.items ≡ items (map source_of names.now) }
    requires numbers { (n : ℕ) → get nat_eq numbers.now n
        ≡ number_of (declarations (map source_of names.now)) n }
    requires scope { IsScope (map source_of names.now) placed.now.found.now.file placed.now.number }
    ensures { IfOk result (λ decl. decl
        ≡ meant.declared (map source_of names.now) (outcome_at settled.now.outcomes.items)
        (numbered_of placed.now)) }
{
    let found = placed.found;
    let scope = Scope {
        names,
        settled,
        numbers,
        file: found.file,
        number: placed.number,
    };
    let kept = kept_of(found.tree.annots.as_slice());
    Ok(Decl {
        name: copy_of(alloc, &found.name)?,
        outer: scope.schema_number(found.outer),
        kind: kind_of(alloc, &scope, found.tree)?,
        vintf: kept.vintf,
        fixed: kept.fixed,
        constants: constants_of(alloc, &scope, &found.tree.body)?,
    })
}

fn copy_of(alloc: Global, name: &DottedName) -> Result<DottedName, OutOfMemory>
    ensures { IfOk result (λ copy. copy ≡ name.now) }
{
    let parts = name.0.as_slice();
    let mut copy = Vec::with_capacity(alloc, parts.len())?;
    for part in parts {
        copy.push(Ident(part.0.try_clone(alloc)?))?;
    }
    Ok(DottedName(Parts::from_row(Row::from_vec(copy))))
}
