//! The third stage of the check: the rules on types, E13 to E24.
ghost use Rattle.std.specs.Prelude.{◌≡◌, ◌≤◌, length, map, IfOk};
ghost use Rattle.aidl_syntax.specs.Sources.{source_of};
ghost use Rattle.tree_schema.specs.Numbers.{sorted};
ghost use Rattle.declared_names.specs.Declarations.{declarations};
ghost use Rattle.type_check.specs.Stages as meant;

use crate::bounds::add_broken;
use aidl_base::{Breach, OutOfMemory, Row};
use aidl_names::{Names, in_order, law_accepted};
use aidl_schema::Decl;
use schema_bounds::bounds;
use std::alloc::Global;
use tree_schema::in_schema_order;
use type_rules::breaches_unsorted;

/// The breaches of E13 to E24 in a tree, by the declarations of its schema, sorted by file, offset and rule, each once.
pub fn types_broken(
    alloc: Global,
    names: &Names<'_>,
    decls: &[Decl],
) -> Result<Row<Breach>, OutOfMemory>
    requires few { length decls.now ≤ 16384 }
    requires same { length (sorted (declarations (map source_of names.now))) ≡ length decls.now }
    ensures { IfOk result (λ rows. rows ≡ meant.types_broken (map source_of names.now) decls.now) }
{
    law_accepted(names);
    let bounds = bounds(alloc, decls)?;
    let order = in_schema_order(alloc, names.decls())?;
    let mut rows = breaches_unsorted(alloc, names)?;
    add_broken(22, bounds.as_slice(), order.as_slice(), &mut rows)?;
    add_broken(23, bounds.as_slice(), order.as_slice(), &mut rows)?;
    in_order(alloc, rows.as_slice())
}
