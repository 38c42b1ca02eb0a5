//! The breaches of E13 to E21 and E24 in all declarations of a tree, joined and sorted.
ghost use Rattle.std.specs.Prelude.{◌≡◌, ◌≤◌, ◌++◌, map, length, IfOk, OnOk};
ghost use Rattle.aidl_syntax.specs.Trees.{decl_of};
ghost use Rattle.aidl_syntax.specs.Members.{body};
ghost use Rattle.declared_names.specs.Declarations.{declarations};
ghost use Rattle.aidl_names.specs.Refusals.{IsScope};
ghost use Rattle.declared_names.specs.Entries.{entry_of};
ghost use Rattle.aidl_syntax.specs.Sources.{source_of};
ghost use Rattle.type_rules.specs.Breaches as meant;
ghost use Rattle.type_rules.specs.MethodRules as methods;
ghost use Rattle.type_uses.specs.TypeUseViews.{seen_use};

use crate::annotation_rules::add_bad_annotations;
use crate::backing_rule::add_bad_backing;
use crate::fields::add_bad_fields;
use crate::fixed::{Marked, add_not_fixed, fixed_ones};
use crate::ids::add_bad_ids;
use crate::nullable::add_bad_nullables;
use crate::use_rules::{UseRule, add_where};
use aidl_base::{Breach, OutOfMemory, Row};
use aidl_names::{Names, in_order, law_accepted};
use aidl_syntax::{BodyTree, DeclTree};
use declared_names::Found;
use std::alloc::Global;
use type_uses::{TypeUseRef, listed_uses};

/// The breaches of E13 to E21 and E24, sorted by file, offset and rule, each once.
pub fn breaches(alloc: Global, names: &Names<'_>) -> Result<Row<Breach>, OutOfMemory>
    ensures { IfOk result (λ rows. rows ≡ meant.breaches (map source_of names.now)) }
{
    let rows = breaches_unsorted(alloc, names)?;
    in_order(alloc, rows.as_slice())
}

/// The breaches of E13 to E21 and E24, in the order of the declarations, for a caller that joins further ones to them.
pub fn breaches_unsorted(alloc: Global, names: &Names<'_>) -> Result<Vec<Breach>, OutOfMemory>
    ensures { IfOk result (λ rows. rows.items ≡ meant.unsorted (map source_of names.now)) }
{
    law_accepted(names);
    let mut rows = Vec::new(alloc);
    add_all(alloc, names, names.decls(), &mut rows)?;
    Ok(rows)
}

#[tactic(auto, unfolding(crate::specs::Breaches::unsorted))]
fn add_all(
    alloc: Global,
    names: &Names<'_>,
    found: &[Found<'_>],
    rows: &mut Vec<Breach>,
) -> Result<(), OutOfMemory>
    requires count { length found.now ≤ 16384 }
    requires found { map entry_of found.now ≡ declarations (map source_of names.now) }
    ensures { OnOk result (rows.new.items
        ≡ rows.old.items ++ meant.unsorted (map source_of names.now)) }
{
    let fixed = fixed_ones(alloc, found)?;
    let marked = Marked {
        all: found,
        fixed: fixed.as_slice(),
    };
    for (i, f) in found.iter().enumerate() {
        add_declaration(alloc, names, &marked, i as u32, f, rows)?;
    }
    Ok(())
}

// Those of the declaration with a number.
fn add_declaration(
    alloc: Global,
    names: &Names<'_>,
    marked: &Marked<'_>,
    number: u32,
    found: &Found<'_>,
    rows: &mut Vec<Breach>,
) -> Result<(), OutOfMemory>
    requires all { map entry_of marked.now.all.now ≡ declarations (map source_of names.now) }
    requires scope { IsScope (map source_of names.now) found.now.file number }
    ensures { OnOk result (rows.new.items ≡ rows.old.items
        ++ meant.broken_in (map source_of names.now) number (entry_of found.now)) }
{
    let uses = listed_uses(alloc, names, found.file, number, &found.tree.body)?;
    add_broken(alloc, marked, found, uses.as_slice(), rows)
}

fn add_broken(
    alloc: Global,
    marked: &Marked<'_>,
    found: &Found<'_>,
    uses: &[TypeUseRef<'_>],
    rows: &mut Vec<Breach>,
) -> Result<(), OutOfMemory>
    ensures { OnOk result (rows.new.items ≡ rows.old.items
        ++ meant.broken_by (map entry_of marked.now.all.now)
        (entry_of found.now) (map seen_use uses.now)) }
{
    let oneway = is_oneway_tree(found.tree);
    let file = found.file;
    add_bad_annotations(alloc, found, uses, rows)?;
    add_bad_nullables(marked.all, file, uses, rows)?;
    add_bad_backing(found, rows)?;
    add_where(marked.all, oneway, UseRule::Shape, file, uses, rows)?;
    add_where(marked.all, oneway, UseRule::Direction, file, uses, rows)?;
    add_where(marked.all, oneway, UseRule::Oneway, file, uses, rows)?;
    add_bad_ids(alloc, file, uses, rows)?;
    add_where(marked.all, oneway, UseRule::Constant, file, uses, rows)?;
    add_bad_fields(marked.all, found, uses, rows)?;
    add_not_fixed(marked, found, uses, rows)
}

fn is_oneway_tree(tree: &DeclTree) -> bool
    ensures { result ≡ methods.is_oneway_body (body (decl_of tree.now)) }
{
    match &tree.body {
        BodyTree::Interface { oneway, .. } => *oneway,
        _ => false,
    }
}
