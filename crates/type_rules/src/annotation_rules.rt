//! Annotations that the table of annotations doesn't permit, or that are repeated and kept: the breaches of E13.
ghost use Rattle.std.specs.Prelude.{◌≡◌, ◌++◌, [], map, OnOk};
ghost use Rattle.std.specs.List.{flat_map};
ghost use Rattle.aidl_syntax.specs.Trees.{annot_of, decl_of};
ghost use Rattle.aidl_syntax.specs.Members.{body};
ghost use Rattle.declared_names.specs.Entries.{entry_of};
ghost use Rattle.type_shapes.specs.Backing.{annots_of};
ghost use Rattle.type_uses.specs.Annotations.{row_of, stand_of_body};
ghost use Rattle.type_rules.specs.AnnotationRules as meant;
ghost use Rattle.type_rules.specs.Filters.{breaches_at};
ghost use Rattle.type_uses.specs.TypeUses.{annotations_of, stand_of};
ghost use Rattle.type_uses.specs.TypeUseViews.{seen_use};

use aidl_base::{Breach, OutOfMemory};
use aidl_names::add_if;
use aidl_syntax::{AnnotTree, DeclTree};
use declared_names::Found;
use indexmap::IndexSet;
use std::alloc::Global;
use type_uses::{Stand, TypeUseRef, annotations_of, row_of, stand_of, stand_of_tree};

/// Adds the breaches of E13 in a declaration, by the types that it uses. The rule asks for no other declaration.
pub fn add_bad_annotations(
    alloc: Global,
    found: &Found<'_>,
    uses: &[TypeUseRef<'_>],
    rows: &mut Vec<Breach>,
) -> Result<(), OutOfMemory>
    ensures { OnOk result (rows.new.items ≡ rows.old.items ++ breaches_at 13 found.now.file
        (meant.BadAnnotation [] (entry_of found.now) (map seen_use uses.now))) }
{
    add_at_declaration(alloc, found.file, found.tree, rows)?;
    add_at_uses(alloc, found.file, uses, rows)
}

fn add_at_declaration(
    alloc: Global,
    file: u32,
    tree: &DeclTree,
    rows: &mut Vec<Breach>,
) -> Result<(), OutOfMemory>
    ensures { OnOk result (rows.new.items ≡ rows.old.items
        ++ breaches_at 13 file (meant.bad_annotations (stand_of_body (body (decl_of tree.now)))
        (annots_of (decl_of tree.now)))) }
{
    add_in_list(
        alloc,
        file,
        stand_of_tree(tree),
        tree.annots.as_slice(),
        rows,
    )
}

fn add_at_uses(
    alloc: Global,
    file: u32,
    uses: &[TypeUseRef<'_>],
    rows: &mut Vec<Breach>,
) -> Result<(), OutOfMemory>
    ensures { OnOk result (rows.new.items ≡ rows.old.items
        ++ breaches_at 13 file (flat_map (λ u. meant.bad_annotations (stand_of u) (annotations_of u))
        (map seen_use uses.now))) }
{
    for used in uses {
        add_in_list(alloc, file, stand_of(*used), annotations_of(*used), rows)?;
    }
    Ok(())
}

// Those in a list of annotations.
fn add_in_list(
    alloc: Global,
    file: u32,
    stand: Stand,
    annots: &[AnnotTree],
    rows: &mut Vec<Breach>,
) -> Result<(), OutOfMemory>
    ensures { OnOk result (rows.new.items
        ≡ rows.old.items ++ breaches_at 13 file (meant.bad_annotations stand (map annot_of annots.now))) }
{
    let mut seen: IndexSet<&str> = IndexSet::new(alloc);
    for annot in annots {
        let added = seen.insert(annot.name.name.0.as_str())?;
        let broken = breaks_row(stand, annot, !added);
        add_if(broken, 13, file, annot.offset, rows)?;
    }
    Ok(())
}

fn breaks_row(stand: Stand, annot: &AnnotTree, again: bool) -> bool
    ensures { result ≡ meant.breaks_row stand
        (annot_of annot.now).params again (row_of (annot_of annot.now)) }
{
    match row_of(annot) {
        None => true,
        Some(row) => {
            !row.may_stand(stand) || !row.takes(annot.params.as_slice()) || (row.is_kept() && again)
        }
    }
}
