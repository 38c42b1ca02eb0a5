//! Annotations `@nullable` that the type or the place doesn't permit: the breaches of E14.
ghost use Rattle.std.specs.Prelude.{◌≡◌, ◌++◌, map, OnOk};
ghost use Rattle.std.specs.List.{flat_map};
ghost use Rattle.aidl_syntax.specs.Trees.{annot_of};
ghost use Rattle.declared_names.specs.Entries.{entry_of};
ghost use Rattle.type_rules.specs.Filters.{breaches_at};
ghost use Rattle.type_rules.specs.TypeRules as meant;
ghost use Rattle.type_uses.specs.TypeUses.{annotations_of};
ghost use Rattle.type_uses.specs.TypeUseViews.{seen_use};

use aidl_base::{Breach, OutOfMemory};
use aidl_names::add_if;
use aidl_syntax::AnnotTree;
use declared_names::Found;
use type_shapes::Shape;
use type_uses::{
    TypeUseRef, annotations_of, is_heap_annot, is_nullable_annot, is_one_composite, is_one_scalar,
    is_refused, is_refused_result,
};

/// Adds the breaches of E14 in a declaration of a file, by the types that it uses; `found` are the declarations of the tree.
pub fn add_bad_nullables(
    found: &[Found<'_>],
    file: u32,
    uses: &[TypeUseRef<'_>],
    rows: &mut Vec<Breach>,
) -> Result<(), OutOfMemory>
    ensures { OnOk result (rows.new.items ≡ rows.old.items ++ breaches_at 14 file
        (flat_map (meant.bad_nullables_of (map entry_of found.now)) (map seen_use uses.now))) }
{
    for used in uses {
        let nullable = refuses_nullable(found, *used);
        let heap = refuses_heap(found, *used);
        add_in_list(file, nullable, heap, annotations_of(*used), rows)?;
    }
    Ok(())
}

// Those in a list of annotations, where `@nullable` may be refused, and `heap=true` may be.
fn add_in_list(
    file: u32,
    nullable: bool,
    heap: bool,
    annots: &[AnnotTree],
    rows: &mut Vec<Breach>,
) -> Result<(), OutOfMemory>
    ensures { OnOk result (rows.new.items ≡ rows.old.items
        ++ breaches_at 14 file (meant.bad_nullables nullable heap (map annot_of annots.now))) }
{
    for annot in annots {
        let broken = is_bad_nullable(nullable, heap, annot);
        add_if(broken, 14, file, annot.offset, rows)?;
    }
    Ok(())
}

fn is_bad_nullable(nullable: bool, heap: bool, annot: &AnnotTree) -> bool
    ensures { result ≡ meant.is_bad_nullable nullable heap (annot_of annot.now) }
{
    (nullable && is_nullable_annot(annot)) || (heap && is_heap_annot(annot))
}

fn refuses_nullable(found: &[Found<'_>], used: TypeUseRef<'_>) -> bool
    ensures { result ≡ meant.refuses_nullable (map entry_of found.now) (seen_use used.entry) }
{
    match used {
        TypeUseRef::Field(_, shape) => is_one_scalar(found, shape),
        TypeUseRef::Constant(_, _) => false,
        TypeUseRef::Method(_, returned) => result_refuses_nullable(found, returned),
        TypeUseRef::Argument(_, shape) => is_one_scalar(found, shape),
    }
}

fn result_refuses_nullable(found: &[Found<'_>], returned: Option<Shape>) -> bool
    ensures { result ≡ meant.result_refuses_nullable (map entry_of found.now) returned }
{
    match returned {
        None => true,
        Some(shape) => is_one_scalar(found, shape),
    }
}

fn refuses_heap(found: &[Found<'_>], used: TypeUseRef<'_>) -> bool
    ensures { result ≡ meant.refuses_heap (map entry_of found.now) (seen_use used.entry) }
{
    match used {
        TypeUseRef::Field(_, shape) => !is_refused(shape) && !is_one_composite(found, shape),
        TypeUseRef::Constant(_, _) => false,
        TypeUseRef::Method(_, returned) => !is_refused_result(returned),
        TypeUseRef::Argument(_, shape) => !is_refused(shape),
    }
}
