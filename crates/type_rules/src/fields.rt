//! Fields whose initializer doesn't fit their type or can't be there, and unions without a field: the breaches of E21.
ghost use Rattle.std.specs.Prelude.{◌≡◌, ◌++◌, ◌&&◌, false, map, OnOk};
ghost use Rattle.std.specs.List.{list_any};
ghost use Rattle.aidl_syntax.specs.Trees.{decl_of, init_of, map_option};
ghost use Rattle.aidl_syntax.specs.Members.{body};
ghost use Rattle.declared_names.specs.Entries.{entry_of};
ghost use Rattle.type_rules.specs.FieldRules as meant;
ghost use Rattle.type_rules.specs.Filters.{breaches_at};
ghost use Rattle.type_uses.specs.TypeUses as typed;
ghost use Rattle.type_uses.specs.TypeUseViews.{seen_use};

use aidl_base::{Breach, OutOfMemory};
use aidl_names::add_if;
use aidl_syntax::{BodyTree, DeclTree, InitTree};
use declared_names::Found;
use type_shapes::{Shape, is_unjudged};
use type_uses::{TypeUseRef, is_field, is_refused, name_place};

/// Adds the breaches of E21 in a declaration, by the types that it uses; `all` are the declarations of the tree.
pub fn add_bad_fields(
    all: &[Found<'_>],
    found: &Found<'_>,
    uses: &[TypeUseRef<'_>],
    rows: &mut Vec<Breach>,
) -> Result<(), OutOfMemory>
    ensures { OnOk result (rows.new.items ≡ rows.old.items ++ breaches_at 21 found.now.file
        (meant.BadField (map entry_of all.now) (entry_of found.now) (map seen_use uses.now))) }
{
    let in_union = is_union_tree(found.tree);
    let empty = in_union && !has_field(uses);
    add_if(empty, 21, found.file, found.tree.name.offset, rows)?;
    add_in_uses(all, found.file, in_union, uses, rows)
}

fn is_union_tree(tree: &DeclTree) -> bool
    ensures { result ≡ meant.is_union_body (body (decl_of tree.now)) }
{
    match &tree.body {
        BodyTree::Union(_) => true,
        _ => false,
    }
}

fn has_field(uses: &[TypeUseRef<'_>]) -> bool
    ensures { result ≡ list_any typed.is_field (map seen_use uses.now) }
{
    for used in uses {
        if is_field(*used) {
            return true;
        }
    }
    false
}

fn add_in_uses(
    all: &[Found<'_>],
    file: u32,
    in_union: bool,
    uses: &[TypeUseRef<'_>],
    rows: &mut Vec<Breach>,
) -> Result<(), OutOfMemory>
    ensures { OnOk result (rows.new.items ≡ rows.old.items ++ breaches_at 21 file
        (meant.bad_fields (map entry_of all.now) in_union false (map seen_use uses.now))) }
{
    let mut later = false;
    for used in uses {
        let broken = is_bad_field(all, later, *used);
        add_if(broken, 21, file, name_place(*used), rows)?;
        later = later || (in_union && is_field(*used));
    }
    Ok(())
}

fn is_bad_field(all: &[Found<'_>], later: bool, used: TypeUseRef<'_>) -> bool
    ensures { result ≡ meant.is_bad_field (map entry_of all.now) later (seen_use used.entry) }
{
    match used {
        TypeUseRef::Field(field, shape) => is_bad_initial(all, later, shape, &field.initial),
        _ => false,
    }
}

fn is_bad_initial(all: &[Found<'_>], later: bool, shape: Shape, initial: &Option<InitTree>) -> bool
    ensures { result ≡ meant.is_bad_initial (map entry_of all.now) later shape
        (map_option init_of initial.now) }
{
    match initial {
        None => false,
        Some(init) => !is_refused(shape) && is_unjudged(all, later, shape, init),
    }
}
