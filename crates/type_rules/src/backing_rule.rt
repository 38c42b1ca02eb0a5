//! Enums whose annotation `Backing` names no backing type: the breaches of E15.
ghost use Rattle.std.specs.Prelude.{◌≡◌, ◌++◌, [], map, OnOk};
ghost use Rattle.std.specs.List.{find};
ghost use Rattle.aidl_syntax.specs.Trees.{annot_of};
ghost use Rattle.declared_names.specs.Entries.{entry_of};
ghost use Rattle.type_shapes.specs.Backing.{is_backing};
ghost use Rattle.type_rules.specs.AnnotationRules as meant;
ghost use Rattle.type_rules.specs.Filters.{breaches_at};

use aidl_base::{Breach, OutOfMemory};
use aidl_names::add_if;
use aidl_syntax::AnnotTree;
use declared_names::Found;
use type_shapes::{backing_annot, is_enum_tree, type_param};
use type_uses::is_backing_word;

/// Adds the breach of E15 in a declaration. The rule asks for no other declaration and no type.
pub fn add_bad_backing(found: &Found<'_>, rows: &mut Vec<Breach>) -> Result<(), OutOfMemory>
    ensures { OnOk result (rows.new.items ≡ rows.old.items
        ++ breaches_at 15 found.now.file (meant.BadBacking [] (entry_of found.now) [])) }
{
    if is_enum_tree(found.tree) {
        add_in_list(found.file, found.tree.annots.as_slice(), rows)?;
    }
    Ok(())
}

fn add_in_list(file: u32, annots: &[AnnotTree], rows: &mut Vec<Breach>) -> Result<(), OutOfMemory>
    ensures { OnOk result (rows.new.items
        ≡ rows.old.items ++ breaches_at 15 file (meant.bad_backing (find is_backing (map annot_of annots.now)))) }
{
    match backing_annot(annots) {
        None => Ok(()),
        Some(annot) => add_if(is_bad_backing(annot), 15, file, annot.offset, rows),
    }
}

fn is_bad_backing(annot: &AnnotTree) -> bool
    ensures { result ≡ meant.is_bad_backing (annot_of annot.now) }
{
    match type_param(annot.params.as_slice()) {
        None => true,
        Some(param) => !is_backing_word(&param.value),
    }
}
