//! Fields that a declaration with `@FixedSize` may not have: the breaches of E24.
ghost use Rattle.std.specs.Prelude.{◌≡◌, ◌++◌, map, IfOk, OnOk};
ghost use Rattle.aidl_syntax.specs.Trees.{decl_of};
ghost use Rattle.declared_names.specs.Entries.{entry_of};
ghost use Rattle.type_shapes.specs.Backing.{annots_of};
ghost use Rattle.type_uses.specs.Kept as kept;
ghost use Rattle.type_uses.specs.Bases as bases;
ghost use Rattle.type_uses.specs.Bases.{is_fixed_entry};
ghost use Rattle.type_rules.specs.FieldRules as meant;
ghost use Rattle.type_rules.specs.Filters.{breaches_at, broken_where};
ghost use Rattle.type_uses.specs.TypeUses as typed;
ghost use Rattle.type_uses.specs.TypeUseViews.{seen_use};

use aidl_base::{Breach, OutOfMemory};
use aidl_names::add_if;
use aidl_syntax::DeclTree;
use declared_names::Found;
use name_resolution::Resolved;
use std::alloc::Global;
use type_shapes::{Shape, is_composite};
use type_uses::{TypeUseRef, is_fixed, is_nullable, is_refused, is_scalar, name_place};

/// The declarations of a tree, and which of them have `@FixedSize`.
#[derive(Clone, Copy)]
pub struct Marked<'a> {
    pub all: &'a [Found<'a>],
    pub fixed: &'a [bool],
    pub ghost marks: { fixed.now ≡ map is_fixed_entry (map entry_of all.now) },
}

/// Which declarations have `@FixedSize`, so that no list of annotations is read for each field of its type.
pub fn fixed_ones(alloc: Global, found: &[Found<'_>]) -> Result<Vec<bool>, OutOfMemory>
    ensures { IfOk result (λ fixed. fixed.items ≡ map is_fixed_entry (map entry_of found.now)) }
{
    let mut fixed = Vec::with_capacity(alloc, found.len())?;
    for f in found {
        fixed.push(is_fixed_tree(f.tree))?;
    }
    Ok(fixed)
}

fn is_fixed_tree(tree: &DeclTree) -> bool
    ensures { result ≡ kept.is_fixed (annots_of (decl_of tree.now)) }
{
    is_fixed(tree.annots.as_slice())
}

/// Adds the breaches of E24 in a declaration, by the types that it uses; `marked` are the declarations of the tree.
pub fn add_not_fixed(
    marked: &Marked<'_>,
    found: &Found<'_>,
    uses: &[TypeUseRef<'_>],
    rows: &mut Vec<Breach>,
) -> Result<(), OutOfMemory>
    ensures { OnOk result (rows.new.items ≡ rows.old.items ++ breaches_at 24 found.now.file
        (meant.NotFixed (map entry_of marked.now.all.now) (entry_of found.now)
        (map seen_use uses.now))) }
{
    if is_fixed_tree(found.tree) {
        add_in_uses(marked, found.file, uses, rows)?;
    }
    Ok(())
}

fn add_in_uses(
    marked: &Marked<'_>,
    file: u32,
    uses: &[TypeUseRef<'_>],
    rows: &mut Vec<Breach>,
) -> Result<(), OutOfMemory>
    ensures { OnOk result (rows.new.items ≡ rows.old.items ++ breaches_at 24 file
        (broken_where (meant.is_unfixed (map entry_of marked.now.all.now)) typed.name_place
        (map seen_use uses.now))) }
{
    for used in uses {
        let broken = is_unfixed(marked, *used);
        add_if(broken, 24, file, name_place(*used), rows)?;
    }
    Ok(())
}

fn is_unfixed(marked: &Marked<'_>, used: TypeUseRef<'_>) -> bool
    ensures { result ≡ meant.is_unfixed (map entry_of marked.now.all.now) (seen_use used.entry) }
{
    match used {
        TypeUseRef::Field(field, shape) => {
            !is_refused(shape)
                && (is_nullable(field.annots.as_slice()) || !has_fixed_size(marked, shape))
        }
        _ => false,
    }
}

fn has_fixed_size(marked: &Marked<'_>, shape: Shape) -> bool
    ensures { result ≡ meant.has_fixed_size (map entry_of marked.now.all.now) shape }
{
    match shape {
        Shape::One(base) => is_fixed_base(marked, base),
        _ => false,
    }
}

fn is_fixed_base(marked: &Marked<'_>, base: Resolved) -> bool
    ensures { result ≡ bases.is_fixed_base (map entry_of marked.now.all.now) base }
{
    match base {
        Resolved::Declared(number) => {
            is_scalar(marked.all, base)
                || (is_composite(marked.all, base) && is_fixed_number(marked, number))
        }
        _ => is_scalar(marked.all, base),
    }
}

#[tactic(auto, using(crate::proofs::MemberLoops::fixed_some, crate::proofs::MemberLoops::fixed_none))]
fn is_fixed_number(marked: &Marked<'_>, number: u32) -> bool
    ensures { result ≡ bases.is_fixed_number (map entry_of marked.now.all.now) number }
{
    match marked.fixed.get(number as usize) {
        Some(fixed) => *fixed,
        None => false,
    }
}
