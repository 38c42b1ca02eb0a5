//! The constant or the enumerator that a name in an expression means.
ghost use Rattle.std.specs.Prelude.{◌≡◌, map};
ghost use Rattle.declared_names.specs.Declarations.{declarations};
ghost use Rattle.aidl_names.specs.Refusals.{IsScope};
ghost use Rattle.aidl_syntax.specs.Sources.{source_of};
ghost use Rattle.const_items.specs.Dependence as meant;
ghost use Rattle.const_items.specs.ItemViews.{item_of};
ghost use Rattle.const_items.specs.TargetViews.{seen_targets};

use crate::item::ItemRef;
use crate::listing::place_by;
use crate::numbering::Items;
use aidl_base::Ident;
use aidl_names::Names;
use aidl_syntax::{ConstantTree, DottedTree, EnumeratorTree};
use declared_names::MemberRef;
use name_resolution::Resolved;

/// What a name in an expression means: a constant or an enumerator, with the numbers of its file and of the declaration that has
/// it.
#[derive(Clone, Copy)]
pub enum Target<'a> {
    Constant {
        file: u32,
        number: u32,
        constant: &'a ConstantTree,
    },
    Enumerator {
        file: u32,
        number: u32,
        enumerator: &'a EnumeratorTree,
    },
}

/// What a name in the expression of an item means (AOSP, "AIDL language", "Constants"; the order: own): with one part, in an
/// enumerator's expression an enumerator of the same enum, else a constant of the innermost declaration around that has one of
/// that name; with more, a constant or an enumerator of what the parts before the last mean as a type.
pub fn target_of<'a>(names: &Names<'a>, item: &ItemRef<'_>, name: &DottedTree) -> Option<Target<'a>>
    requires { IsScope (map source_of names.now) item.now.file item.now.scope }
    ensures { seen_targets result
        ≡ meant.target (map source_of names.now) (item_of item.now) name.now }
{
    match name.name.0.as_slice() {
        [] => None,
        [part] => target_of_part(names, item, part),
        [front @ .., last] => {
            let meaning = names.resolve(item.file, item.scope, front);
            member_of(names, last, meaning)
        }
    }
}

// A constant or an enumerator of a declared type.
fn member_of<'a>(names: &Names<'a>, name: &Ident, meaning: Option<Resolved>) -> Option<Target<'a>>
    ensures { seen_targets result
        ≡ meant.member_of (declarations (map source_of names.now)) name.now meaning }
{
    match meaning {
        Some(Resolved::Declared(number)) => member_at(names, number, name),
        _ => None,
    }
}

fn target_of_part<'a>(names: &Names<'a>, item: &ItemRef<'_>, name: &Ident) -> Option<Target<'a>>
    ensures { seen_targets result ≡ meant.target_of_part
        (declarations (map source_of names.now)) (item_of item.now) name.now }
{
    match enumerator_beside(names, item, name) {
        Some(target) => Some(target),
        None => constant_around(names, names.decls().len(), name, Some(item.scope)),
    }
}

fn enumerator_beside<'a>(names: &Names<'a>, item: &ItemRef<'_>, name: &Ident) -> Option<Target<'a>>
    ensures { seen_targets result ≡ meant.enumerator_beside
        (declarations (map source_of names.now)) (item_of item.now) name.now }
{
    if !item.enumerates {
        return None;
    }
    let target = member_at(names, item.scope, name);
    match target {
        Some(Target::Enumerator { .. }) => target,
        _ => None,
    }
}

// The constant of that name of the innermost declaration, from one on outwards, that has one.
fn constant_around<'a>(
    names: &Names<'a>,
    levels: usize,
    name: &Ident,
    scope: Option<u32>,
) -> Option<Target<'a>>
    ensures { seen_targets result
        ≡ meant.constant_around (declarations (map source_of names.now)) levels name.now scope }
{
    if levels == 0 {
        return None;
    }
    let number = scope?;
    let around = names.decls().get(number as usize)?;
    let target = member_at(names, number, name);
    match target {
        Some(Target::Constant { .. }) => target,
        _ => constant_around(names, levels - 1, name, around.outer),
    }
}

// The constant or enumerator of that name in the declaration with a number.
fn member_at<'a>(names: &Names<'a>, number: u32, name: &Ident) -> Option<Target<'a>>
    ensures { seen_targets result
        ≡ meant.member_at (declarations (map source_of names.now)) number name.now }
{
    let file = names.decls().get(number as usize)?.file;
    match names.member(number, name)? {
        MemberRef::Constant(constant) => Some(Target::Constant {
            file,
            number,
            constant,
        }),
        MemberRef::Enumerator(enumerator) => Some(Target::Enumerator {
            file,
            number,
            enumerator,
        }),
        MemberRef::Field(_) => None,
        MemberRef::Method(_) => None,
        MemberRef::Nested(_) => None,
    }
}

/// The number among items of that which a name means, where it means something.
pub fn number_of(items: &Items<'_>, target: Option<Target<'_>>) -> Option<usize>
    ensures { result ≡ meant.number_among (map item_of items.now.list.items)
        (seen_targets target.entry) }
{
    match target {
        None => None,
        Some(Target::Constant { file, constant, .. }) => {
            items.number_at(file, constant.value.offset)
        }
        Some(
            Target::Enumerator {
                file,
                enumerator,
                ..
            },
        ) => items.number_at(file, place_by(enumerator.name.offset, &enumerator.value)),
    }
}
