//! The items of each declaration: its fields, constants and enumerators, and the members of brace lists.
ghost use Rattle.std.specs.Prelude.{◌≡◌, ◌++◌, ◌∷◌, [], None, false, map, IfOk, OnOk};
ghost use Rattle.aidl_syntax.specs.Trees.{Members, enumerator_of, expr_of, exprs_of, field_of};
ghost use Rattle.aidl_syntax.specs.Trees.{map_option, member_of, members_of};
ghost use Rattle.aidl_syntax.specs.Members.{listed};
ghost use Rattle.aidl_names.specs.Refusals.{IsScope};
ghost use Rattle.declared_names.specs.Entries.{entry_of};
ghost use Rattle.aidl_syntax.specs.Sources.{source_of};
ghost use Rattle.const_items.specs.Items as meant;
ghost use Rattle.const_items.specs.ItemViews.{item_of, written_of};

use crate::item::{ItemRef, WrittenRef};
use crate::scope::Scope;
use aidl_base::OutOfMemory;
use aidl_names::{Names, law_accepted};
use aidl_syntax::{BodyTree, EnumeratorTree, ExprTree, FieldTree, InitTree, MemberTree};
use const_values::Wanted;
use declared_names::Found;
use std::alloc::Global;
use type_shapes::{backing_of, is_unjudged, wanted_element, wanted_one};

/// The items of a tree, in the order of the declarations.
pub fn declared<'a>(alloc: Global, names: &Names<'a>) -> Result<Vec<ItemRef<'a>>, OutOfMemory>
    ensures { IfOk result (λ all. map item_of all.items
        ≡ meant.declared (map source_of names.now)) }
{
    law_accepted(names);
    let found = names.decls();
    let mut all = Vec::new(alloc);
    for (i, f) in found.iter().enumerate() {
        add_entry(names, i as u32, f, &mut all)?;
    }
    Ok(all)
}

// Those of the declaration with a number.
fn add_entry<'a>(
    names: &Names<'a>,
    number: u32,
    found: &Found<'a>,
    all: &mut Vec<ItemRef<'a>>,
) -> Result<(), OutOfMemory>
    requires { IsScope (map source_of names.now) found.now.file number }
    ensures { OnOk result (map item_of all.new.items ≡ map item_of all.old.items
        ++ meant.of_entry (map source_of names.now) number (entry_of found.now)) }
{
    let scope = Scope {
        names,
        file: found.file,
        number,
    };
    match &found.tree.body {
        BodyTree::Parcelable(members) => {
            let in_union = false;
            add_members(&scope, in_union, members.as_slice(), all)
        }
        BodyTree::Union(members) => {
            let in_union = true;
            add_members(&scope, in_union, members.as_slice(), all)
        }
        BodyTree::Enum(enumerators) => {
            let backing = backing_of(found.tree);
            add_enumerators(&scope, backing, enumerators.as_slice(), all)
        }
        BodyTree::Interface { members, .. } => {
            let in_union = false;
            add_members(&scope, in_union, members.as_slice(), all)
        }
    }
}

fn add_members<'a>(
    scope: &Scope<'_, 'a>,
    in_union: bool,
    members: &'a [MemberTree],
    all: &mut Vec<ItemRef<'a>>,
) -> Result<(), OutOfMemory>
    ensures { OnOk result (map item_of all.new.items ≡ map item_of all.old.items
        ++ meant.of_members (map source_of scope.now.files) scope.now.file scope.now.number
        in_union false (listed (members_of members.now))) }
{
    let mut later = false;
    for member in members {
        later = add_member(scope, in_union, later, member, all)?;
    }
    Ok(())
}

// Adds those of a member, and answers whether a field of a union stands before the next one.
fn add_member<'a>(
    scope: &Scope<'_, 'a>,
    in_union: bool,
    later: bool,
    member: &'a MemberTree,
    all: &mut Vec<ItemRef<'a>>,
) -> Result<bool, OutOfMemory>
    ensures { let of = meant.of_members
        (map source_of scope.now.files) scope.now.file scope.now.number in_union in
        IfOk result (λ next. (ms : Members)
        → map item_of all.old.items ++ of later (listed (member_of member.now ms))
        ≡ map item_of all.new.items ++ of next (listed ms)) }
{
    match member {
        MemberTree::Field(field) => {
            add_field(scope, later, field, all)?;
            Ok(later || in_union)
        }
        MemberTree::Constant(constant) => {
            let wanted = wanted_one(scope.names.decls(), scope.shape_of(&constant.ty));
            add_expression(scope, wanted, false, &constant.value, all)?;
            Ok(later)
        }
        MemberTree::Method(_) => Ok(later),
        MemberTree::Nested(_) => Ok(later),
    }
}

fn add_field<'a>(
    scope: &Scope<'_, 'a>,
    later: bool,
    field: &'a FieldTree,
    all: &mut Vec<ItemRef<'a>>,
) -> Result<(), OutOfMemory>
    ensures { OnOk result (map item_of all.new.items ≡ map item_of all.old.items
        ++ meant.of_field (map source_of scope.now.files) scope.now.file scope.now.number later
        (field_of field.now)) }
{
    let Some(init) = &field.initial else {
        return Ok(());
    };
    let found = scope.names.decls();
    let shape = scope.shape_of(&field.ty);
    let unjudged = is_unjudged(found, later, shape, init);
    match init {
        InitTree::Single(tree) => {
            let wanted = wanted_one(found, shape);
            add_expression(scope, wanted, unjudged, tree, all)
        }
        InitTree::Braces { items, .. } => {
            let wanted = wanted_element(found, shape);
            add_each(scope, wanted, unjudged, items.as_slice(), all)
        }
    }
}

fn add_each<'a>(
    scope: &Scope<'_, 'a>,
    wanted: Wanted,
    unjudged: bool,
    trees: &'a [ExprTree],
    all: &mut Vec<ItemRef<'a>>,
) -> Result<(), OutOfMemory>
    ensures { OnOk result (map item_of all.new.items ≡ map item_of all.old.items
        ++ map (meant.of_expression scope.now.file scope.now.number wanted unjudged)
        (exprs_of trees.now)) }
{
    for tree in trees {
        add_expression(scope, wanted, unjudged, tree, all)?;
    }
    Ok(())
}

fn add_expression<'a>(
    scope: &Scope<'_, 'a>,
    wanted: Wanted,
    unjudged: bool,
    tree: &'a ExprTree,
    all: &mut Vec<ItemRef<'a>>,
) -> Result<(), OutOfMemory>
    ensures { OnOk result (map item_of all.new.items ≡ map item_of all.old.items
        ++ meant.of_expression scope.now.file scope.now.number wanted unjudged
        (expr_of tree.now) ∷ []) }
{
    all.push(ItemRef {
        file: scope.file,
        scope: scope.number,
        place: tree.offset,
        enumerates: false,
        wanted,
        unjudged,
        value: WrittenRef::Expression(tree),
    })?;
    Ok(())
}

fn add_enumerators<'a>(
    scope: &Scope<'_, 'a>,
    backing: Wanted,
    enumerators: &'a [EnumeratorTree],
    all: &mut Vec<ItemRef<'a>>,
) -> Result<(), OutOfMemory>
    ensures { OnOk result (map item_of all.new.items ≡ map item_of all.old.items
        ++ meant.of_enumerators scope.now.file scope.now.number backing None
        (map enumerator_of enumerators.now)) }
{
    let mut before = None;
    for enumerator in enumerators {
        let place = place_by(enumerator.name.offset, &enumerator.value);
        all.push(ItemRef {
            file: scope.file,
            scope: scope.number,
            place,
            enumerates: true,
            wanted: backing,
            unjudged: false,
            value: written_as(before, &enumerator.value),
        })?;
        before = Some(place);
    }
    Ok(())
}

/// Where an enumerator's expression begins, or else its name.
pub fn place_by(named: u32, value: &Option<ExprTree>) -> u32
    ensures { result ≡ meant.place_by named (map_option expr_of value.now) }
{
    match value {
        None => named,
        Some(tree) => tree.offset,
    }
}

fn written_as(before: Option<u32>, value: &Option<ExprTree>) -> WrittenRef<'_>
    ensures { written_of result ≡ meant.written_as before (map_option expr_of value.now) }
{
    match value {
        Some(tree) => WrittenRef::Expression(tree),
        None => match before {
            None => WrittenRef::First,
            Some(place) => WrittenRef::After(place),
        },
    }
}
