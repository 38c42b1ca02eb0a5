//! The shape of a type that is written in a file, and which bases are parcelables or unions.
ghost use Rattle.std.specs.Prelude.{◌≡◌, map};
ghost use Rattle.aidl_syntax.specs.Trees.{decl_of};
ghost use Rattle.aidl_syntax.specs.Members.{body};
ghost use Rattle.declared_names.specs.Declarations.{declarations};
ghost use Rattle.aidl_names.specs.Refusals.{IsScope};
ghost use Rattle.declared_names.specs.Entries.{entry_of};
ghost use Rattle.aidl_syntax.specs.Sources.{source_of};
ghost use Rattle.type_shapes.specs.Types as meant;
ghost use Rattle.type_shapes.specs.Types.{meaning_in};

use aidl_names::Names;
use aidl_syntax::{BodyTree, DeclTree, DottedTree, TypeTree};
use declared_names::Found;
use name_resolution::{BuiltinName, Resolved};

/// What a type is, by its base: a single value, an array or a list; or refused, as E16 has it.
#[derive(Clone, Copy)]
pub enum Shape {
    /// a single value of the base
    One(Resolved),
    /// `[]` behind the base
    Array(Resolved),
    /// `List` with the base between `<` and `>`
    List(Resolved),
    /// a name that means nothing, a `List` without an element, with `[]` or with an element that is neither `String` nor a
    /// parcelable or union, or an element behind another name
    Refused,
}

/// What a type is in a file, below the declaration with the number `scope` (AOSP, "AIDL language", "Types"; E16: own).
pub fn shape_of(names: &Names<'_>, file: u32, scope: u32, ty: &TypeTree) -> Shape
    requires { IsScope (map source_of names.now) file scope }
    ensures { result ≡ meant.shaped (declarations (map source_of names.now))
        (meaning_in (map source_of names.now) file scope) ty.now }
{
    match names.resolve(file, scope, ty.name.name.0.as_slice()) {
        None => Shape::Refused,
        Some(Resolved::ListWord) => list_with(names, file, scope, &ty.element, ty.array),
        Some(base) => plain(base, &ty.element, ty.array),
    }
}

fn list_with(
    names: &Names<'_>,
    file: u32,
    scope: u32,
    element: &Option<DottedTree>,
    brackets: bool,
) -> Shape
    requires { IsScope (map source_of names.now) file scope }
    ensures { result ≡ meant.list_with (declarations (map source_of names.now))
        (meaning_in (map source_of names.now) file scope) element.now brackets }
{
    match element {
        None => Shape::Refused,
        Some(element) => {
            if brackets {
                Shape::Refused
            } else {
                list_of(
                    names.decls(),
                    names.resolve(file, scope, element.name.0.as_slice()),
                )
            }
        }
    }
}

fn list_of(found: &[Found<'_>], element: Option<Resolved>) -> Shape
    ensures { result ≡ meant.list_of (map entry_of found.now) element }
{
    match element {
        None => Shape::Refused,
        Some(base) => {
            if is_list_element(found, base) {
                Shape::List(base)
            } else {
                Shape::Refused
            }
        }
    }
}

fn plain(base: Resolved, element: &Option<DottedTree>, brackets: bool) -> Shape
    ensures { result ≡ meant.plain base element.now brackets }
{
    match element {
        Some(_) => Shape::Refused,
        None => {
            if brackets {
                Shape::Array(base)
            } else {
                Shape::One(base)
            }
        }
    }
}

fn is_list_element(found: &[Found<'_>], base: Resolved) -> bool
    ensures { result ≡ meant.is_list_element (map entry_of found.now) base }
{
    match base {
        Resolved::Builtin(BuiltinName::Text) => true,
        _ => is_composite(found, base),
    }
}

/// Whether a base is a parcelable or a union.
pub fn is_composite(found: &[Found<'_>], base: Resolved) -> bool
    ensures { result ≡ meant.is_composite (map entry_of found.now) base }
{
    match base {
        Resolved::Declared(number) => is_composite_number(found, number),
        _ => false,
    }
}

fn is_composite_number(found: &[Found<'_>], number: u32) -> bool
    ensures { result ≡ meant.is_composite_number (map entry_of found.now) number }
{
    match found.get(number as usize) {
        Some(f) => is_composite_tree(f.tree),
        None => false,
    }
}

fn is_composite_tree(tree: &DeclTree) -> bool
    ensures { result ≡ meant.is_composite_body (body (decl_of tree.now)) }
{
    match &tree.body {
        BodyTree::Parcelable(_) => true,
        BodyTree::Union(_) => true,
        BodyTree::Enum(_) => false,
        BodyTree::Interface { .. } => false,
    }
}
