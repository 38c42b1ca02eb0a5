//! The value that a constant expression is to have, by the type that it stands for.
ghost use Rattle.std.specs.Prelude.{◌≡◌, map};
ghost use Rattle.aidl_syntax.specs.Trees.{decl_of};
ghost use Rattle.aidl_syntax.specs.Members.{body};
ghost use Rattle.declared_names.specs.Entries.{entry_of};
ghost use Rattle.type_shapes.specs.Types as meant;

use crate::shape::Shape;
use aidl_syntax::{BodyTree, DeclTree};
use const_values::Wanted;
use declared_names::Found;
use name_resolution::{BuiltinName, Resolved};

/// The value that is wanted of one expression for a type; `found` are the declarations of the tree.
pub fn wanted_one(found: &[Found<'_>], shape: Shape) -> Wanted
    ensures { result ≡ meant.wanted_one (map entry_of found.now) shape }
{
    match shape {
        Shape::One(base) => wanted_of(found, base),
        _ => Wanted::Nothing,
    }
}

/// The value that is wanted of a member of a brace list for a type.
pub fn wanted_element(found: &[Found<'_>], shape: Shape) -> Wanted
    ensures { result ≡ meant.wanted_element (map entry_of found.now) shape }
{
    match shape {
        Shape::Array(base) => wanted_of(found, base),
        Shape::List(base) => wanted_of(found, base),
        _ => Wanted::Nothing,
    }
}

// The value that is wanted for a base.
fn wanted_of(found: &[Found<'_>], base: Resolved) -> Wanted
    ensures { result ≡ meant.wanted_of (map entry_of found.now) base }
{
    match base {
        Resolved::Builtin(name) => wanted_of_builtin(name),
        Resolved::Declared(number) => wanted_of_number(found, number),
        _ => Wanted::Nothing,
    }
}

fn wanted_of_builtin(name: BuiltinName) -> Wanted
    ensures { result ≡ meant.wanted_of_builtin name }
{
    match name {
        BuiltinName::Boolean => Wanted::Boolean,
        BuiltinName::Byte => Wanted::Byte,
        BuiltinName::Char => Wanted::Character,
        BuiltinName::Int => Wanted::Int,
        BuiltinName::Long => Wanted::Long,
        BuiltinName::Text => Wanted::Text,
    }
}

fn wanted_of_number(found: &[Found<'_>], number: u32) -> Wanted
    ensures { result ≡ meant.wanted_of_number (map entry_of found.now) number }
{
    if is_enum(found, number) {
        Wanted::Enum(number)
    } else {
        Wanted::Nothing
    }
}

/// Whether the declaration with a number is an enum.
pub fn is_enum(found: &[Found<'_>], number: u32) -> bool
    ensures { result ≡ meant.is_enum (map entry_of found.now) number }
{
    match found.get(number as usize) {
        Some(f) => is_enum_tree(f.tree),
        None => false,
    }
}

/// Whether a declaration is an enum.
pub fn is_enum_tree(tree: &DeclTree) -> bool
    ensures { result ≡ meant.is_enum_body (body (decl_of tree.now)) }
{
    match &tree.body {
        BodyTree::Enum(_) => true,
        _ => false,
    }
}
