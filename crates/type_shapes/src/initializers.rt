//! Which initializers aren't judged, as their form doesn't fit the field or its type.
ghost use Rattle.std.specs.Prelude.{◌≡◌, map};
ghost use Rattle.aidl_syntax.specs.Trees.{init_of};
ghost use Rattle.declared_names.specs.Entries.{entry_of};
ghost use Rattle.type_shapes.specs.Initializers as meant;

use crate::shape::{Shape, is_composite};
use aidl_syntax::InitTree;
use declared_names::Found;

/// Whether the initializer of a field, which may be one after the first of a union, has no outcome for its form.
pub fn is_unjudged(found: &[Found<'_>], later: bool, shape: Shape, init: &InitTree) -> bool
    ensures { result ≡ meant.is_unjudged (map entry_of found.now) later shape (init_of init.now) }
{
    later || misfits(found, shape, init)
}

fn misfits(found: &[Found<'_>], shape: Shape, init: &InitTree) -> bool
    ensures { result ≡ meant.misfits (map entry_of found.now) shape (init_of init.now) }
{
    match init {
        InitTree::Single(_) => refuses_single(found, shape),
        InitTree::Braces { items, .. } => match items.as_slice() {
            [] => refuses_braces(found, shape, false),
            [_, ..] => refuses_braces(found, shape, true),
        },
    }
}

fn refuses_single(found: &[Found<'_>], shape: Shape) -> bool
    ensures { result ≡ meant.refuses_single (map entry_of found.now) shape }
{
    match shape {
        Shape::One(base) => is_composite(found, base),
        Shape::Array(_) => true,
        Shape::List(_) => true,
        Shape::Refused => true,
    }
}

fn refuses_braces(found: &[Found<'_>], shape: Shape, some: bool) -> bool
    ensures { result ≡ meant.refuses_braces (map entry_of found.now) shape some }
{
    match shape {
        Shape::One(_) => true,
        Shape::Array(base) => is_composite(found, base) && some,
        Shape::List(base) => is_composite(found, base) && some,
        Shape::Refused => true,
    }
}
