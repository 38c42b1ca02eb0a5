//! Sorts of types, by base and shape: scalars, parcelables and unions, and types that E16 refuses.
ghost use Rattle.std.specs.Prelude.{◌≡◌, map};
ghost use Rattle.declared_names.specs.Entries.{entry_of};
ghost use Rattle.type_uses.specs.Bases as meant;

use crate::stand::is_text;
use declared_names::Found;
use name_resolution::Resolved;
use type_shapes::{Shape, is_composite, is_enum};

// `found` are the declarations of the tree.

/// Whether a base is a primitive or an enum.
pub fn is_scalar(found: &[Found<'_>], base: Resolved) -> bool
    ensures { result ≡ meant.is_scalar (map entry_of found.now) base }
{
    match base {
        Resolved::Builtin(_) => !is_text(base),
        Resolved::Declared(number) => is_enum(found, number),
        _ => false,
    }
}

/// Whether E16 refuses a type.
pub fn is_refused(shape: Shape) -> bool
    ensures { result ≡ meant.is_refused shape }
{
    match shape {
        Shape::Refused => true,
        _ => false,
    }
}

/// Whether E16 refuses a return type; void is none.
pub fn is_refused_result(shape: Option<Shape>) -> bool
    ensures { result ≡ meant.is_refused_result shape }
{
    match shape {
        Some(shape) => is_refused(shape),
        None => false,
    }
}

/// Whether a type is a parcelable or a union of shape one.
pub fn is_one_composite(found: &[Found<'_>], shape: Shape) -> bool
    ensures { result ≡ meant.is_one_composite (map entry_of found.now) shape }
{
    match shape {
        Shape::One(base) => is_composite(found, base),
        _ => false,
    }
}

/// Whether a type is a primitive or an enum of shape one.
pub fn is_one_scalar(found: &[Found<'_>], shape: Shape) -> bool
    ensures { result ≡ meant.is_one_scalar (map entry_of found.now) shape }
{
    match shape {
        Shape::One(base) => is_scalar(found, base),
        _ => false,
    }
}
