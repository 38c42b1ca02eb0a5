//! The places where annotations may stand.
ghost use Rattle.std.specs.Prelude.{◌≡◌};
ghost use Rattle.aidl_syntax.specs.Trees.{decl_of};
ghost use Rattle.aidl_syntax.specs.Members.{body};
ghost use Rattle.type_uses.specs.Annotations as meant;

use aidl_syntax::{BodyTree, DeclTree};
use name_resolution::{BuiltinName, Resolved};
use type_shapes::Shape;

/// Where annotations stand.
#[derive(Clone, Copy)]
pub enum Stand {
    /// at a field, an argument or a method that returns a value, by what the type is
    Type(Shape),
    /// at a method that returns void
    Void,
    /// at a constant
    Constant,
    /// at a parcelable or a union
    Composite,
    /// at an enum
    Enum,
    /// at an interface
    Interface,
}

/// Where the annotations of a declaration stand.
pub fn stand_of_tree(tree: &DeclTree) -> Stand
    ensures { result ≡ meant.stand_of_body (body (decl_of tree.now)) }
{
    match &tree.body {
        BodyTree::Parcelable(_) => Stand::Composite,
        BodyTree::Union(_) => Stand::Composite,
        BodyTree::Enum(_) => Stand::Enum,
        BodyTree::Interface { .. } => Stand::Interface,
    }
}

/// Whether the base of a type is String, or E16 refuses the type.
pub fn is_text_based(shape: Shape) -> bool
    ensures { result ≡ meant.is_text_based shape }
{
    match shape {
        Shape::One(base) => is_text(base),
        Shape::Array(base) => is_text(base),
        Shape::List(base) => is_text(base),
        Shape::Refused => true,
    }
}

/// Whether a base is String.
pub fn is_text(base: Resolved) -> bool
    ensures { result ≡ meant.is_text base }
{
    match base {
        Resolved::Builtin(BuiltinName::Text) => true,
        _ => false,
    }
}
