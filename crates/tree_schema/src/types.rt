//! The type in the schema of a type that is written in a file, with the flags of its annotations.
ghost use Rattle.std.specs.Prelude.{◌≡◌, map};
ghost use Rattle.aidl_syntax.specs.Trees.{annot_of};
ghost use Rattle.declared_names.specs.Declarations.{declarations};
ghost use Rattle.tree_schema.specs.steps.Scopes.{files_of};
ghost use Rattle.tree_schema.specs.Types as meant;

use crate::scope::Scope;
use aidl_schema::{AidlType, Base, Shape};
use aidl_syntax::{AnnotTree, TypeTree};
use name_resolution::{BuiltinName, Resolved};
use type_shapes::Shape as TreeShape;
use type_uses::kept_of;

/// The type in the schema that a type of a file is, where names are looked up in `scope`, and behind annotations (AOSP, "AIDL
/// language", "Types"). For one that E16 refuses an array of int stands.
pub fn type_of(scope: &Scope<'_, '_>, annots: &[AnnotTree], ty: &TypeTree) -> AidlType
    ensures { result ≡ meant.type_of (files_of scope.now) scope.now.file scope.now.number
        (map annot_of annots.now) ty.now }
{
    match scope.shape_of(ty) {
        TreeShape::One(base) => flagged(annots, base_of(scope, base), Shape::One),
        TreeShape::Array(base) => flagged(annots, base_of(scope, base), Shape::Array),
        TreeShape::List(base) => flagged(annots, base_of(scope, base), Shape::List),
        TreeShape::Refused => flagged(annots, Base::Int, Shape::Array),
    }
}

// A type with the flags that its annotations give.
fn flagged(annots: &[AnnotTree], base: Base, shape: Shape) -> AidlType
    ensures { result ≡ meant.flagged (map annot_of annots.now) base shape }
{
    let kept = kept_of(annots);
    AidlType {
        base,
        shape,
        nullable: kept.nullable,
        heap: kept.heap,
        utf8: kept.utf8,
    }
}

// The base that a name means. For the list word and for a left-out name int stands: E16 and E5 refuse them.
fn base_of(scope: &Scope<'_, '_>, name: Resolved) -> Base
    ensures { result ≡ meant.base_of (declarations (files_of scope.now)) name }
{
    match name {
        Resolved::Builtin(BuiltinName::Boolean) => Base::Boolean,
        Resolved::Builtin(BuiltinName::Byte) => Base::Byte,
        Resolved::Builtin(BuiltinName::Char) => Base::Char,
        Resolved::Builtin(BuiltinName::Int) => Base::Int,
        Resolved::Builtin(BuiltinName::Long) => Base::Long,
        Resolved::Builtin(BuiltinName::Text) => Base::Text,
        Resolved::Declared(number) => match scope.schema_number(Some(number)) {
            Some(number) => Base::Named(number),
            None => Base::Int,
        },
        Resolved::ListWord => Base::Int,
        Resolved::LeftOut => Base::Int,
    }
}
