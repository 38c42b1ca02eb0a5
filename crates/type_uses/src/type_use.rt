//! A use of a type, with its annotations and its places in the file.
ghost use Rattle.std.specs.Prelude.{◌≡◌, map};
ghost use Rattle.aidl_syntax.specs.Trees.{annot_of};
ghost use Rattle.type_uses.specs.TypeUses as meant;
ghost use Rattle.type_uses.specs.TypeUseViews.{seen_use};

use crate::stand::Stand;
use aidl_syntax::{AnnotTree, ArgTree, ConstantTree, FieldTree, MethodTree, TypeTree};
use type_shapes::Shape;

/// Where a declaration uses a type, with what the type is: a field, a constant, a method, which has no type where it returns void, or
/// an argument.
#[derive(Clone, Copy)]
pub enum TypeUseRef<'a> {
    Field(&'a FieldTree, Shape),
    Constant(&'a ConstantTree, Shape),
    Method(&'a MethodTree, Option<Shape>),
    Argument(&'a ArgTree, Shape),
}

/// The annotations before it; those before a method are of what it returns.
pub fn annotations_of<'a>(used: TypeUseRef<'a>) -> &'a [AnnotTree]
    ensures { map annot_of result.now ≡ meant.annotations_of (seen_use used.entry) }
{
    match used {
        TypeUseRef::Field(field, _) => field.annots.as_slice(),
        TypeUseRef::Constant(constant, _) => constant.annots.as_slice(),
        TypeUseRef::Method(method, _) => method.annots.as_slice(),
        TypeUseRef::Argument(arg, _) => arg.annots.as_slice(),
    }
}

/// Where these stand.
pub fn stand_of(used: TypeUseRef<'_>) -> Stand
    ensures { result ≡ meant.stand_of (seen_use used.entry) }
{
    match used {
        TypeUseRef::Field(_, shape) => Stand::Type(shape),
        TypeUseRef::Constant(_, _) => Stand::Constant,
        TypeUseRef::Method(_, Some(shape)) => Stand::Type(shape),
        TypeUseRef::Method(_, None) => Stand::Void,
        TypeUseRef::Argument(_, shape) => Stand::Type(shape),
    }
}

/// The place of its name.
pub fn name_place(used: TypeUseRef<'_>) -> u32
    ensures { result ≡ meant.name_place (seen_use used.entry) }
{
    match used {
        TypeUseRef::Field(field, _) => field.name.offset,
        TypeUseRef::Constant(constant, _) => constant.name.offset,
        TypeUseRef::Method(method, _) => method.name.offset,
        TypeUseRef::Argument(arg, _) => arg.name.offset,
    }
}

/// The place of the type; 0 where a method returns void.
pub fn type_place(used: TypeUseRef<'_>) -> u32
    ensures { result ≡ meant.type_place (seen_use used.entry) }
{
    match used {
        TypeUseRef::Field(field, _) => field.ty.name.offset,
        TypeUseRef::Constant(constant, _) => constant.ty.name.offset,
        TypeUseRef::Method(method, _) => place_of_returned(&method.result),
        TypeUseRef::Argument(arg, _) => arg.ty.name.offset,
    }
}

fn place_of_returned(ty: &Option<TypeTree>) -> u32
    ensures { result ≡ meant.place_of_returned ty.now }
{
    match ty {
        None => 0,
        Some(ty) => ty.name.offset,
    }
}

/// Whether it is a field.
pub fn is_field(used: TypeUseRef<'_>) -> bool
    ensures { result ≡ meant.is_field (seen_use used.entry) }
{
    match used {
        TypeUseRef::Field(_, _) => true,
        _ => false,
    }
}
