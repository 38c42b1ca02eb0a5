//! The fields and the methods of declarations, by their kinds, and the ways of arguments.
ghost use Rattle.std.specs.Prelude.{◌≡◌};
ghost use Rattle.aidl_schema.specs.Containment.{fields_of};
ghost use Rattle.aidl_schema.specs.Find.{methods_at};
ghost use Rattle.aidl_schema.specs.Methods.{is_in_way};
ghost use Rattle.aidl_schema.specs.Names.{methods_of};

use crate::schema::{Direction, Field, Kind, Method, Schema};

/// The fields of a parcelable or a union; none of another kind.
pub fn fields_of(kind: &Kind) -> &[Field]
    ensures { result.now ≡ fields_of kind.now }
{
    match kind {
        Kind::Parcelable(fields) => fields.as_slice(),
        Kind::Union(fields) => fields.as_slice(),
        Kind::Interface(_) => &[],
        Kind::Enum(_, _) => &[],
    }
}

/// The methods of an interface; none of another kind.
pub fn methods_of(kind: &Kind) -> &[Method]
    ensures { result.now ≡ methods_of kind.now }
{
    match kind {
        Kind::Interface(methods) => methods.as_slice(),
        _ => &[],
    }
}

/// The methods of the interface with a number; none where it is no interface or there is no such declaration.
pub fn methods_at(schema: &Schema, interface: u32) -> &[Method]
    ensures { result.now ≡ methods_at schema.now.decls interface }
{
    match schema.decls.as_slice().get(interface as usize) {
        Some(decl) => match &decl.kind {
            Kind::Interface(methods) => methods.as_slice(),
            _ => &[],
        },
        None => &[],
    }
}

/// Whether an argument of this direction is `in`.
pub fn is_in_way(way: Direction) -> bool
    ensures { result ≡ is_in_way way }
{
    matches!(way, Direction::In)
}
