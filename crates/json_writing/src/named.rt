//! Members that have a name in JSON: the enumerators and the fields of a base.
ghost use Rattle.std.specs.Prelude.{◌≡◌, option_map};
ghost use Rattle.aidl_schema.specs.Types.{form_of};
ghost use Rattle.json_writing.specs.Named.{enumerators_of, fields_in};

use aidl_schema::{Base, Enumerator, Field, Form, Kind, Schema, form_in};

/// The enumerators of the enum that a base is; None of another base.
pub fn enumerators_in(schema: &Schema, base: Base) -> Option<&[Enumerator]>
    ensures { option_map (λ es. es.now) result ≡ enumerators_of schema.now.decls base }
{
    match base {
        Base::Named(n) => match schema.decls.as_slice().get(n as usize) {
            Some(decl) => match &decl.kind {
                Kind::Enum(_, enumerators) => Some(enumerators.as_slice()),
                _ => None,
            },
            None => None,
        },
        _ => None,
    }
}

/// The fields of the parcelable or union that a base is; none of another base.
pub fn fields_of(schema: &Schema, base: Base) -> &[Field]
    ensures { result.now ≡ fields_in (form_of schema.now.decls base) }
{
    match form_in(schema, base) {
        Form::Parcelable(fields) | Form::Union(fields) => fields,
        _ => &[],
    }
}
