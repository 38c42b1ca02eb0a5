//! What the form and the name of an entry of TYPES stand for in a schema: the shape and the base of a type.
ghost use Rattle.std.specs.Prelude.{◌≡◌};
ghost use Rattle.parcel_commands.specs.Types.{base_of, named_base, shape_of};

use aidl_schema::{Base, Schema, Shape, find};
use tool_words::Form;

/// The shape of an entry's form.
pub fn shape_of(form: Form) -> Shape
    ensures { result ≡ shape_of form }
{
    match form {
        Form::One => Shape::One,
        Form::Array => Shape::Array,
        Form::List => Shape::List,
    }
}

/// The base that a name names: a built-in one, or a declaration of the tree.
pub fn base_of(schema: &Schema, name: &[u8]) -> Option<Base>
    ensures { result ≡ base_of schema.now.decls name.now }
{
    if name == b"boolean".as_slice() {
        Some(Base::Boolean)
    } else if name == b"byte".as_slice() {
        Some(Base::Byte)
    } else if name == b"char".as_slice() {
        Some(Base::Char)
    } else if name == b"int".as_slice() {
        Some(Base::Int)
    } else if name == b"long".as_slice() {
        Some(Base::Long)
    } else if name == b"String".as_slice() {
        Some(Base::Text)
    } else {
        named_base(schema, name)
    }
}

// The declaration of a name.
fn named_base(schema: &Schema, name: &[u8]) -> Option<Base>
    ensures { result ≡ named_base schema.now.decls name.now }
{
    match str::from_utf8(name) {
        Ok(name) => find(schema, name).map(Base::Named),
        Err(_) => None,
    }
}
