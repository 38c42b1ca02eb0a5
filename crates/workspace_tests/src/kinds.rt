//! The JSON of a value of each kind.

use crate::forms::{checked, from_text};
use crate::same::same;
use crate::values::one;
use aidl_schema::{AidlType, Base, Schema, Shape};
use aidl_values::has_type;
use json_values::to_json;
use std::process::Abort;
use std::test::Fail;

// A declaration that holds another one. They have the numbers 0 and 1.
const SOURCE: &str = "parcelable R { int a; String s; U u; union U { int n; String t; } }";

// Values that are written as they are read.
const KINDS: [(Base, Shape, &str); 12] = [
    (Base::Boolean, Shape::One, "true"),
    (Base::Int, Shape::One, "-7"),
    (Base::Long, Shape::One, "9223372036854775807"),
    (Base::Text, Shape::One, r#""a \"b\"""#),
    (Base::Text, Shape::List, r#"["a",""]"#),
    (Base::Boolean, Shape::Array, "[true,false]"),
    (Base::Byte, Shape::Array, "[-128,0,127]"),
    (Base::Char, Shape::Array, "[65,65535]"),
    (Base::Int, Shape::Array, "[1,-2]"),
    (Base::Long, Shape::Array, "[1,-2]"),
    (
        Base::Named(0),
        Shape::One,
        r#"{"a":4,"s":"y","u":{"t":"z"}}"#,
    ),
    (Base::Named(1), Shape::Array, r#"[{"n":3},{"t":""}]"#),
];

// Compares what a value is written as, which is read of the type.
fn writes<R: Abort + AllocGlobal>(rt: &R, schema: &Schema, ty: AidlType, read: &str, wanted: &str) {
    let value = from_text(rt, schema, ty, read);
    assert!(*rt; has_type(schema, &ty, &value));
    let json = to_json(rt.alloc(), schema, &ty, &value).expect(rt, "memory");
    let json = json.to_string(rt.alloc()).expect(rt, "memory");
    same(rt, json.as_str(), wanted);
}

#[test]
fn a_value_of_each_kind_is_written_as_it_is_read(rt: HostRuntime) -> Result<(), Fail> {
    let schema = checked(&rt, "R.aidl", SOURCE);
    for (base, shape, json) in &KINDS {
        let mut ty = one(*base);
        ty.shape = *shape;
        writes(&rt, &schema, ty, json, json);
    }
    Ok(())
}

#[test]
fn what_is_null_or_left_out_is_written(rt: HostRuntime) -> Result<(), Fail> {
    let schema = checked(&rt, "R.aidl", SOURCE);
    let mut text = one(Base::Text);
    text.nullable = true;
    writes(&rt, &schema, text, "null", "null");
    let default = r#"{"a":0,"s":"","u":{"n":0}}"#;
    writes(&rt, &schema, one(Base::Named(0)), "{}", default);
    Ok(())
}
