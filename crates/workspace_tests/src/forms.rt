//! How values are kept, which no contract says: numbers and truth values side by side, and records that share their defaults, whether
//! they are read from JSON or from bytes, or are a default.

use crate::same::same;
use crate::values::{one, schema};
use aidl_base::{Profile, Row, SourceFile, Text};
use aidl_schema::{AidlType, Base, Schema, Shape, is_type};
use aidl_values::{Elements, Fields, Value, default_of};
use json_values::{from_json, parse_json};
use marshal_plans::compile;
use parcel_read::read;
use std::fmt::Write;
use std::process::Abort;
use std::rc::Rc;
use std::test::Fail;
use type_check::check;

fn array(base: Base) -> AidlType {
    let mut ty = one(base);
    ty.shape = Shape::Array;
    ty
}

// What is read of the type from JSON, null where it is refused.
pub fn from_text<R: Abort + AllocGlobal>(
    rt: &R,
    schema: &Schema,
    ty: AidlType,
    json: &str,
) -> Value {
    let json = parse_json(rt.alloc(), json.as_bytes()).expect(rt, "memory");
    let json = json.expect(rt, "JSON");
    match from_json(rt.alloc(), schema, &ty, &json) {
        Ok(value) => value,
        Err(_) => Value::Null,
    }
}

// What is read of the type from bytes.
fn from_bytes<R: Abort + AllocGlobal>(
    rt: &R,
    schema: &Schema,
    ty: AidlType,
    bytes: &[u8],
) -> Value {
    assert!(*rt; is_type(schema, ty));
    let plans = compile(rt.alloc(), schema, &[ty]).expect(rt, "memory");
    let id = plans.extras.as_slice()[0];
    let (value, _) = read(rt.alloc(), Profile::Strict, &plans, id, bytes).expect(rt, "a value");
    value
}

// Whether two records have the same row of defaults.
fn share(one: &Value, other: &Value) -> bool {
    match (one, other) {
        (Value::Rec(Fields::Short(one)), Value::Rec(Fields::Short(other))) => {
            Rc::ptr_eq(one.defaults(), other.defaults())
        }
        _ => false,
    }
}

// Whether a sequence is two records that share their defaults.
fn both_share(value: &Value) -> bool {
    match value {
        Value::Seq(Elements::Values(items)) => match items.as_slice() {
            [one, other] => share(one, other),
            _ => false,
        },
        _ => false,
    }
}

// How many values of a record that has defaults were given.
fn given(value: &Value) -> Option<usize> {
    match value {
        Value::Rec(Fields::Short(short)) => Some(short.given().len()),
        _ => None,
    }
}

#[test]
fn numbers_stand_side_by_side(rt: HostRuntime) -> Result<(), Fail> {
    let schema = schema(rt.alloc())?;
    let ints = from_text(&rt, &schema, array(Base::Int), "[1,2]");
    same(&rt, matches!(ints, Value::Seq(Elements::Ints(_))), true);
    let bytes = from_text(&rt, &schema, array(Base::Byte), "[1,2]");
    same(&rt, matches!(bytes, Value::Seq(Elements::Bytes(_))), true);
    let ints = from_bytes(
        &rt,
        &schema,
        array(Base::Int),
        b"\x02\0\0\0\x01\0\0\0\x02\0\0\0",
    );
    same(&rt, matches!(ints, Value::Seq(Elements::Ints(_))), true);
    let bytes = from_bytes(&rt, &schema, array(Base::Byte), b"\x02\0\0\0\x01\x02\0\0");
    same(&rt, matches!(bytes, Value::Seq(Elements::Bytes(_))), true);
    Ok(())
}

#[test]
fn truth_values_stand_side_by_side(rt: HostRuntime) -> Result<(), Fail> {
    let schema = schema(rt.alloc())?;
    let truths = from_text(&rt, &schema, array(Base::Boolean), "[true]");
    same(&rt, matches!(truths, Value::Seq(Elements::Truths(_))), true);
    let truths = from_bytes(&rt, &schema, array(Base::Boolean), b"\x01\0\0\0\x01\0\0\0");
    same(&rt, matches!(truths, Value::Seq(Elements::Truths(_))), true);
    Ok(())
}

#[test]
fn records_share_the_fields_left_out(rt: HostRuntime) -> Result<(), Fail> {
    let schema = schema(rt.alloc())?;
    let records = array(Base::Named(0));
    let read = from_text(&rt, &schema, records, r#"[{},{"a":4}]"#);
    same(&rt, both_share(&read), true);
    // Each is a marker, the record's size, and the number alone.
    let bytes = b"\x02\0\0\0\x01\0\0\0\x08\0\0\0\x04\0\0\0\x01\0\0\0\x08\0\0\0\x05\0\0\0";
    let read = from_bytes(&rt, &schema, records, bytes);
    same(&rt, both_share(&read), true);
    Ok(())
}

#[test]
fn copies_of_a_default_share_its_fields(rt: HostRuntime) -> Result<(), Fail> {
    let schema = schema(rt.alloc())?;
    let ty = one(Base::Named(0));
    assert!(rt; is_type(&schema, ty));
    let value = default_of(rt.alloc(), &schema, &ty)?;
    let copy = value.try_clone(rt.alloc())?;
    same(&rt, share(&value, &copy), true);
    Ok(())
}

// The schema of one file, or no declaration where it is refused.
pub fn checked<R: Abort + AllocGlobal>(rt: &R, path: &str, source: &str) -> Schema {
    let alloc = rt.alloc();
    let bytes = source.as_bytes().to_vec(alloc).expect(rt, "memory");
    let file = SourceFile {
        path: Text::from_str(alloc, path).expect(rt, "memory"),
        bytes: Row::from_vec(bytes),
    };
    match check(alloc, &[file]) {
        Ok(schema) => schema,
        Err(_) => Schema::empty(alloc),
    }
}

// parcelable W { int f0; int f1; .. int f510; }
fn wide<R: Abort + AllocGlobal>(rt: &R) -> String {
    let mut source = String::new(rt.alloc());
    source.push_str("parcelable W {").expect(rt, "memory");
    for k in 0..511 {
        write!(source, "int f{k};").expect(rt, "memory");
    }
    source.push_str("}").expect(rt, "memory");
    source
}

#[test]
fn a_field_behind_those_left_out_is_given_alone(rt: HostRuntime) -> Result<(), Fail> {
    let schema = checked(&rt, "W.aidl", wide(&rt).as_str());
    let last = from_text(&rt, &schema, one(Base::Named(0)), r#"{"f510":4}"#);
    same(&rt, given(&last), Some(1));
    Ok(())
}
