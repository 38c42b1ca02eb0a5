//! Values: the default of a parcelable with an initializer, records that share values, their JSON and their bytes, and the
//! copy and the depth of values. Schemas: look-ups, and what the judge says of a declaration that goes.

ghost use Rattle.std.specs.Prelude.{◌≡◌, false, length, true, IfOk};
ghost use Rattle.std.specs.Rc.{rc_value};
ghost use Rattle.std.specs.Str.{chars};
ghost use Rattle.aidl_schema.specs.Types.{is_type};
ghost use Rattle.aidl_schema.specs.Valid.{IsValid};
ghost use Rattle.aidl_values.specs.Fits.{Fits};
ghost use Rattle.aidl_values.specs.View.{view};

use crate::same::{same, shows};
use aidl_base::{Const, DottedName, Ident, OutOfMemory, Parts, Row, Text};
use aidl_schema::{
    AidlType, Base, Decl, Field, Kind, Schema, Shape, find, is_type, method_of_code,
};
use aidl_values::{
    Elements, Fields, Places, Value, default_of, depth, has_type, initial_of, law_one_default,
    law_sound,
};
use compat_judge::judge;
use json_values::to_json;
use marshal_plans::compile;
use parcel_write::write;
use std::alloc::Global;
use std::process::Abort;
use std::rc::Rc;
use std::test::Fail;

// What is wanted of a record of P: its number and its text, its JSON and its bytes.
struct Wanted {
    number: i64,
    text: &'static str,
    json: &'static str,
    bytes: &'static [u8],
}

const DEFAULT: Wanted = Wanted {
    number: 0,
    text: "x",
    json: r#"{"a":0,"s":"x"}"#,
    bytes: b"\x01\0\0\0\x10\0\0\0\0\0\0\0\x01\0\0\0x\0\0\0",
};

const FOUR: Wanted = Wanted {
    number: 4,
    text: "x",
    json: r#"{"a":4,"s":"x"}"#,
    bytes: b"\x01\0\0\0\x10\0\0\0\x04\0\0\0\x01\0\0\0x\0\0\0",
};

const BEHIND: Wanted = Wanted {
    number: 0,
    text: "y",
    json: r#"{"a":0,"s":"y"}"#,
    bytes: b"\x01\0\0\0\x10\0\0\0\0\0\0\0\x01\0\0\0y\0\0\0",
};

pub fn one(base: Base) -> AidlType
    ensures { result ≡ record {
      base = base;
      shape = Shape.One;
      nullable = false;
      heap = false;
      utf8 = false;
    } }
{
    AidlType {
        base,
        shape: Shape::One,
        nullable: false,
        heap: false,
        utf8: false,
    }
}

fn text(alloc: Global, letters: &str) -> Result<Text, OutOfMemory>
    ensures { IfOk result (λ text. text ≡ chars letters.now) }
{
    Text::from_str(alloc, letters)
}

// parcelable P { int a; String s = "x"; }
fn decls(alloc: Global) -> Result<Row<Decl>, OutOfMemory>
    ensures { IfOk result (λ ds. IsValid ds) }
{
    let mut fields = Row::new(alloc);
    fields.push(Field {
        name: Ident(text(alloc, "a")?),
        ty: one(Base::Int),
        initial: None,
    })?;
    fields.push(Field {
        name: Ident(text(alloc, "s")?),
        ty: one(Base::Text),
        initial: Some(Const::Text(text(alloc, "x")?)),
    })?;
    let name = Ident(text(alloc, "P")?);
    let mut decls = Row::new(alloc);
    decls.push(Decl {
        name: DottedName(Parts::one(name)),
        outer: None,
        kind: Kind::Parcelable(fields),
        vintf: false,
        fixed: false,
        constants: Row::new(alloc),
    })?;
    Ok(decls)
}

pub fn schema(alloc: Global) -> Result<Schema, OutOfMemory> {
    let decls = decls(alloc)?;
    Ok(Schema { decls })
}

// The value inside so many sequences.
fn nested(alloc: Global, levels: usize, mut value: Value) -> Result<Value, OutOfMemory> {
    for _ in 0..levels {
        let mut items = Row::new(alloc);
        items.push(value)?;
        value = Value::Seq(Elements::Values(items));
    }
    Ok(value)
}

// Compares a value with a record of P: its type, its depth, its JSON, its bytes and its fields.
fn is_record<R: Abort + AllocGlobal>(rt: &R, schema: &Schema, value: &Value, wanted: &Wanted) {
    let ty = one(Base::Named(0));
    assert!(*rt; is_type(schema, ty));
    assert!(*rt; has_type(schema, &ty, value));
    assert!(*rt; depth(value) == 1);
    let json = to_json(rt.alloc(), schema, &ty, value).expect(rt, "memory");
    let json = json.to_string(rt.alloc()).expect(rt, "memory");
    same(rt, json.as_str(), wanted.json);
    let bytes = bytes_of(rt, schema, ty, value);
    same(rt, bytes.as_slice(), wanted.bytes);
    same(rt, fields_of(value), Some((wanted.number, wanted.text)));
}

// The bytes of a value.
fn bytes_of<R: Abort + AllocGlobal>(rt: &R, schema: &Schema, ty: AidlType, value: &Value) -> Vec<u8>
    requires known { is_type schema.now.decls ty ≡ true }
    requires fits { Fits schema.now.decls ty (view value.now) }
{
    let plans = compile(rt.alloc(), schema, &[ty]).expect(rt, "memory");
    let id = plans.extras.as_slice()[0];
    write(rt.alloc(), &plans, id, value).expect(rt, "bytes")
}

// A number and a text, where the value is a record of these two.
fn fields_of(value: &Value) -> Option<(i64, &str)> {
    match value {
        Value::Rec(fields) => number_and_text(fields),
        _ => None,
    }
}

// A number and a text, where the values of fields are these two.
fn number_and_text(fields: &Fields) -> Option<(i64, &str)> {
    if fields.len() != 2 {
        return None;
    }
    match (fields.get(0), fields.get(1)) {
        (Value::Number(a), Value::Text(s)) => Some((*a, s.as_str())),
        _ => None,
    }
}

// The default of P.
fn default<R: Abort + AllocGlobal>(rt: &R, schema: &Schema) -> Value {
    let ty = one(Base::Named(0));
    assert!(*rt; is_type(schema, ty));
    default_of(rt.alloc(), schema, &ty).expect(rt, "memory")
}

#[test]
fn the_default_has_the_initializer(rt: HostRuntime) -> Result<(), Fail> {
    let schema = schema(rt.alloc())?;
    let value = default(&rt, &schema);
    is_record(&rt, &schema, &value, &DEFAULT);
    let copy = value.try_clone(rt.alloc())?;
    is_record(&rt, &schema, &copy, &DEFAULT);
    Ok(())
}

// The defaults of the fields of P.
fn defaults(alloc: Global) -> Result<Rc<Row<Value>>, OutOfMemory>
    ensures { IfOk result (λ values. length (rc_value values) ≡ 2) }
{
    let mut values = Row::new(alloc);
    values.push(Value::Number(0))?;
    values.push(Value::Text(text(alloc, "x")?))?;
    Ok(Rc::new(alloc, values)?)
}

// A record of P of which the number 4 is given, and the text is shared.
fn four(alloc: Global, defaults: &Rc<Row<Value>>) -> Result<Value, OutOfMemory>
    requires { length (rc_value defaults.now) ≡ 2 }
{
    let mut given = Row::new(alloc);
    given.push(Value::Number(4))?;
    Ok(Value::Rec(Fields::first(alloc, given, defaults.clone()?)?))
}

// A record of P of which the number is shared, and the text "y" is given.
fn behind(alloc: Global, defaults: &Rc<Row<Value>>) -> Result<Value, OutOfMemory> {
    let mut places = Places::new(alloc);
    places.push(1)?;
    let mut given = Row::new(alloc);
    given.push(Value::Text(text(alloc, "y")?))?;
    Ok(Value::Rec(Fields::over(alloc, places, given, defaults.clone()?)?))
}

#[test]
fn records_share_the_values_left_out(rt: HostRuntime) -> Result<(), Fail> {
    let schema = schema(rt.alloc())?;
    let defaults = defaults(rt.alloc())?;
    let four = four(rt.alloc(), &defaults)?;
    is_record(&rt, &schema, &four, &FOUR);
    let copy = four.try_clone(rt.alloc())?;
    is_record(&rt, &schema, &copy, &FOUR);
    let behind = behind(rt.alloc(), &defaults)?;
    is_record(&rt, &schema, &behind, &BEHIND);
    let copy = behind.try_clone(rt.alloc())?;
    is_record(&rt, &schema, &copy, &BEHIND);
    let given = Row::new(rt.alloc());
    let all_shared = Value::Rec(Fields::first(rt.alloc(), given, defaults)?);
    is_record(&rt, &schema, &all_shared, &DEFAULT);
    Ok(())
}

#[test]
fn the_laws_of_defaults_hold(rt: HostRuntime) -> Result<(), Fail> {
    let schema = schema(rt.alloc())?;
    law_sound(&schema);
    let ty = one(Base::Named(0));
    assert!(rt; is_type(&schema, ty));
    law_one_default(&schema, &ty, &Value::Null);
    Ok(())
}

#[test]
fn a_number_is_the_initial_value_of_its_field(rt: HostRuntime) -> Result<(), Fail> {
    let schema = schema(rt.alloc())?;
    let field = Field {
        name: Ident(text(rt.alloc(), "n")?),
        ty: one(Base::Int),
        initial: Some(Const::Number(4)),
    };
    let initial = initial_of(rt.alloc(), &schema, &field)?;
    same(&rt, matches!(initial, Value::Number(4)), true);
    Ok(())
}

// A record of so many nulls.
fn wide(alloc: Global, count: usize) -> Result<Value, OutOfMemory> {
    let mut items = Row::new(alloc);
    for _ in 0..count {
        items.push(Value::Null)?;
    }
    Ok(Value::Rec(Fields::Whole(items)))
}

#[test]
fn values_are_deep_and_wide(rt: HostRuntime) -> Result<(), Fail> {
    let wide = wide(rt.alloc(), 100_000)?;
    same(&rt, depth(&wide), 1);
    let deep = nested(rt.alloc(), 1_000, wide)?;
    let copy = deep.try_clone(rt.alloc())?;
    same(&rt, depth(&copy), 1_001);
    Ok(())
}

#[test]
fn a_declaration_is_found_by_its_name(rt: HostRuntime) -> Result<(), Fail> {
    let schema = schema(rt.alloc())?;
    same(&rt, find(&schema, "P"), Some(0));
    same(&rt, find(&Schema::empty(rt.alloc()), "P"), None);
    same(&rt, method_of_code(&schema, 0, 1), None);
    Ok(())
}

#[test]
fn a_declaration_that_goes_breaks_a_rule(rt: HostRuntime) -> Result<(), Fail> {
    let alloc = rt.alloc();
    let old = schema(alloc)?;
    let new = Schema::empty(alloc);
    shows(
        &rt,
        judge(alloc, &old, &new),
        r#"Ok(Row { items: [Broken { rule: 1, place: "P" }] })"#,
    );
    shows(&rt, judge(alloc, &new, &old), "Ok(Row { items: [] })");
    shows(&rt, judge(alloc, &old, &old), "Ok(Row { items: [] })");
    Ok(())
}
