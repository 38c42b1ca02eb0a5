//! The defaults of the fields that objects leave out, made once for all objects of a JSON value.
ghost use Rattle.std.specs.Prelude.{◌≡◌, ◌<◌, ◌≤◌, nat_le, suc, map, length, IfOk, slice_get, Some};
ghost use Rattle.aidl_schema.specs.Types.{form_of};
ghost use Rattle.aidl_values.specs.Data.{Data, depth_of, rec};
ghost use Rattle.aidl_values.specs.Sound.{initial_in};
ghost use Rattle.aidl_values.specs.View.{items_of, view};
ghost use Rattle.json_writing.specs.Named.{fields_in};
ghost use Rattle.json_values.specs.steps.Defaults.{AreDefaults, datas_of, level_of};

use aidl_base::{OutOfMemory, Row};
use aidl_schema::{Base, Field, Schema};
use aidl_values::{Fields, Value, depth, initial_of};
use json_writing::{RowMaker, fields_of};
use std::alloc::Global;
use std::rc::Rc;

// The defaults of a parcelable's fields, how many levels each has, and how many a record of all.
#[derive(Drop)]
pub struct Defaults {
    row: Rc<Row<Value>>,
    levels: Vec<usize>,
    whole: usize,
}

impl Defaults {
    // The values, which are shared.
    pub fn row(&self) -> Result<Rc<Row<Value>>, OutOfMemory>
        ensures { IfOk result (λ row. map view row.value ≡ datas_of self.now) }
    {
        Ok(self.row.clone()?)
    }

    // Whether a record of all has at most so many levels.
    pub fn fit(&self, levels: usize) -> bool
        requires { levels ≤ 64 }
        ensures { self.now.whole ≡ level_of (rec (items_of (datas_of self.now)))
            → result ≡ nat_le (depth_of (rec (items_of (datas_of self.now)))) levels }
    {
        self.whole <= levels
    }

    // Whether the default of a field has fewer than so many levels.
    pub fn fits(&self, i: usize, levels: usize) -> bool
        requires { levels ≤ 64 }
        ensures { (v : Data) → slice_get self.now.levels.items i ≡ Some (level_of v)
            → result ≡ nat_le (suc (depth_of v)) levels }
    {
        match self.levels.get(i) {
            Some(level) => *level < levels,
            None => false,
        }
    }
}

// Makes the defaults of a parcelable's fields.
#[derive(Drop)]
pub struct DefaultsMaker<'a> {
    pub schema: &'a Schema,
}

impl<'a> RowMaker for DefaultsMaker<'a> {
    ghost use Rattle.aidl_schema.specs.declared.schema.Base.TheVariants.{Named};
    ghost use Rattle.aidl_schema.specs.Types.{form_of};
    ghost use Rattle.json_writing.specs.Named.{fields_in};
    ghost use Rattle.json_values.specs.steps.Defaults.{AreDefaults};

    type Row = Defaults;

    ghost is_row = { λ maker decl defaults. AreDefaults maker.schema.now.decls
        (fields_in (form_of maker.schema.now.decls (Named decl))) defaults };

    fn make_row(&self, alloc: Global, decl: u32) -> Result<Defaults, OutOfMemory> {
        defaults_of(alloc, self.schema, Base::Named(decl))
    }
}

// The defaults of the fields of what a base is.
pub fn defaults_of(alloc: Global, schema: &Schema, base: Base) -> Result<Defaults, OutOfMemory>
    ensures { IfOk result (λ defaults. AreDefaults schema.now.decls
        (fields_in (form_of schema.now.decls base)) defaults) }
{
    let values = initials_of(alloc, schema, fields_of(schema, base))?;
    let levels = levels_of(alloc, values.as_slice())?;
    let row = Rc::new(alloc, values)?;
    let whole = record_levels(alloc, &row)?;
    Ok(Defaults { row, levels, whole })
}

fn initials_of(alloc: Global, schema: &Schema, fields: &[Field]) -> Result<Row<Value>, OutOfMemory>
    ensures { IfOk result (λ row. map view row ≡ map (initial_in schema.now.decls) fields.now) }
{
    let mut values = Vec::with_capacity(alloc, fields.len())?;
    for field in fields {
        values.push(initial_of(alloc, schema, field)?)?;
    }
    Ok(Row::from_vec(values))
}

// How many levels each value has.
fn levels_of(alloc: Global, values: &[Value]) -> Result<Vec<usize>, OutOfMemory>
    ensures { IfOk result (λ levels. levels.items ≡ map level_of (map view values.now)) }
{
    let mut levels = Vec::with_capacity(alloc, values.len())?;
    for value in values {
        levels.push(depth(value))?;
    }
    Ok(levels)
}

// How many levels a record of these values has.
fn record_levels(alloc: Global, row: &Rc<Row<Value>>) -> Result<usize, OutOfMemory>
    ensures { IfOk result (λ levels. levels ≡ level_of (rec (items_of (map view row.now.value)))) }
{
    let fields = Fields::first(alloc, Row::new(alloc), row.clone()?)?;
    Ok(depth(&Value::Rec(fields)))
}
