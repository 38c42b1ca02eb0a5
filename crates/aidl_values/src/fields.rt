//! The values of a record's fields, one at a time.
ghost use Rattle.std.specs.Prelude.{◌≡◌, ◌<◌, ◌≤◌, map, length, slice_get, IfOk, Some};
ghost use Rattle.std.specs.Rc.{rc_value};
ghost use Rattle.aidl_values.specs.Given.{given_then, overlaid};
ghost use Rattle.aidl_values.specs.Shared.{defaults_of, given_of};
ghost use Rattle.aidl_values.specs.View.{field_datas, short_datas, view};

use crate::places::Places;
use crate::value::{Fields, ShortFields, Value};
use aidl_base::{OutOfMemory, Row};
use std::alloc::Global;
use std::rc::Rc;

impl Fields {
    /// Values given at places, over the defaults of all fields.
    pub fn over(
        alloc: Global,
        places: Places,
        given: Row<Value>,
        defaults: Rc<Row<Value>>,
    ) -> Result<Fields, OutOfMemory>
        ensures { IfOk result (λ fs. field_datas fs
            ≡ overlaid places (map view given) 0 (map view defaults.value)) }
    {
        let short = ShortFields {
            places,
            given,
            defaults,
        };
        Ok(Fields::Short(Box::new(alloc, short)?))
    }

    /// The values of the first fields, and the defaults of those behind them.
    pub fn first(
        alloc: Global,
        given: Row<Value>,
        defaults: Rc<Row<Value>>,
    ) -> Result<Fields, OutOfMemory>
        requires { length given ≤ length defaults.value }
        ensures { IfOk result (λ fs. field_datas fs
            ≡ given_then (map view given) (map view defaults.value)) }
    {
        let places = Places::first(alloc, given.len())?;
        Fields::over(alloc, places, given, defaults)
    }

    /// How many fields there are.
    pub fn len(&self) -> usize
        ensures { result ≡ length (field_datas self.now) }
    {
        match self {
            Fields::Whole(values) => values.len(),
            Fields::Short(short) => short.len(),
        }
    }

    /// The value of a field.
    #[inline(always)]
    pub fn get(&self, i: usize) -> &Value
        requires { i < length (field_datas self.now) }
        ensures { slice_get (field_datas self.now) i ≡ Some (view result.now) }
    {
        match self {
            Fields::Whole(values) => value_at(values.as_slice(), i),
            Fields::Short(short) => short.get(i),
        }
    }
}

impl ShortFields {
    /// The values that were given.
    pub fn given(&self) -> &[Value]
        ensures { result.now ≡ given_of self.now }
    {
        self.given.as_slice()
    }

    /// The defaults of all fields.
    pub fn defaults(&self) -> &Rc<Row<Value>>
        ensures { rc_value result.now ≡ defaults_of self.now }
    {
        &self.defaults
    }

    fn len(&self) -> usize
        ensures { result ≡ length (short_datas self.now) }
    {
        self.defaults.as_ref().len()
    }

    fn get(&self, i: usize) -> &Value
        requires { i < length (short_datas self.now) }
        ensures { slice_get (short_datas self.now) i ≡ Some (view result.now) }
    {
        match self.places.find(i) {
            Some(k) if k < self.given.len() => value_at(self.given.as_slice(), k),
            _ => value_at(self.defaults.as_ref().as_slice(), i),
        }
    }
}

#[inline(always)]
fn value_at(values: &[Value], i: usize) -> &Value
    requires { i < length values.now }
    ensures { slice_get values.now i ≡ Some result.now }
{
    &values[i]
}
