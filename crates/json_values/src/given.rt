//! The values that an object gives of a record's fields, with their places.
ghost use Rattle.std.specs.Prelude.{◌≡◌, ◌+◌, ◌<◌, [], ◌∷◌, ◌++◌, List, cond, is_some, length, map, IfOk, OnOk};
ghost use Rattle.std.specs.List.{range_with_len};
ghost use Rattle.aidl_values.specs.Data.{Data, rec};
ghost use Rattle.aidl_values.specs.View.{items_of, view};
ghost use Rattle.json_values.specs.steps.Defaults.{datas_of};
ghost use Rattle.json_values.specs.steps.Given.{AreGiven, filled, given_or};

use crate::default_rows::Defaults;
use aidl_base::{OutOfMemory, Row};
use aidl_values::{Fields, Places, Value};
use std::alloc::Global;

// Values that were given, and the places of their fields.
pub struct Given {
    places: Places,
    values: Vec<Value>,
}

// By hand, so that one who drops it meets one call and not each part.
impl Drop for Given {
    fn drop(self) {
        let Given {
            places: _,
            values: _,
        } = self;
    }
}

impl Given {
    // The values of the first fields.
    pub fn first(alloc: Global, values: Vec<Value>) -> Result<Given, OutOfMemory>
        ensures { IfOk result (λ given. (given.places ≡ range_with_len 0 (length values.items))
            × (given.values.items ≡ values.items)) }
    {
        let places = Places::first(alloc, values.len())?;
        Ok(Given { places, values })
    }

    // How many there are.
    pub fn len(&self) -> usize
        ensures { result ≡ length self.now.values.items }
    {
        self.values.len()
    }

    // Adds the value of the next field, where one was given.
    pub fn put(&mut self, i: usize, value: Option<Value>) -> Result<(), OutOfMemory>
        requires given { AreGiven self.old i }
        requires few { i < 4096 }
        ensures given { OnOk result (AreGiven self.new (i + 1)) }
        ensures filled { OnOk result ((ds : List Data) → (d : Data) → length ds ≡ i
            → filled self.new (ds ++ d ∷ []) ≡ filled self.old ds ++ given_or value d ∷ []) }
        ensures count { OnOk result (length self.new.values.items
            ≡ length self.old.values.items + cond (is_some value) 1 0) }
    {
        if let Some(value) = value {
            self.values.push(value)?;
            self.places.push(i as u32)?;
        }
        Ok(())
    }

    // The record, with the defaults of the fields that were given none.
    pub fn into_record(self, alloc: Global, defaults: &Defaults) -> Result<Value, OutOfMemory>
        ensures { IfOk result (λ value. view value
            ≡ rec (items_of (filled self (datas_of defaults.now)))) }
    {
        let Given { places, values } = self;
        let fields = Fields::over(alloc, places, Row::from_vec(values), defaults.row()?)?;
        Ok(Value::Rec(fields))
    }
}
