//! A table of an enum's names by value.
ghost use Rattle.std.specs.Prelude.{◌≡◌, option_map, IfOk};
ghost use Rattle.json_writing.specs.Json.{json_among, json_named};

use crate::decl_rows::RowMaker;
use crate::named::enumerators_in;
use aidl_base::{Ident, OutOfMemory};
use aidl_schema::{Base, Enumerator, Schema};
use indexmap::IndexMap;
use std::alloc::Global;
use std::marker::Model;

// The name of the first enumerator of each value. Contracts see it as the enumerators.
#[derive(Drop)]
pub struct ValueTable<'a> {
    enumerators: &'a [Enumerator],
    names: IndexMap<i64, &'a Ident>,
}

impl<'a> Model for ValueTable<'a> {
    ghost use Rattle.std.specs.Prelude.{List, ℤ, ◌≡◌, option_map};
    ghost use Rattle.std.specs.Ordering.{int_eq};
    ghost use Rattle.indexmap.specs.IndexMap.{get};
    ghost use Rattle.aidl_schema.specs.declared.schema.Enumerator.{Enumerator};
    ghost use Rattle.json_writing.specs.Json.{json_among, json_named};

    ghost Value = { List Enumerator };

    ghost view = { λ table. table.enumerators.now };

    ghost invariant = { λ table. (n : ℤ) →
        json_named (option_map (λ name. name.now) (get int_eq table.names n)) n
        ≡ json_among table.enumerators.now n };
}

impl<'a> ValueTable<'a> {
    // From the last enumerator on, so that the first of a value stays.
    pub fn new(alloc: Global, enumerators: &'a [Enumerator]) -> Result<ValueTable<'a>, OutOfMemory>
        ensures { IfOk result (λ table. table ≡ enumerators.now) }
    {
        let mut names = IndexMap::with_capacity(alloc, enumerators.len())?;
        for i in (0..enumerators.len()).rev() {
            let enumerator = &enumerators[i];
            names.insert(enumerator.value, &enumerator.name)?;
        }
        Ok(ValueTable { enumerators, names })
    }

    // The name of the first enumerator that has the value.
    pub fn name(&self, n: i64) -> Option<&'a Ident>
        ensures { json_named (option_map (λ name. name.now) result) n ≡ json_among self.now n }
    {
        self.names.get(&n).copied()
    }
}

// Makes the table of an enum.
#[derive(Drop)]
pub struct ValueTableMaker<'a> {
    pub schema: &'a Schema,
}

impl<'a> RowMaker for ValueTableMaker<'a> {
    ghost use Rattle.std.specs.Prelude.{◌≡◌, IfSome};
    ghost use Rattle.aidl_schema.specs.declared.schema.Base.TheVariants.{Named};
    ghost use Rattle.json_writing.specs.Named.{enumerators_of};

    type Row = ValueTable<'a>;

    ghost is_row = { λ maker decl table. IfSome
        (enumerators_of maker.schema.now.decls (Named decl)) (λ es. table ≡ es) };

    fn make_row(&self, alloc: Global, decl: u32) -> Result<ValueTable<'a>, OutOfMemory> {
        match enumerators_in(self.schema, Base::Named(decl)) {
            Some(enumerators) => ValueTable::new(alloc, enumerators),
            None => ValueTable::new(alloc, &[]),
        }
    }
}
