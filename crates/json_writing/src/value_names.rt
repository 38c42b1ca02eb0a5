//! The names of enum values while a value is written.
ghost use Rattle.std.specs.Prelude.{◌≡◌, option_map, IfOk, Some};
ghost use Rattle.aidl_schema.specs.declared.schema.Base.TheVariants as base;
ghost use Rattle.json_writing.specs.Json.{json_among, json_named, json_number};
ghost use Rattle.json_writing.specs.Named.{enumerators_of};

use crate::decl_rows::DeclRows;
use crate::named::enumerators_in;
use crate::value_table::ValueTableMaker;
use crate::walks::WALKS;
use aidl_base::{Ident, OutOfMemory};
use aidl_schema::{Base, Enumerator, Schema};
use std::alloc::Global;
use std::marker::Model;

/// The names that the values of enums are written by, kept while one value is written: the enumerators of a large enum are
/// gone through one by one some times, and then a table of its values is made. Contracts see it as the declarations.
#[derive(Drop)]
pub struct ValueNames<'a> {
    schema: &'a Schema,
    tables: DeclRows<ValueTableMaker<'a>>,
}

impl<'a> Model for ValueNames<'a> {
    ghost use Rattle.std.specs.Prelude.{List, ◌≡◌};
    ghost use Rattle.std.specs.Coded.{codes};
    ghost use Rattle.aidl_base.specs.contracts.constant.Const as constant;
    ghost use Rattle.aidl_schema.specs.declared.schema.Decl.{Decl};

    ghost Value = { List Decl };

    ghost coded = { Prim.hlevel (codes, constant.the_row.coded) };

    ghost view = { λ names. names.schema.now.decls };

    ghost invariant = { λ names. names.tables.schema.now.decls ≡ names.schema.now.decls };
}

impl<'a> ValueNames<'a> {
    /// Without a table.
    pub fn new(alloc: Global, schema: &'a Schema) -> ValueNames<'a>
        ensures { result ≡ schema.now.decls }
    {
        ValueNames {
            schema,
            tables: DeclRows::new(alloc, ValueTableMaker { schema }),
        }
    }

    /// The name of the first enumerator of a base that has the value. None where none has it, or the base is no enum.
    pub fn name(
        &mut self,
        alloc: Global,
        base: Base,
        n: i64,
    ) -> Result<Option<&'a Ident>, OutOfMemory>
        ensures same { self.new ≡ self.old }
        ensures name { IfOk result (λ name. json_named (option_map (λ i. i.now) name) n
            ≡ json_number (enumerators_of self.old base) n) }
    {
        let Some(enumerators) = enumerators_in(self.schema, base) else {
            return Ok(None);
        };
        match base {
            Base::Named(decl) if enumerators.len() > WALKS => {
                match self.tables.row_after_walks(alloc, decl)? {
                    Some(table) => Ok(table.name(n)),
                    None => Ok(first_name(enumerators, n)),
                }
            }
            _ => Ok(first_name(enumerators, n)),
        }
    }
}

// The name of the first enumerator that has the value, one after the other.
fn first_name(enumerators: &[Enumerator], n: i64) -> Option<&Ident>
    ensures { json_named (option_map (λ i. i.now) result) n ≡ json_among enumerators.now n }
{
    for enumerator in enumerators {
        if enumerator.value == n {
            return Some(&enumerator.name);
        }
    }
    None
}
