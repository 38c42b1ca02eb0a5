//! A schema with tables that find the fields of its declarations.
ghost use Rattle.std.specs.Prelude.{◌≡◌, IfOk};
ghost use Rattle.std.specs.Option.{option_copied};
ghost use Rattle.aidl_schema.specs.Find.{fields_at};
ghost use Rattle.value_views.specs.Named.{field_named};
ghost use Rattle.value_views.specs.steps.Tables.{field_lists, fields_or_none};

use aidl_base::OutOfMemory;
use aidl_schema::{Decl, Field, Schema, fields_of};
use name_tables::NameTable;
use std::alloc::Global;
use std::marker::Model;

/// A schema with tables that find the fields of its declarations by their names, made once for all values.
/// Contracts see it as the schema's declarations.
#[derive(Drop)]
pub struct NamedFields<'a> {
    schema: &'a Schema,
    tables: Vec<NameTable<'a, Field>>,
}

impl<'a> Model for NamedFields<'a> {
    ghost use Rattle.std.specs.Prelude.{List, ◌≡◌};
    ghost use Rattle.std.specs.Coded.{coded_list};
    ghost use Rattle.aidl_schema.specs.contracts.schema.Decl as decl;
    ghost use Rattle.aidl_schema.specs.declared.schema.Decl.{Decl};
    ghost use Rattle.value_views.specs.steps.Tables.{field_lists};

    ghost Value = { List Decl };

    ghost coded = { coded_list decl.the_row.coded };

    ghost view = { λ named. named.schema.now.decls };

    ghost invariant = { λ named. named.tables.items ≡ field_lists named.schema.now.decls };
}

impl<'a> NamedFields<'a> {
    /// A schema with its tables. `OutOfMemory` is the one refusal.
    pub fn new(alloc: Global, schema: &'a Schema) -> Result<NamedFields<'a>, OutOfMemory>
        ensures { IfOk result (λ named. named ≡ schema.now.decls) }
    {
        let tables = tables_of(alloc, schema.decls.as_slice())?;
        Ok(NamedFields { schema, tables })
    }

    /// The schema.
    pub fn schema(&self) -> &'a Schema
        ensures { result.now.decls ≡ self.now }
    {
        self.schema
    }

    // The table of the fields of a number's declaration.
    fn table(&self, number: u32) -> Option<&NameTable<'a, Field>>
        ensures { fields_or_none (option_copied result) ≡ fields_at self.now number }
    {
        self.tables.as_slice().get(number as usize)
    }

    /// The position of the field of a name, which is in UTF-8, in the parcelable or union of a number.
    pub fn field_named(&self, number: u32, name: &str) -> Option<usize>
        ensures { result ≡ field_named (fields_at self.now number) name.now }
    {
        match self.table(number) {
            Some(table) => table.place(name),
            None => None,
        }
    }
}

// A table of the fields of each declaration.
fn tables_of<'a>(alloc: Global, decls: &'a [Decl]) -> Result<Vec<NameTable<'a, Field>>, OutOfMemory>
    ensures { IfOk result (λ tables. tables.items ≡ field_lists decls.now) }
{
    let mut tables = Vec::with_capacity(alloc, decls.len())?;
    for decl in decls {
        tables.push(NameTable::new(alloc, fields_of(&decl.kind))?)?;
    }
    Ok(tables)
}
