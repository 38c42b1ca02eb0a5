//! The tables that find the members of a declaration by name, and what makes them.
ghost use Rattle.std.specs.Prelude.{◌≡◌, IfSome};
ghost use Rattle.json_writing.specs.Named.{enumerators_of};

use aidl_base::OutOfMemory;
use aidl_schema::{Base, Enumerator, Field, Schema};
use json_writing::{RowMaker, enumerators_in, fields_of};
use name_tables::NameTable;
use std::alloc::Global;

// The fields of a parcelable or union and the enumerators of an enum, with their tables.
#[derive(Drop)]
pub struct MemberTables<'a> {
    pub fields: NameTable<'a, Field>,
    pub enumerators: NameTable<'a, Enumerator>,
}

// Makes the tables of a declaration.
#[derive(Drop)]
pub struct TableMaker<'a> {
    pub schema: &'a Schema,
}

impl<'a> RowMaker for TableMaker<'a> {
    ghost use Rattle.aidl_schema.specs.declared.schema.Base.TheVariants.{Named};
    ghost use Rattle.json_values.specs.steps.Tables.{AreTables};

    type Row = MemberTables<'a>;

    ghost is_row = { λ maker decl tables. AreTables maker.schema.now.decls (Named decl) tables };

    fn make_row(&self, alloc: Global, decl: u32) -> Result<MemberTables<'a>, OutOfMemory> {
        let base = Base::Named(decl);
        let fields = NameTable::new(alloc, fields_of(self.schema, base))?;
        let enumerators = NameTable::new(alloc, enumerators_or_none(self.schema, base))?;
        Ok(MemberTables {
            fields,
            enumerators,
        })
    }
}

// The enumerators of a base, and none of one that is no enum.
fn enumerators_or_none(schema: &Schema, base: Base) -> &[Enumerator]
    ensures { IfSome (enumerators_of schema.now.decls base) (λ es. result.now ≡ es) }
{
    match enumerators_in(schema, base) {
        Some(enumerators) => enumerators,
        None => &[],
    }
}
