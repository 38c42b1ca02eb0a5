//! The state of reading JSON values.
ghost use Rattle.std.specs.Prelude.{◌≡◌, IfOk, IfSome, Some, option_map};
ghost use Rattle.aidl_schema.specs.Holds.{AllHold};
ghost use Rattle.aidl_schema.specs.Seen.{seen};
ghost use Rattle.aidl_schema.specs.Types.{elem, form_of};
ghost use Rattle.aidl_values.specs.Sound.{IsSound};
ghost use Rattle.json_writing.specs.Named.{enumerators_of, fields_in};
ghost use Rattle.json_values.specs.steps.Defaults.{AreDefaults};
ghost use Rattle.json_values.specs.steps.Tables.{AreTables, enumerator_place, field_place};

use crate::default_rows::{Defaults, DefaultsMaker, defaults_of};
use crate::member_tables::{MemberTables, TableMaker};
use aidl_base::OutOfMemory;
use aidl_schema::{AidlType, Base, Enumerator, Field, Form, Schema, element, form_in, law_valid};
use aidl_values::law_sound;
use json_writing::{DeclRows, WALKS, enumerators_in};
use name_tables::first_place;
use std::alloc::Global;
use std::marker::Model;
use std::rc::Rc;

// Reads JSON values by the types of a schema. What it finds out of a declaration is kept for the values after it: where members stand
// by their names, and the defaults that objects leave out. Contracts see it as the declarations.
pub struct Reader<'a> {
    alloc: Global,
    schema: &'a Schema,
    tables: DeclRows<TableMaker<'a>>,
    defaults: DeclRows<DefaultsMaker<'a>>,
}

// By hand, so that one who drops it meets one call and not each table.
impl Drop for Reader<'_> {
    fn drop(self) {
        let Reader {
            alloc: _,
            schema: _,
            tables: _,
            defaults: _,
        } = self;
    }
}

impl<'a> Model for Reader<'a> {
    ghost use Rattle.std.specs.Prelude.{List, ◌≡◌};
    ghost use Rattle.std.specs.Coded.{codes};
    ghost use Rattle.aidl_base.specs.contracts.constant.Const as constant;
    ghost use Rattle.aidl_schema.specs.declared.schema.Decl.{Decl};

    ghost Value = { List Decl };

    ghost coded = { Prim.hlevel (codes, constant.the_row.coded) };

    ghost view = { λ reader. reader.schema.now.decls };

    ghost invariant = { λ reader. record {
      tables : reader.tables.schema.now.decls ≡ reader.schema.now.decls;
      defaults : reader.defaults.schema.now.decls ≡ reader.schema.now.decls;
    } };
}

impl<'a> Reader<'a> {
    // Of values of this schema.
    pub fn new(alloc: Global, schema: &'a Schema) -> Reader<'a>
        ensures { result ≡ schema.now.decls }
    {
        Reader {
            alloc,
            schema,
            tables: DeclRows::new(alloc, TableMaker { schema }),
            defaults: DeclRows::new(alloc, DefaultsMaker { schema }),
        }
    }

    pub fn alloc(&self) -> Global {
        self.alloc
    }

    // The declarations are those of a schema.
    pub fn law_schema(&self)
        ensures valid { AllHold self.now }
        ensures sound { IsSound self.now }
    {
        law_valid(self.schema);
        law_sound(self.schema);
    }

    // What a base means.
    pub fn form(&self, base: Base) -> Form<'a>
        ensures { seen result ≡ form_of self.now base }
    {
        form_in(self.schema, base)
    }

    // The type of an element.
    pub fn element(&self, ty: AidlType) -> AidlType
        ensures { result ≡ elem self.now ty }
    {
        element(self.schema, ty)
    }

    // The enumerators of the enum that a base is.
    pub fn enumerators(&self, base: Base) -> Option<&'a [Enumerator]>
        ensures { option_map (λ es. es.now) result ≡ enumerators_of self.now base }
    {
        enumerators_in(self.schema, base)
    }

    // The defaults of a parcelable's fields.
    pub fn default_values(&mut self, base: Base) -> Result<Rc<Defaults>, OutOfMemory>
        ensures same { self.new ≡ self.old }
        ensures row { IfOk result (λ defaults. AreDefaults self.old
            (fields_in (form_of self.old base)) defaults.value) }
    {
        let alloc = self.alloc;
        match base {
            Base::Named(decl) => self.defaults.row(alloc, decl),
            _ => Ok(Rc::new(alloc, defaults_of(alloc, self.schema, base)?)?),
        }
    }

    // The place of the first field of a name, among those of a base.
    pub fn field_place(
        &mut self,
        base: Base,
        fields: &[Field],
        name: &str,
    ) -> Result<Option<usize>, OutOfMemory>
        requires { fields.now ≡ fields_in (form_of self.old base) }
        ensures same { self.new ≡ self.old }
        ensures place { IfOk result (λ place. place ≡ field_place name.now fields.now) }
    {
        match self.member_tables(base, fields.len())? {
            Some(tables) => Ok(tables.fields.place(name)),
            None => Ok(first_place(fields, name)),
        }
    }

    // The place of the first enumerator of a name, among those of a base.
    pub fn enumerator_place(
        &mut self,
        base: Base,
        enumerators: &[Enumerator],
        name: &str,
    ) -> Result<Option<usize>, OutOfMemory>
        requires { enumerators_of self.old base ≡ Some enumerators.now }
        ensures same { self.new ≡ self.old }
        ensures place { IfOk result (λ place. place ≡ enumerator_place name.now enumerators.now) }
    {
        match self.member_tables(base, enumerators.len())? {
            Some(tables) => Ok(tables.enumerators.place(name)),
            None => Ok(first_place(enumerators, name)),
        }
    }

    // The tables of a base that has so many members; None where they are gone through one by one.
    fn member_tables(
        &mut self,
        base: Base,
        count: usize,
    ) -> Result<Option<Rc<MemberTables<'a>>>, OutOfMemory>
        ensures same { self.new ≡ self.old }
        ensures tables { IfOk result (λ o. IfSome o
            (λ tables. AreTables self.old base tables.value)) }
    {
        let alloc = self.alloc;
        match base {
            Base::Named(decl) if count > WALKS => self.tables.row_after_walks(alloc, decl),
            _ => Ok(None),
        }
    }
}
