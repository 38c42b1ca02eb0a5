//! What makes the rows of members of parcelables, which are kept while values are printed.

use crate::decl_rows::RowMaker;
use crate::members::{Member, members_of};
use crate::named::fields_of;
use aidl_base::OutOfMemory;
use aidl_schema::{Base, Schema};
use std::alloc::Global;

// Makes the members of a parcelable's object.
#[derive(Drop)]
pub struct MemberRowMaker<'a> {
    pub schema: &'a Schema,
}

impl<'a> RowMaker for MemberRowMaker<'a> {
    ghost use Rattle.aidl_schema.specs.declared.schema.Base.TheVariants.{Named};
    ghost use Rattle.aidl_schema.specs.Types.{form_of};
    ghost use Rattle.json_writing.specs.Named.{fields_in};
    ghost use Rattle.json_writing.specs.steps.Members.{IsRow};

    type Row = Vec<Member>;

    ghost is_row = { λ maker decl row. IsRow
        (fields_in (form_of maker.schema.now.decls (Named decl))) row.items };

    fn make_row(&self, alloc: Global, decl: u32) -> Result<Vec<Member>, OutOfMemory> {
        members_of(alloc, fields_of(self.schema, Base::Named(decl)))
    }
}
