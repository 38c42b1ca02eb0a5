//! A type of a schema, with the plan that stands for it.
ghost use Rattle.std.specs.Prelude.{◌≡◌, ◌<◌, ◌≤◌, ◌^◌, false, length, min, OnOk};
ghost use Rattle.aidl_values.specs.Fits.{Fits};
ghost use Rattle.aidl_values.specs.View.{view};
ghost use Rattle.marshal_plans.specs.Standing.{IsOf};
ghost use Rattle.parcel_words.specs.Taken.{TakesIfMemory};
ghost use Rattle.parcel_words.specs.Written.{with_bytes};
ghost use Rattle.wire_model.specs.ReadOf.{read_of};
ghost use Rattle.wire_model.specs.Receiver.{opening_at};
ghost use Rattle.wire_model.specs.Spell.{spell};

use crate::call_reader::CallReader;
use crate::openings::opening_from;
use aidl_schema::{AidlType, Schema};
use aidl_values::Value;
use marshal_plans::{PlanId, Plans};
use parcel_words::{ReadFault, WordWriter};
use parcel_write::{put_value, spelled_length};
use std::alloc::Global;
use std::marker::Model;

/// A type of a schema, with the plan that stands for it. Contracts see it as the schema's declarations and the type.
#[derive(Drop)]
pub struct PlannedType<'a> {
    schema: &'a Schema,
    plans: &'a Plans,
    ty: AidlType,
    id: PlanId,
}

impl<'a> Model for PlannedType<'a> {
    ghost use Rattle.aidl_schema.specs.contracts.schema.AidlType as aidl_type;
    ghost use Rattle.aidl_schema.specs.contracts.schema.Decl as decl;
    ghost use Rattle.marshal_plans.specs.Standing.{IsOf};
    ghost use Rattle.stub_dispatch.specs.steps.Planned.{TypeOf, type_code};

    ghost Value = { TypeOf };

    ghost coded = { type_code decl.the_row.coded aidl_type.the_row.coded };

    ghost view = { λ of. record { decls = of.schema.now.decls; ty = of.ty } };

    ghost invariant = { λ of. IsOf of.plans.now of.id of.schema.now.decls of.ty };
}

impl<'a> PlannedType<'a> {
    /// A type, by an id that stands for it.
    pub fn new(schema: &'a Schema, plans: &'a Plans, ty: AidlType, id: PlanId) -> PlannedType<'a>
        requires { IsOf plans.now id schema.now.decls ty }
        ensures { result ≡ record { decls = schema.now.decls; ty = ty } }
    {
        PlannedType {
            schema,
            plans,
            ty,
            id,
        }
    }

    /// The number of bytes that spell a value, or `most` where they are more.
    pub fn length(&self, value: &Value, most: usize) -> usize
        requires { Fits self.now.decls self.now.ty (view value.now) }
        ensures { result ≡ min
            (length (spell self.now.decls self.now.ty (view value.now))) most }
    {
        spelled_length(self.plans, self.id, value, most)
    }

    /// Appends the bytes that spell a value.
    pub fn put(&self, value: &Value, to: &mut WordWriter)
        requires fits { Fits self.now.decls self.now.ty (view value.now) }
        requires small { length (spell self.now.decls self.now.ty (view value.now)) < 2 ^ 31 }
        requires room { length (spell self.now.decls self.now.ty (view value.now)) ≤ to.old.room }
        ensures { to.new ≡ with_bytes to.old (spell self.now.decls self.now.ty (view value.now)) }
    {
        put_value(self.plans, self.id, value, to);
    }

    /// A value of the type, by a reader.
    pub fn value_from(&self, alloc: Global, from: &mut CallReader<'_>) -> Result<Value, ReadFault>
        ensures taken { TakesIfMemory view result
            (read_of from.old.profile self.now.decls 64 self.now.ty false from.old.bytes)
            from.new.bytes }
        ensures same { OnOk result (from.new.profile ≡ from.old.profile) }
    {
        from.value(alloc, self.plans, self.id)
    }

    /// What an `out` argument of the type starts as: an array has its length word, any other has nothing. `sum` is that of the
    /// lengths before.
    pub fn opening_from(
        &self,
        alloc: Global,
        sum: usize,
        from: &mut CallReader<'_>,
    ) -> Result<Value, ReadFault>
        requires { sum ≤ 65536 }
        ensures taken { TakesIfMemory view result
            (opening_at self.now.decls sum self.now.ty from.old.bytes) from.new.bytes }
        ensures same { OnOk result (from.new.profile ≡ from.old.profile) }
    {
        opening_from(alloc, self.schema, self.ty, sum, from)
    }
}
