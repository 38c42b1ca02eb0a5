//! A callee: a method of a side, with the plans of its arguments and its result.
ghost use Rattle.std.specs.Prelude.{◌≡◌, ◌<◌, Some, length, option_map};
ghost use Rattle.aidl_schema.specs.Find.{methods_at};
ghost use Rattle.stub_dispatch.specs.steps.Planned.{TypeOf};
ghost use Rattle.wire_model.specs.Calls.{arguments, method_at, result_type};
ghost use Rattle.wire_model.specs.MethodOf.{method_of};

use crate::call::{law_planned, method_of, result_id};
use crate::planned_arguments::PlannedArguments;
use crate::planned_type::PlannedType;
use crate::side::Side;
use aidl_schema::{Method, Schema};
use marshal_plans::Plans;
use std::marker::Model;

/// A method of a side. Contracts see it as the schema's declarations, the number of its interface, and its position there.
#[derive(Drop)]
pub struct Callee<'a> {
    schema: &'a Schema,
    plans: &'a Plans,
    interface: u32,
    method: u32,
}

impl<'a> Model for Callee<'a> {
    ghost use Rattle.std.specs.Prelude.{◌<◌, length};
    ghost use Rattle.aidl_schema.specs.Find.{methods_at};
    ghost use Rattle.aidl_schema.specs.contracts.schema.Decl as decl;
    ghost use Rattle.stub_dispatch.specs.Planned.{ArePlansOf};
    ghost use Rattle.wire_model.specs.MethodOf.{MethodOf, method_code, method_of};

    ghost Value = { MethodOf };

    ghost coded = { method_code decl.the_row.coded };

    ghost view = { λ callee. method_of callee.schema.now.decls callee.interface callee.method };

    ghost invariant = { λ callee. record {
      plans : ArePlansOf callee.plans.now callee.schema.now.decls;
      there : callee.method < length (methods_at callee.schema.now.decls callee.interface);
    } };
}

impl<'a> Callee<'a> {
    /// The method at a position of an interface.
    pub fn new(side: &Side<'a>, interface: u32, method: u32) -> Callee<'a>
        requires { method < length (methods_at side.now interface) }
        ensures { result ≡ method_of side.now interface method }
    {
        Callee {
            schema: side.schema(),
            plans: side.plans(),
            interface,
            method,
        }
    }

    /// Its schema.
    pub fn schema(&self) -> &'a Schema
        ensures { result.now.decls ≡ self.now.declarations }
    {
        self.schema
    }

    /// The number of its interface.
    pub fn interface(&self) -> u32
        ensures { result ≡ self.now.interface }
    {
        self.interface
    }

    /// Its position in its interface.
    pub fn method(&self) -> u32
        ensures is { result ≡ self.now.method }
        ensures there { self.now.method < length (methods_at self.now.declarations
            self.now.interface) }
    {
        self.method
    }

    /// How it is declared.
    pub fn declared(&self) -> &'a Method
        ensures { method_at self.now ≡ Some result.now }
    {
        method_of(self.schema, self.interface, self.method)
    }

    /// Its arguments, with their plans.
    pub(crate) fn arguments(&self) -> PlannedArguments<'a>
        ensures { result ≡ record {
          decls = self.now.declarations;
          args = arguments self.now;
        } }
    {
        law_planned(self.schema, self.plans, self.interface, self.method);
        let args = method_of(self.schema, self.interface, self.method)
            .args
            .as_slice();
        PlannedArguments::new(self.schema, self.plans, self.interface, self.method, args)
    }

    /// The type of its result, with the plan of it, None of a void method.
    pub(crate) fn result(&self) -> Option<PlannedType<'a>>
        ensures { result ≡ option_map (λ ty. let of : TypeOf = record {
          decls = self.now.declarations;
          ty = ty;
        } in of) (result_type self.now) }
    {
        let ty = method_of(self.schema, self.interface, self.method).result;
        let id = result_id(self.schema, self.plans, self.interface, self.method);
        match (ty, id) {
            (Some(ty), Some(id)) => Some(PlannedType::new(self.schema, self.plans, ty, id)),
            _ => None,
        }
    }
}
