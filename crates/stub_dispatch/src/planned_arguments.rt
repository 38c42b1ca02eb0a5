//! Arguments of a method, with the plans that stand for their types.
ghost use Rattle.std.specs.Prelude.{◌≡◌};
ghost use Rattle.stub_dispatch.specs.steps.Arguments.{ArePlanned};
ghost use Rattle.stub_dispatch.specs.steps.Planned.{BeginsWith};

use crate::planned_type::PlannedType;
use aidl_schema::{Arg, Schema};
use marshal_plans::Plans;
use std::marker::Model;

/// An argument of a method, with the plans that have one of its type. Contracts see it as the schema's declarations and the argument.
#[derive(Drop)]
pub struct PlannedArgument<'a> {
    schema: &'a Schema,
    plans: &'a Plans,
    interface: u32,
    method: u32,
    place: u32,
    arg: &'a Arg,
}

impl<'a> Model for PlannedArgument<'a> {
    ghost use Rattle.aidl_schema.specs.contracts.schema.Arg as declared;
    ghost use Rattle.aidl_schema.specs.contracts.schema.Decl as decl;
    ghost use Rattle.stub_dispatch.specs.steps.Arguments.{IsPlanned};
    ghost use Rattle.stub_dispatch.specs.steps.Planned.{ArgumentOf, argument_code};

    ghost Value = { ArgumentOf };

    ghost coded = { argument_code decl.the_row.coded declared.the_row.coded };

    ghost view = { λ of. record { decls = of.schema.now.decls; arg = of.arg.now } };

    ghost invariant = { λ of. IsPlanned of.plans.now
        of.schema.now.decls of.interface of.method of.place of.arg.now };
}

impl<'a> PlannedArgument<'a> {
    /// How it is declared.
    pub fn declared(&self) -> &'a Arg
        ensures { result.now ≡ self.now.arg }
    {
        self.arg
    }

    /// Its type, with the plan of it, which is looked up here.
    pub fn ty(&self) -> PlannedType<'a>
        ensures { result ≡ record { decls = self.now.decls; ty = self.now.arg.ty } }
    {
        let id = self.plans.argument(self.interface, self.method, self.place);
        PlannedType::new(self.schema, self.plans, self.arg.ty, id)
    }
}

/// The arguments of a method from one on, with the plans of their types. Contracts see them as the schema's declarations and these
/// arguments.
#[derive(Drop)]
pub struct PlannedArguments<'a> {
    schema: &'a Schema,
    plans: &'a Plans,
    interface: u32,
    method: u32,
    first: u32,
    args: &'a [Arg],
}

impl<'a> Model for PlannedArguments<'a> {
    ghost use Rattle.aidl_schema.specs.contracts.schema.Arg as declared;
    ghost use Rattle.aidl_schema.specs.contracts.schema.Decl as decl;
    ghost use Rattle.stub_dispatch.specs.steps.Arguments.{ArePlanned};
    ghost use Rattle.stub_dispatch.specs.steps.Planned.{ArgumentsOf, arguments_code};

    ghost Value = { ArgumentsOf };

    ghost coded = { arguments_code decl.the_row.coded declared.the_row.coded };

    ghost view = { λ of. record { decls = of.schema.now.decls; args = of.args.now } };

    ghost invariant = { λ of. ArePlanned of.plans.now
        of.schema.now.decls of.interface of.method of.first of.args.now };
}

impl<'a> PlannedArguments<'a> {
    /// All arguments of a method.
    pub fn new(
        schema: &'a Schema,
        plans: &'a Plans,
        interface: u32,
        method: u32,
        args: &'a [Arg],
    ) -> PlannedArguments<'a>
        requires { ArePlanned plans.now schema.now.decls interface method 0 args.now }
        ensures { result ≡ record { decls = schema.now.decls; args = args.now } }
    {
        PlannedArguments {
            schema,
            plans,
            interface,
            method,
            first: 0,
            args,
        }
    }

    /// The first one, and those behind it; None where there is none.
    pub fn first(&self) -> Option<(PlannedArgument<'a>, PlannedArguments<'a>)>
        ensures { BeginsWith self.now result }
    {
        let (schema, plans) = (self.schema, self.plans);
        let args = self.args;
        match args {
            [] => None,
            [arg, others @ ..] => {
                let first = PlannedArgument {
                    schema,
                    plans,
                    interface: self.interface,
                    method: self.method,
                    place: self.first,
                    arg,
                };
                let others = PlannedArguments {
                    schema,
                    plans,
                    interface: self.interface,
                    method: self.method,
                    first: self.first + 1,
                    args: others,
                };
                Some((first, others))
            }
        }
    }
}
