//! A side of a call: a schema, with plans that stand for it.
ghost use Rattle.std.specs.Prelude.{◌≡◌};
ghost use Rattle.stub_dispatch.specs.Planned.{ArePlansOf};

use aidl_schema::Schema;
use marshal_plans::Plans;
use std::marker::Model;

/// A side of a call: a schema, with plans that stand for it. Contracts see it as the schema's declarations.
#[derive(Drop)]
pub struct Side<'a> {
    schema: &'a Schema,
    plans: &'a Plans,
}

impl<'a> Model for Side<'a> {
    ghost use Rattle.std.specs.Prelude.{List};
    ghost use Rattle.std.specs.Coded.{coded_list};
    ghost use Rattle.aidl_schema.specs.contracts.schema.Decl as decl;
    ghost use Rattle.aidl_schema.specs.declared.schema.Decl.{Decl};
    ghost use Rattle.stub_dispatch.specs.Planned.{ArePlansOf};

    ghost Value = { List Decl };

    ghost coded = { coded_list decl.the_row.coded };

    ghost view = { λ side. side.schema.now.decls };

    ghost invariant = { λ side. ArePlansOf side.plans.now side.schema.now.decls };
}

impl<'a> Side<'a> {
    /// A side of a schema.
    pub fn new(schema: &'a Schema, plans: &'a Plans) -> Side<'a>
        requires plans { ArePlansOf plans.now schema.now.decls }
        ensures { result ≡ schema.now.decls }
    {
        Side { schema, plans }
    }

    /// Its schema.
    pub fn schema(&self) -> &'a Schema
        ensures { result.now.decls ≡ self.now }
    {
        self.schema
    }

    /// Its plans.
    pub fn plans(&self) -> &'a Plans
        ensures { ArePlansOf result.now self.now }
    {
        self.plans
    }
}
