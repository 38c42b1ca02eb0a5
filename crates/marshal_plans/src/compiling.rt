//! The plans of a schema.
ghost use Rattle.std.specs.Prelude.{◌≡◌, List, [], true, IfOk, OnOk};
ghost use Rattle.std.specs.List.{list_all};
ghost use Rattle.aidl_schema.specs.declared.schema.AidlType.{AidlType};
ghost use Rattle.aidl_schema.specs.Types.{is_type};
ghost use Rattle.marshal_plans.specs.Standing.{StandFor};
ghost use Rattle.marshal_plans.specs.steps.Compiled.{with_extras};

use crate::entries::{add_entries, firsts_of};
use crate::items::add_item;
use crate::plans::Plans;
use crate::starts::add_starts;
use aidl_base::{OutOfMemory, Row};
use aidl_schema::{AidlType, Schema};
use std::alloc::Global;

/// The plans of a schema and of some types of it.
pub fn compile(alloc: Global, schema: &Schema, extra: &[AidlType]) -> Result<Plans, OutOfMemory>
    requires { list_all (is_type schema.now.decls) extra.now ≡ true }
    // They stand for the schema and these types.
    ensures { IfOk result (λ plans. (types : List AidlType)
        × StandFor schema.now.decls extra.now types plans) }
{
    let firsts = firsts_of(alloc, schema)?;
    let mut plans = nothing(alloc);
    add_entries(alloc, schema, firsts.as_slice(), &mut plans)?;
    add_starts(schema, firsts.as_slice(), &mut plans)?;
    add_extras(schema, firsts.as_slice(), extra, &mut plans)?;
    Ok(plans)
}

fn nothing(alloc: Global) -> Plans
    ensures { result ≡ record { items = []; fields = []; starts = []; extras = [] } }
{
    Plans {
        items: Row::new(alloc),
        fields: Row::new(alloc),
        starts: Row::new(alloc),
        extras: Row::new(alloc),
    }
}

fn add_extras(
    schema: &Schema,
    firsts: &[usize],
    extra: &[AidlType],
    plans: &mut Plans,
) -> Result<(), OutOfMemory>
    ensures { OnOk result (plans.new
        ≡ with_extras schema.now.decls firsts.now plans.old extra.now) }
{
    for ty in extra {
        let id = add_item(schema, firsts, *ty, plans)?;
        plans.extras.push(id)?;
    }
    Ok(())
}
