//! The entries of the fields of all declarations.
ghost use Rattle.std.specs.Prelude.{◌≡◌, ◌≤◌, ◌*◌, IfOk, OnOk, length};
ghost use Rattle.aidl_schema.specs.Containment.{fields_of};
ghost use Rattle.aidl_schema.specs.Holds.{OfEach};
ghost use Rattle.marshal_plans.specs.steps.Compiled.{firsts_from, with_decls, with_fields};

use crate::items::add_item;
use crate::plans::{PlanField, Plans};
use aidl_base::{Const, OutOfMemory};
use aidl_schema::{Decl, Field, Schema, fields_of, law_valid};
use std::alloc::Global;

/// Where the entries of each declaration begin.
pub fn firsts_of(alloc: Global, schema: &Schema) -> Result<Vec<usize>, OutOfMemory>
    ensures { IfOk result (λ firsts. firsts.items ≡ firsts_from 0 schema.now.decls) }
{
    law_valid(schema);
    sums(alloc, schema.decls.as_slice())
}

fn sums(alloc: Global, decls: &[Decl]) -> Result<Vec<usize>, OutOfMemory>
    requires few { length decls.now ≤ 16384 }
    requires short { OfEach decls.now (λ d. length (fields_of d.kind) ≤ 4096) }
    ensures { IfOk result (λ firsts. firsts.items ≡ firsts_from 0 decls.now) }
{
    let mut firsts = Vec::with_capacity(alloc, decls.len())?;
    let mut sum = 0;
    for decl in decls {
        firsts.push(sum)?;
        sum += fields_of(&decl.kind).len();
    }
    Ok(firsts)
}

/// Adds an entry for each field of each declaration.
pub fn add_entries(
    alloc: Global,
    schema: &Schema,
    firsts: &[usize],
    plans: &mut Plans,
) -> Result<(), OutOfMemory>
    ensures { OnOk result (plans.new
        ≡ with_decls schema.now.decls firsts.now plans.old schema.now.decls) }
{
    for decl in schema.decls.as_slice() {
        add_fields(alloc, schema, firsts, fields_of(&decl.kind), plans)?;
    }
    Ok(())
}

fn add_fields(
    alloc: Global,
    schema: &Schema,
    firsts: &[usize],
    fields: &[Field],
    plans: &mut Plans,
) -> Result<(), OutOfMemory>
    ensures { OnOk result (plans.new
        ≡ with_fields schema.now.decls firsts.now plans.old fields.now) }
{
    for field in fields {
        let item = add_item(schema, firsts, field.ty, plans)?;
        let initial = copy_of(alloc, &field.initial)?;
        plans.fields.push(PlanField { item, initial })?;
    }
    Ok(())
}

fn copy_of(alloc: Global, initial: &Option<Const>) -> Result<Option<Const>, OutOfMemory>
    ensures { IfOk result (λ copied. copied ≡ initial.now) }
{
    match initial {
        None => Ok(None),
        Some(constant) => Ok(Some(constant.try_clone(alloc)?)),
    }
}
