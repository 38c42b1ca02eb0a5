//! The starts of the arguments and results of all methods.
ghost use Rattle.std.specs.Prelude.{◌≡◌, ◌≤◌, OnOk, Some, None, length};
ghost use Rattle.aidl_schema.specs.Holds.{OfEach};
ghost use Rattle.aidl_schema.specs.Names.{methods_of};
ghost use Rattle.marshal_plans.specs.steps.Compiled.{added, started, with_arguments, with_interfaces, with_methods, with_result};

use crate::items::add_item;
use crate::plans::{MethodNumbers, PlanStart, Plans};
use aidl_base::OutOfMemory;
use aidl_schema::{AidlType, Arg, Method, Schema, law_valid, methods_of};

/// Adds a start for each argument and each result of each method.
pub fn add_starts(schema: &Schema, firsts: &[usize], plans: &mut Plans) -> Result<(), OutOfMemory>
    ensures { OnOk result (plans.new
        ≡ with_interfaces schema.now.decls firsts.now 0 plans.old schema.now.decls) }
{
    law_valid(schema);
    for (n, decl) in schema.decls.as_slice().iter().enumerate() {
        add_methods(schema, firsts, n as u32, methods_of(&decl.kind), plans)?;
    }
    Ok(())
}

fn add_methods(
    schema: &Schema,
    firsts: &[usize],
    interface: u32,
    methods: &[Method],
    plans: &mut Plans,
) -> Result<(), OutOfMemory>
    requires few { length methods.now ≤ 4096 }
    requires short { OfEach methods.now (λ m. length m.args ≤ 255) }
    ensures { OnOk result (plans.new
        ≡ with_methods schema.now.decls firsts.now interface 0 plans.old methods.now) }
{
    for (m, method) in methods.iter().enumerate() {
        let numbers = MethodNumbers {
            interface,
            method: m as u32,
        };
        add_arguments(schema, firsts, numbers, method.args.as_slice(), plans)?;
        add_result(schema, firsts, numbers, method.result, plans)?;
    }
    Ok(())
}

fn add_arguments(
    schema: &Schema,
    firsts: &[usize],
    numbers: MethodNumbers,
    arguments: &[Arg],
    plans: &mut Plans,
) -> Result<(), OutOfMemory>
    requires { length arguments.now ≤ 255 }
    ensures { OnOk result (plans.new
        ≡ with_arguments schema.now.decls firsts.now
        numbers.interface numbers.method 0 plans.old arguments.now) }
{
    for (k, argument) in arguments.iter().enumerate() {
        add_start(schema, firsts, numbers, Some(k as u32), argument.ty, plans)?;
    }
    Ok(())
}

fn add_result(
    schema: &Schema,
    firsts: &[usize],
    numbers: MethodNumbers,
    returned: Option<AidlType>,
    plans: &mut Plans,
) -> Result<(), OutOfMemory>
    ensures { OnOk result (plans.new ≡ with_result
        schema.now.decls firsts.now numbers.interface numbers.method plans.old returned) }
{
    match returned {
        None => Ok(()),
        Some(ty) => add_start(schema, firsts, numbers, None, ty, plans),
    }
}

fn add_start(
    schema: &Schema,
    firsts: &[usize],
    numbers: MethodNumbers,
    place: Option<u32>,
    ty: AidlType,
    plans: &mut Plans,
) -> Result<(), OutOfMemory>
    ensures { OnOk result (plans.new ≡ started
        (added schema.now.decls firsts.now plans.old ty) numbers.interface numbers.method place) }
{
    let item = add_item(schema, firsts, ty, plans)?;
    plans.starts.push(PlanStart {
        interface: numbers.interface,
        method: numbers.method,
        place,
        item,
    })?;
    Ok(())
}
