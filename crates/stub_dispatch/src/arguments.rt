//! What a stub reads of the arguments of a request.
ghost use Rattle.std.specs.Prelude.{◌≡◌, ◌+◌, ◌≤◌, OnOk};
ghost use Rattle.aidl_values.specs.View.{view, views};
ghost use Rattle.parcel_words.specs.Taken.{TakesIfMemory};
ghost use Rattle.stub_dispatch.specs.steps.Fronts.{Continues};
ghost use Rattle.wire_model.specs.Receiver.{argument_at, arguments_at, items_in, opened_length};

use crate::call_reader::CallReader;
use crate::planned_arguments::{PlannedArgument, PlannedArguments};
use aidl_schema::{Arg, Direction};
use aidl_values::Value;
use parcel_words::ReadFault;
use std::alloc::Global;

/// What the handler sees of the arguments from one on, behind those that were read. `sum` is that of the lengths of the `out`
/// arrays before.
pub fn arguments_from(
    alloc: Global,
    args: &PlannedArguments<'_>,
    sum: usize,
    from: &mut CallReader<'_>,
    saw: &mut Vec<Value>,
) -> Result<(), ReadFault>
    requires { sum ≤ 65536 }
    ensures { Continues (views saw.old.items) (views saw.new.items) result
        (arguments_at from.old.profile args.now.decls sum args.now.args from.old.bytes)
        from.new.bytes }
{
    match args.first() {
        None => Ok(()),
        Some((arg, others)) => {
            let value = argument_from(alloc, &arg, sum, from)?;
            let sum = sum_with(sum, arg.declared(), &value);
            saw.push(value)?;
            arguments_from(alloc, &others, sum, from, saw)
        }
    }
}

// What the handler sees of an argument. `sum` is that of the lengths of the `out` arrays before.
fn argument_from(
    alloc: Global,
    arg: &PlannedArgument<'_>,
    sum: usize,
    from: &mut CallReader<'_>,
) -> Result<Value, ReadFault>
    requires { sum ≤ 65536 }
    ensures taken { TakesIfMemory view result
        (argument_at from.old.profile arg.now.decls sum arg.now.arg from.old.bytes) from.new.bytes }
    ensures same { OnOk result (from.new.profile ≡ from.old.profile) }
{
    match arg.declared().way {
        Direction::In | Direction::InOut => arg.ty().value_from(alloc, from),
        Direction::Out => arg.ty().opening_from(alloc, sum, from),
    }
}

// The sum of the lengths with the number of items that an argument starts with, which only an `out` one does.
fn sum_with(sum: usize, arg: &Arg, value: &Value) -> usize
    requires { sum + opened_length arg.now (view value.now) ≤ 65536 }
    ensures sum { result ≡ sum + opened_length arg.now (view value.now) }
    ensures few { result ≤ 65536 }
{
    match arg.way {
        Direction::In | Direction::InOut => sum,
        Direction::Out => sum + items_in(value),
    }
}

// The number of items of a sequence, and 0 of any other value.
fn items_in(value: &Value) -> usize
    ensures { result ≡ items_in (view value.now) }
{
    match value {
        Value::Seq(elements) => elements.len(),
        Value::Null
        | Value::Truth(_)
        | Value::Number(_)
        | Value::Text(_)
        | Value::Rec(_)
        | Value::Alt(_, _) => 0,
    }
}
