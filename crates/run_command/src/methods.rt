//! The types of a method's arguments and outs, by which the values of a line are printed.
ghost use Rattle.std.specs.Prelude.{◌≡◌, IfOk};
ghost use Rattle.wire_model.specs.Calls.{outs_of};
ghost use Rattle.wire_model.specs.Typed.{types_of};

use aidl_base::OutOfMemory;
use aidl_schema::{AidlType, Arg};
use std::alloc::Global;
use stub_dispatch::comes_back;

/// The types of arguments.
pub fn types_of(alloc: Global, args: &[Arg]) -> Result<Vec<AidlType>, OutOfMemory>
    ensures { IfOk result (λ types. types.items ≡ types_of args.now) }
{
    let types = args.iter().map(|arg| arg.ty).collect(alloc)?;
    Ok(types)
}

/// The types of the outs of arguments.
pub fn outs_of(alloc: Global, args: &[Arg]) -> Result<Vec<AidlType>, OutOfMemory>
    ensures { IfOk result (λ types. types.items ≡ outs_of args.now) }
{
    let types = args
        .iter()
        .filter(|arg| comes_back(arg.way))
        .map(|arg| arg.ty)
        .collect(alloc)?;
    Ok(types)
}
