//! The end of a command that reads the store: its answer is printed, unless the store failed.
ghost use Rattle.tool_frame.specs.Exit.{number_of};
ghost use Rattle.tool_frame.specs.Ends.{EndsRead};

use crate::exit::Exit;
use crate::halt::Halt;
use crate::printed::Printed;
use crate::putting::print_whole;
use aidl_outside::Sink;
use std::alloc::Global;

/// Ends a command that reads the store: prints what it answered of the files that were read, unless a call of the store
/// failed. The answer is the exit.
pub fn end<K: Sink>(alloc: Global, answered: Result<Printed, Halt>, sink: &mut K) -> Exit
    ensures { EndsRead answered (K.told sink.old)
        (K.told sink.new) (K.fault_record sink.old) (K.fault_record sink.new) (number_of result) }
{
    match answered {
        Ok(printed) => print_whole(alloc, &printed, sink),
        Err(Halt::Answered(printed)) => print_whole(alloc, &printed, sink),
        Err(Halt::StoreFailed) => Exit::StoreFailed,
        Err(Halt::OutOfMemory) => Exit::OutOfMemory,
    }
}
