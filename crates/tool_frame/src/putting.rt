//! Putting a text in one piece, and printing what a command answers.
ghost use Rattle.std.specs.Prelude.{◌≡◌};
ghost use Rattle.tool_frame.specs.Exit.{number_of};
ghost use Rattle.tool_frame.specs.Ends.{PrintsGiven};
ghost use Rattle.tool_frame.specs.Prints.{Prints, PutsText};
ghost use Rattle.tool_frame.specs.Results.{printed};

use crate::exit::Exit;
use crate::printed::{Early, Printed};
use aidl_outside::{Sink, SinkFault};
use std::alloc::Global;

/// Puts a text. Where that fails, the answer is the exit with which the run ends, a front of the text was put, and the piece that failed
/// isn't empty.
pub fn put<K: Sink>(alloc: Global, text: &str, sink: &mut K) -> Result<(), Exit>
    ensures { PutsText text.now (K.told sink.old)
        (K.told sink.new) (K.fault_record sink.old) (K.fault_record sink.new) result }
{
    if text.is_empty() {
        return Ok(());
    }
    match sink.put(alloc, text.as_bytes()) {
        Ok(()) => Ok(()),
        Err(SinkFault::Failed) => Err(Exit::SinkFailed),
        Err(SinkFault::OutOfMemory) => Err(Exit::OutOfMemory),
    }
}

/// Prints what a command answers. The answer is the exit.
pub fn print<K: Sink>(alloc: Global, answered: Result<Printed, Early>, sink: &mut K) -> Exit
    ensures { PrintsGiven answered (K.told sink.old)
        (K.told sink.new) (K.fault_record sink.old) (K.fault_record sink.new) (number_of result) }
{
    match answered {
        Ok(printed) => print_whole(alloc, &printed, sink),
        Err(Early::Answered(printed)) => print_whole(alloc, &printed, sink),
        Err(Early::OutOfMemory) => Exit::OutOfMemory,
    }
}

/// Prints an answer.
#[tactic(auto, using(crate::proofs::Puts::prints_whole, crate::proofs::Puts::prints_front))]
pub fn print_whole<K: Sink>(alloc: Global, answer: &Printed, sink: &mut K) -> Exit
    ensures { Prints (printed answer.now) (K.told sink.old)
        (K.told sink.new) (K.fault_record sink.old) (K.fault_record sink.new) (number_of result) }
{
    match put(alloc, answer.text.as_str(), sink) {
        Ok(()) => answer.verdict.exit(),
        Err(exit) => exit,
    }
}
