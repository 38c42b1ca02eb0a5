//! The end of a run whose words are refused.
ghost use Rattle.tool_frame.specs.Ended.{Refused};
ghost use Rattle.tool_frame.specs.Exit.{number_of};
ghost use Rattle.tool_frame.specs.Outside.{sink_beside};
ghost use Rattle.tool_frame.specs.Seen.{Seen};

use crate::exit::Exit;
use crate::putting::put;
use aidl_outside::Sink;
use std::alloc::Global;

/// Refuses the words. The answer is the exit.
#[tactic(auto, using(crate::proofs::Puts::refused_whole, crate::proofs::Puts::refused_front))]
pub fn refuse<K: Sink>(alloc: Global, sink: &mut K) -> Exit
    ensures { let seen = sink_beside K.Sink in (others : Seen)
        → Refused (seen sink.old others) (seen sink.new others) (number_of result) }
{
    match put(alloc, "refused words\n", sink) {
        Ok(()) => Exit::RefusedWords,
        Err(exit) => exit,
    }
}
