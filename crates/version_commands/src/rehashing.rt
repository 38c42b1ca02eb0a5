//! The command `rehash`: the hashes of an API's versions, written again, or why none was.
ghost use Rattle.tool_frame.specs.Outside.{LinkSeen, seen_beside};
ghost use Rattle.version_commands.specs.Acting.{RehashActs};
ghost use Rattle.api_versions.specs.Asks.{AsksVersions};
ghost use Rattle.tool_frame.specs.Acts.{acts_by};
ghost use Rattle.tool_frame.specs.Ended.{Ended};
ghost use Rattle.tool_frame.specs.Exit.{number_of};
ghost use Rattle.tool_frame.specs.Halts.{HaltCause};
ghost use Rattle.tool_frame.specs.steps.Acts.{ActsAs};
ghost use Rattle.tool_frame.specs.Results.{Gives};
ghost use Rattle.version_commands.specs.Ends.{RehashEnds};
ghost use Rattle.version_commands.specs.Rehashed as meant;

use crate::unread::versions_refusal;
use aidl_outside::{Sink, Store};
use api_freeze::RehashFault;
use growing::GrowingText;
use std::alloc::Global;
use tool_frame::{Early, Exit, Halt, Printed, Verdict, end, give};
use version_lines::torn_answer;

/// Runs `rehash API`. The answer is the exit.
pub fn rehash<S: Store, K: Sink>(alloc: Global, api: &str, store: &mut S, sink: &mut K) -> Exit
    ensures { let seen = seen_beside S.Store K.Sink in (others : LinkSeen)
        → Ended (acts_by (AsksVersions api.now) (RehashActs api.now))
        (seen store.old sink.old others) (seen store.new sink.new others) (number_of result) }
{
    let answered = rehash_versions(alloc, api, store);
    end(alloc, answered, sink)
}

// Writes hashes again, and what is answered then.
fn rehash_versions<S: Store>(alloc: Global, api: &str, store: &mut S) -> Result<Printed, Halt>
    ensures acts { ActsAs (AsksVersions api.now) (RehashActs api.now)
        (S.kept store.old) (S.kept store.new) (S.fault_record store.new) result }
    ensures cause { HaltCause (S.fault_record store.old) (S.fault_record store.new) result }
{
    match api_freeze::rehash(alloc, store, api) {
        Ok(numbers) => {
            let printed = rehash_answer(alloc, numbers.len())?;
            Ok(printed)
        }
        Err(fault) => Err(rehash_refusal(alloc, fault)),
    }
}

/// What `rehash` prints of so many hashes that were written.
pub fn rehash_answer(alloc: Global, count: usize) -> Result<Printed, Early>
    ensures { Gives result (meant.rehashed count) }
{
    let mut text = GrowingText::new(alloc);
    writeln!(text, "rehashed {count}");
    give(text, Verdict::Done)
}

/// How `rehash` ends where it refuses: with `bad versions missing N`; `torn N missing HASH` or `torn N kept BYTES HASH`; or a limit. Or a call
/// of the store failed, or memory was wanted.
pub fn rehash_refusal(alloc: Global, fault: RehashFault) -> Halt
    ensures { RehashEnds meant.IsUnhashed fault result }
{
    match fault {
        RehashFault::Versions(fault) => versions_refusal(alloc, fault),
        RehashFault::Torn(torn) => Halt::from(torn_answer(
            alloc,
            torn.version,
            &torn.kept,
            &torn.text,
        )),
        RehashFault::Write(fault) => Halt::from(fault),
        RehashFault::OutOfMemory => Halt::OutOfMemory,
    }
}
