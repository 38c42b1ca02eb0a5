//! The command `verify`: a line for each version of an API, and whether all are whole.
ghost use Rattle.tool_frame.specs.Outside.{LinkSeen, seen_beside};
ghost use Rattle.version_commands.specs.Verified.{VerifyAnswers};
ghost use Rattle.api_versions.specs.Asks.{AsksVersions};
ghost use Rattle.tool_frame.specs.Ended.{Ended};
ghost use Rattle.tool_frame.specs.Exit.{number_of};
ghost use Rattle.tool_frame.specs.Halts.{Prints};
ghost use Rattle.tool_frame.specs.Meaning.{reads_by};
ghost use Rattle.tool_frame.specs.Seen.{store_seen};
ghost use Rattle.tool_frame.specs.Results.{Gives};
ghost use Rattle.version_commands.specs.Verified as meant;

use crate::unread::versions_refusal;
use aidl_outside::{Sink, Store};
use api_versions::{Version, is_whole, versions};
use growing::GrowingText;
use std::alloc::Global;
use tool_frame::{Early, Exit, Halt, Printed, Verdict, end, give};
use version_lines::push_version;

/// Runs `verify API`. The answer is the exit.
pub fn verify<S: Store, K: Sink>(alloc: Global, api: &str, store: &mut S, sink: &mut K) -> Exit
    ensures { let seen = seen_beside S.Store K.Sink in (others : LinkSeen)
        → Ended (reads_by (AsksVersions api.now) (VerifyAnswers api.now))
        (seen store.old sink.old others) (seen store.new sink.new others) (number_of result) }
{
    let answered = verify_versions(alloc, api, store);
    end(alloc, answered, sink)
}

// What is answered of the versions of an API.
fn verify_versions<S: Store>(alloc: Global, api: &str, store: &mut S) -> Result<Printed, Halt>
    ensures { let seen = store_seen S.Store in
        Prints (AsksVersions api.now) (VerifyAnswers api.now)
        (seen store.old) (seen store.new) result }
{
    match versions(alloc, store, api) {
        Ok(versions) => {
            let printed = verify_answer(alloc, versions.as_slice())?;
            Ok(printed)
        }
        Err(fault) => Err(versions_refusal(alloc, fault)),
    }
}

/// What `verify` prints of the versions of an API: a line for each, and exit 1 if any isn't whole.
pub fn verify_answer(alloc: Global, versions: &[Version]) -> Result<Printed, Early>
    ensures { Gives result (meant.verified versions.now) }
{
    let mut text = GrowingText::new(alloc);
    let mut all_whole = true;
    for version in versions {
        let whole = is_whole(alloc, version)?;
        push_version(alloc, version, whole, &mut text);
        all_whole = all_whole && whole;
    }
    let verdict = if all_whole {
        Verdict::Done
    } else {
        Verdict::Negative
    };
    give(text, verdict)
}
