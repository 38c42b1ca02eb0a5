//! The command `freeze`: a tree as the next version of an API.
ghost use Rattle.tool_frame.specs.Outside.{LinkSeen, seen_beside};
ghost use Rattle.version_commands.specs.Acting.{FreezeActs};
ghost use Rattle.tree_commands.specs.Opens.{AsksCheckedThen};
ghost use Rattle.api_versions.specs.Asks.{AsksVersions};
ghost use Rattle.tool_frame.specs.Acts.{acts_by};
ghost use Rattle.tool_frame.specs.Ended.{Ended};
ghost use Rattle.tool_frame.specs.Exit.{number_of};
ghost use Rattle.tool_frame.specs.Halts.{HaltCause};
ghost use Rattle.tool_frame.specs.steps.Acts.{ActsAs};
ghost use Rattle.version_commands.specs.Frozen as meant;
ghost use Rattle.tool_frame.specs.Results.{Gives};

use crate::refusing::freeze_refusal;
use aidl_outside::{Sink, Store};
use api_freeze::Frozen;
use growing::GrowingText;
use std::alloc::Global;
use tool_frame::{Early, Exit, Halt, Printed, Verdict, end, give};
use tree_commands::open;

/// Runs `freeze TREE API`. The answer is the exit.
pub fn freeze<S: Store, K: Sink>(
    alloc: Global,
    tree: &str,
    api: &str,
    store: &mut S,
    sink: &mut K,
) -> Exit
    ensures { let seen = seen_beside S.Store K.Sink in (others : LinkSeen)
        → Ended (acts_by (AsksCheckedThen tree.now (AsksVersions api.now))
        (FreezeActs tree.now api.now))
        (seen store.old sink.old others) (seen store.new sink.new others) (number_of result) }
{
    let answered = freeze_root(alloc, tree, api, store);
    end(alloc, answered, sink)
}

// Freezes the tree below a root, and what is answered then.
fn freeze_root<S: Store>(
    alloc: Global,
    tree: &str,
    api: &str,
    store: &mut S,
) -> Result<Printed, Halt>
    ensures acts { ActsAs (AsksCheckedThen tree.now (AsksVersions api.now))
        (FreezeActs tree.now api.now)
        (S.kept store.old) (S.kept store.new) (S.fault_record store.new) result }
    ensures cause { HaltCause (S.fault_record store.old) (S.fault_record store.new) result }
{
    let schema = open(alloc, tree, store)?;
    match api_freeze::freeze(alloc, &schema, store, api) {
        Ok(version) => {
            let printed = freeze_answer(alloc, &version)?;
            Ok(printed)
        }
        Err(fault) => Err(freeze_refusal(alloc, api, fault)),
    }
}

/// What `freeze` prints of a version that was frozen: `frozen N HASH`.
pub fn freeze_answer(alloc: Global, frozen: &Frozen) -> Result<Printed, Early>
    ensures { Gives result (meant.frozen frozen.now.version frozen.now.hash) }
{
    let version = frozen.version;
    let hash = frozen.hash.as_str();
    let mut text = GrowingText::new(alloc);
    writeln!(text, "frozen {version} {hash}");
    give(text, Verdict::Done)
}
