//! Loading the sources of two trees for a command.
ghost use Rattle.tool_frame.specs.Due.{AsksTreeThen};
ghost use Rattle.tree_commands.specs.Both.{AreBoth, PassesOne};
ghost use Rattle.tool_frame.specs.Asks.{AsksTree};
ghost use Rattle.tool_frame.specs.Halts.{Gets};
ghost use Rattle.tool_frame.specs.Seen.{store_seen};

use aidl_base::{Row, SourceFile};
use aidl_outside::Store;
use std::alloc::Global;
use tool_frame::{Halt, load_sources};

/// The sources of two trees. The second is read only where those of the first pass no limit.
pub fn load_both<S: Store>(
    alloc: Global,
    first: &str,
    second: &str,
    store: &mut S,
) -> Result<(Row<SourceFile>, Row<SourceFile>), Halt>
    ensures { let seen = store_seen S.Store in
        Gets (AsksTreeThen first.now (AsksTree second.now)) (AreBoth first.now second.now)
        (PassesOne first.now second.now) (seen store.old) (seen store.new) result }
{
    let olds = load_sources(alloc, first, store)?;
    let news = load_sources(alloc, second, store)?;
    Ok((olds, news))
}
