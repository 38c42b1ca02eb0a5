//! Loading the sources of a tree, or refusing the limit that they pass.
ghost use Rattle.tool_frame.specs.Asks.{AsksTree};
ghost use Rattle.tool_frame.specs.Halts.{Loads};
ghost use Rattle.tool_frame.specs.Seen.{store_seen};
ghost use Rattle.tool_frame.specs.Trees.{tree_at};

use crate::halt::Halt;
use crate::printed::limit_passed;
use crate::tree::load_tree;
use aidl_base::{Row, SourceFile};
use aidl_outside::Store;
use std::alloc::Global;

/// The files below a root that end in `.aidl`, as `load_tree` loads them; else the line of the limit that they pass.
pub fn load_sources<S: Store>(
    alloc: Global,
    root: &str,
    store: &mut S,
) -> Result<Row<SourceFile>, Halt>
    ensures { let seen = store_seen S.Store in
        Loads (AsksTree root.now) (λ sources. sources) (λ files. tree_at files root.now)
        (seen store.old) (seen store.new) result }
{
    match load_tree(alloc, root, store)? {
        Ok(files) => Ok(files),
        Err(limit) => Err(Halt::from(limit_passed(alloc, limit))),
    }
}
