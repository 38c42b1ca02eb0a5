//! Opening a tree, or two, for a command: the files, loaded from a store and checked.
ghost use Rattle.tree_commands.specs.Both.{AreOpened, IsOneUnchecked};
ghost use Rattle.tree_commands.specs.Opens.{IsOpened, IsUnchecked};
ghost use Rattle.tool_frame.specs.Asks.{AsksTree};
ghost use Rattle.tool_frame.specs.Due.{AsksTreeThen};
ghost use Rattle.tool_frame.specs.Halts.{Gets};
ghost use Rattle.tool_frame.specs.Seen.{store_seen};

use crate::checking::{check_both, check_tree};
use crate::loading::load_both;
use aidl_outside::Store;
use aidl_schema::Schema;
use std::alloc::Global;
use tool_frame::{Halt, load_sources};

/// The schema of the tree below a root, or what is printed where it isn't checked.
pub fn open<S: Store>(alloc: Global, root: &str, store: &mut S) -> Result<Schema, Halt>
    ensures { let seen = store_seen S.Store in
        Gets (AsksTree root.now) (IsOpened root.now) (IsUnchecked root.now)
        (seen store.old) (seen store.new) result }
{
    let files = load_sources(alloc, root, store)?;
    let schema = check_tree(alloc, root, files)?;
    Ok(schema)
}

/// The schemas of the trees below two roots, or what is printed of the first that isn't checked. The limits of the files of both
/// come before all else.
pub fn open_both<S: Store>(
    alloc: Global,
    first: &str,
    second: &str,
    store: &mut S,
) -> Result<(Schema, Schema), Halt>
    ensures { let seen = store_seen S.Store in
        Gets (AsksTreeThen first.now (AsksTree second.now)) (AreOpened first.now second.now)
        (IsOneUnchecked first.now second.now) (seen store.old) (seen store.new) result }
{
    let (olds, news) = load_both(alloc, first, second, store)?;
    let schemas = check_both(alloc, first, olds, second, news)?;
    Ok(schemas)
}
