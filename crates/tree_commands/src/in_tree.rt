//! A file that a command reads, and the tree that its words name beside it: both loaded, and then the tree's schema.
ghost use Rattle.std.specs.Prelude.{IfErr, IfOk};
ghost use Rattle.tool_frame.specs.Asks.{AsksOptional};
ghost use Rattle.tool_frame.specs.Due.{AsksFileThen};
ghost use Rattle.tool_frame.specs.Halts.{Gets};
ghost use Rattle.tool_frame.specs.Seen.{store_seen};
ghost use Rattle.tool_words.specs.Seen.{tree_seen};
ghost use Rattle.tree_commands.specs.Named.{AreLoaded, AreNotLoaded, IsNamed, IsSchemaIn, IsUncheckedIn, PassesIn};
ghost use Rattle.tree_commands.specs.Results.{EndsBy};

use crate::checking::check_tree;
use aidl_base::{Limit, LimitName, Row, SourceFile};
use aidl_outside::Store;
use aidl_schema::Schema;
use std::alloc::Global;
use tool_frame::{Early, Halt, load_existing, load_sources};

/// A tree: the path that the words name, and the files below it.
#[derive(Drop)]
pub struct Tree<'a> {
    pub root: &'a str,
    pub files: Row<SourceFile>,
}

/// The file at a path, or the limit that its bytes pass, which is refused later; and then the tree that the words name, where they
/// name one. Else the line `no file PATH`, or that of the limit that the tree's files pass.
pub fn load_in_tree<'a, S: Store>(
    alloc: Global,
    path: &str,
    tree: Option<&'a str>,
    store: &mut S,
) -> Result<(Result<Vec<u8>, Limit>, Option<Tree<'a>>), Halt>
    ensures { let seen = store_seen S.Store in let tree = tree_seen tree.entry in
        Gets (AsksFileThen path.now (AsksOptional tree)) (AreLoaded path.now tree)
        (AreNotLoaded path.now tree) (seen store.old) (seen store.new) result }
{
    let file = load_existing(alloc, LimitName::TextBytes, path, store)?;
    let named = load_named(alloc, tree, store)?;
    Ok((file, named))
}

// The tree that the words name, where they name one.
fn load_named<'a, S: Store>(
    alloc: Global,
    tree: Option<&'a str>,
    store: &mut S,
) -> Result<Option<Tree<'a>>, Halt>
    ensures { let seen = store_seen S.Store in let tree = tree_seen tree.entry in
        Gets (AsksOptional tree) (IsNamed tree) (PassesIn tree)
        (seen store.old) (seen store.new) result }
{
    match tree {
        None => Ok(None),
        Some(root) => {
            let files = load_sources(alloc, root, store)?;
            Ok(Some(Tree { root, files }))
        }
    }
}

/// The schema of a tree that was loaded, or what is printed where it isn't checked; the empty schema without a tree.
pub fn schema_in(alloc: Global, tree: Option<Tree<'_>>) -> Result<Schema, Early>
    ensures ok { IfOk result (λ schema. IsSchemaIn tree.entry schema.decls) }
    ensures err { IfErr result (EndsBy (IsUncheckedIn tree.entry)) }
{
    match tree {
        None => Ok(Schema::empty(alloc)),
        Some(Tree { root, files }) => check_tree(alloc, root, files),
    }
}
