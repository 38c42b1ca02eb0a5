//! The command `check`, and the schema of a tree for each command that needs it, or what is printed of its refusal.
ghost use Rattle.tool_frame.specs.Outside.{LinkSeen, seen_beside};
ghost use Rattle.tree_commands.specs.Both.{IsFaultOfOne};
ghost use Rattle.tree_commands.specs.Checked.{CheckAnswers, accepted};
ghost use Rattle.tool_frame.specs.Asks.{AsksTree};
ghost use Rattle.tool_frame.specs.Ended.{Ended};
ghost use Rattle.tool_frame.specs.Exit.{number_of};
ghost use Rattle.tool_frame.specs.Halts.{Prints};
ghost use Rattle.tool_frame.specs.Meaning.{reads_by};
ghost use Rattle.tool_frame.specs.Seen.{store_seen};
ghost use Rattle.std.specs.Prelude.{IfOk, IfErr};
ghost use Rattle.tree_commands.specs.Faults.{IsFaultAnswer};
ghost use Rattle.tool_frame.specs.Results.{Gives};
ghost use Rattle.tree_commands.specs.Results.{EndsBy};
ghost use Rattle.type_check.specs.Checked.{IsSchemaOf};

use crate::faults::fault_answer;
use crate::opening::open;
use aidl_base::{Row, SourceFile};
use aidl_outside::{Sink, Store};
use aidl_schema::Schema;
use growing::GrowingText;
use std::alloc::Global;
use tool_frame::{Early, Exit, Halt, Printed, Verdict, end, give};

/// Runs `check TREE`. The answer is the exit.
pub fn check<S: Store, K: Sink>(alloc: Global, root: &str, store: &mut S, sink: &mut K) -> Exit
    ensures { let seen = seen_beside S.Store K.Sink in (others : LinkSeen)
        → Ended (reads_by (AsksTree root.now) (CheckAnswers root.now))
        (seen store.old sink.old others) (seen store.new sink.new others) (number_of result) }
{
    let answered = check_root(alloc, root, store);
    end(alloc, answered, sink)
}

// What is answered of the tree below a root: what is printed of its schema, or of a tree that isn't checked.
fn check_root<S: Store>(alloc: Global, root: &str, store: &mut S) -> Result<Printed, Halt>
    ensures { let seen = store_seen S.Store in
        Prints (AsksTree root.now) (CheckAnswers root.now) (seen store.old) (seen store.new) result }
{
    let schema = open(alloc, root, store)?;
    let printed = accepted(alloc, &schema)?;
    Ok(printed)
}

// The line of a tree that is checked: `ok N types`, N the number of declarations.
fn accepted(alloc: Global, schema: &Schema) -> Result<Printed, Early>
    ensures { Gives result (accepted schema.now.decls) }
{
    let count = schema.decls.len();
    let mut text = GrowingText::new(alloc);
    writeln!(text, "ok {count} types");
    give(text, Verdict::Done)
}

/// The schema of the files of a tree with a root. Where the tree isn't checked it answers what is printed of it: with exit 1 one
/// line per fault, `PATH:OFFSET: ` and `lex NUMBER NAME`, `syntax` or a rule with its name, PATH being the root, `/` and the
/// file's path, OFFSET bytes from the file's start; or with exit 7 the limit that is passed. Memory may be wanted.
pub fn check_tree(alloc: Global, root: &str, files: Row<SourceFile>) -> Result<Schema, Early>
    ensures ok { IfOk result (λ schema. IsSchemaOf files schema.decls) }
    ensures err { IfErr result (EndsBy (IsFaultAnswer root.now files)) }
{
    let sources = files.as_slice();
    match type_check::check(alloc, sources) {
        Ok(schema) => Ok(schema),
        Err(fault) => Err(fault_answer(alloc, root, sources, fault)),
    }
}

/// The schemas of the files of two trees with their roots, or what is printed of the first tree that isn't checked. Memory may be
/// wanted.
pub fn check_both(
    alloc: Global,
    first: &str,
    olds: Row<SourceFile>,
    second: &str,
    news: Row<SourceFile>,
) -> Result<(Schema, Schema), Early>
    ensures ok { IfOk result (λ both. IsSchemaOf olds both.0.decls × IsSchemaOf news both.1.decls) }
    ensures err { IfErr result (EndsBy (IsFaultOfOne first.now olds second.now news)) }
{
    let old = check_tree(alloc, first, olds)?;
    let new = check_tree(alloc, second, news)?;
    Ok((old, new))
}
