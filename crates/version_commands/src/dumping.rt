//! The command `dump`: the canonical dump of a tree, written below a folder, and the line that is printed then.
ghost use Rattle.tool_frame.specs.Outside.{LinkSeen, seen_beside};
ghost use Rattle.version_commands.specs.Acting.{DumpActs};
ghost use Rattle.tool_frame.specs.Acts.{acts_by};
ghost use Rattle.tool_frame.specs.Asks.{AsksTree};
ghost use Rattle.tool_frame.specs.Ended.{Ended};
ghost use Rattle.tool_frame.specs.Exit.{number_of};
ghost use Rattle.tool_frame.specs.Halts.{HaltCause};
ghost use Rattle.tool_frame.specs.steps.Acts.{ActsAs};
ghost use Rattle.std.specs.Prelude.{◌≡◌, map, IfOk};
ghost use Rattle.api_dump.specs.Dump.{seen};
ghost use Rattle.api_versions.specs.Seen.{write_seen};
ghost use Rattle.version_commands.specs.Dumped as meant;
ghost use Rattle.version_commands.specs.Seen.{IsDue};

use aidl_base::{OutOfMemory, Row, SourceFile};
use aidl_outside::{Sink, Store, path_below};
use aidl_schema::Schema;
use api_versions::{Write, write_all};
use dump_reading::law_dump_back;
use growing::GrowingText;
use std::alloc::Global;
use tool_frame::{Exit, Halt, Printed, Verdict, end};
use tree_commands::open;

/// Runs `dump TREE OUT`. The answer is the exit.
pub fn dump<S: Store, K: Sink>(
    alloc: Global,
    tree: &str,
    out: &str,
    store: &mut S,
    sink: &mut K,
) -> Exit
    ensures { let seen = seen_beside S.Store K.Sink in (others : LinkSeen)
        → Ended (acts_by (AsksTree tree.now) (DumpActs tree.now out.now))
        (seen store.old sink.old others) (seen store.new sink.new others) (number_of result) }
{
    let answered = dump_root(alloc, tree, out, store);
    end(alloc, answered, sink)
}

// Writes the dump of the tree below a root, and what is answered then.
fn dump_root<S: Store>(alloc: Global, tree: &str, out: &str, store: &mut S) -> Result<Printed, Halt>
    ensures acts { ActsAs (AsksTree tree.now) (DumpActs tree.now out.now)
        (S.kept store.old) (S.kept store.new) (S.fault_record store.new) result }
    ensures cause { HaltCause (S.fault_record store.old) (S.fault_record store.new) result }
{
    let schema = open(alloc, tree, store)?;
    let due = dump_answer(alloc, out, &schema)?;
    write_all(alloc, due.writes.as_slice(), store)?;
    Ok(due.printed)
}

/// What is to be written, and what is printed once it is.
#[derive(Drop)]
pub struct Due {
    pub writes: Vec<Write>,
    pub printed: Printed,
}

/// What `dump` writes below a folder and prints of a schema: the files of the canonical dump in path order, and
/// `wrote N files`. Where the files pass no limit on files or tokens, they read back as the schema.
pub fn dump_answer(alloc: Global, out: &str, schema: &Schema) -> Result<Due, OutOfMemory>
    ensures due { IfOk result (IsDue (meant.Dumps out.now schema.now.decls)) }
    // What is written is a checked tree with that schema.
    ensures reads_back { IfOk result (λ due.
        meant.ReadBack out.now schema.now.decls (map write_seen due.writes.items)) }
{
    law_dump_back(schema);
    let files = api_dump::dump(alloc, schema)?;
    let count = files.len();
    let mut text = GrowingText::new(alloc);
    writeln!(text, "wrote {count} files");
    let text = text.into_string()?;
    let writes = file_writes(alloc, out, files)?;
    Ok(Due {
        writes,
        printed: Printed {
            text,
            verdict: Verdict::Done,
        },
    })
}

// The writes of some files below a folder.
fn file_writes(alloc: Global, out: &str, files: Row<SourceFile>) -> Result<Vec<Write>, OutOfMemory>
    ensures { IfOk result (λ writes.
        map write_seen writes.items ≡ map (meant.file_write out.now) (map seen files)) }
{
    let mut writes = Vec::new(alloc);
    for file in files.into_vec() {
        writes.push(file_write(alloc, out, file)?)?;
    }
    Ok(writes)
}

fn file_write(alloc: Global, out: &str, file: SourceFile) -> Result<Write, OutOfMemory>
    ensures { IfOk result (λ write. write_seen write ≡ meant.file_write out.now (seen file)) }
{
    let path = path_below(alloc, out, file.path.as_str())?;
    Ok(Write {
        path,
        bytes: file.into_bytes(),
    })
}
