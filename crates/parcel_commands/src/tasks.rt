//! The commands over a file of values or bytes with their types: `decode`, `encode` and `explain`.
ghost use Rattle.std.specs.Prelude.{IfOk};
ghost use Rattle.tool_words.specs.Seen.{tree_seen};
ghost use Rattle.tool_frame.specs.Due.{AsksFileThen};
ghost use Rattle.tool_frame.specs.Outside.{LinkSeen, seen_beside};
ghost use Rattle.parcel_commands.specs.steps.Tasks.{IsFit};
ghost use Rattle.parcel_commands.specs.Tasks.{TaskAnswers, answer_for, bytes_for};
ghost use Rattle.tool_frame.specs.Asks.{AsksOptional};
ghost use Rattle.tool_frame.specs.Ended.{Ended};
ghost use Rattle.tool_frame.specs.Exit.{number_of};
ghost use Rattle.tool_frame.specs.Halts.{Prints};
ghost use Rattle.tool_frame.specs.Meaning.{reads_by};
ghost use Rattle.tool_frame.specs.Results.{Finds, Gives, held};
ghost use Rattle.tool_frame.specs.Seen.{store_seen};

use crate::decoding::decode;
use crate::encoding::encode;
use crate::explaining::explain;
use crate::steps::parcel_of;
use aidl_base::{Limit, Profile};
use aidl_outside::{Sink, Store};
use aidl_schema::Schema;
use std::alloc::Global;
use tool_frame::{Early, Exit, Halt, Printed, end, text_of};
use tool_words::TypedFile;
use tree_commands::{load_in_tree, schema_in};

/// What is done with a file and the types of its values.
#[derive(Clone, Copy)]
pub enum Task {
    /// `decode [--lenient] [--tree TREE] TYPES FILE`, which reads by the profile
    Decode(Profile),
    /// `encode [--tree TREE] TYPES FILE`
    Encode,
    /// `explain [--tree TREE] TYPES FILE`
    Explain,
}

/// Runs one of these commands. The answer is the exit.
pub fn run_task<S: Store, K: Sink>(
    alloc: Global,
    task: Task,
    asked: TypedFile<'_>,
    store: &mut S,
    sink: &mut K,
) -> Exit
    ensures { let seen = seen_beside S.Store K.Sink in let asked = asked.entry in (others : LinkSeen)
        → Ended (reads_by (AsksFileThen asked.path.now (AsksOptional (tree_seen asked.tree)))
        (TaskAnswers task (tree_seen asked.tree) asked.types.now asked.path.now))
        (seen store.old sink.old others) (seen store.new sink.new others) (number_of result) }
{
    let answered = answer_task(alloc, task, asked, store);
    end(alloc, answered, sink)
}

// What is answered of a file with its types.
fn answer_task<S: Store>(
    alloc: Global,
    task: Task,
    asked: TypedFile<'_>,
    store: &mut S,
) -> Result<Printed, Halt>
    ensures { let seen = store_seen S.Store in let asked = asked.entry in
        Prints (AsksFileThen asked.path.now (AsksOptional (tree_seen asked.tree)))
        (TaskAnswers task (tree_seen asked.tree) asked.types.now asked.path.now)
        (seen store.old) (seen store.new) result }
{
    let (file, tree) = load_in_tree(alloc, asked.path, asked.tree, store)?;
    let bytes = bytes_of(alloc, task, file)?;
    let schema = schema_in(alloc, tree)?;
    let printed = answer_by(alloc, task, &schema, asked.types, bytes.as_slice())?;
    Ok(printed)
}

// The bytes that are read: of a parcel, or of a text.
fn bytes_of(alloc: Global, task: Task, file: Result<Vec<u8>, Limit>) -> Result<Vec<u8>, Early>
    ensures bytes { Finds (λ v. v.items) result (bytes_for task (held file)) }
    ensures fit { IfOk result (λ v. IsFit task v.items) }
{
    match task {
        Task::Decode(_) => parcel_of(alloc, file),
        Task::Encode => text_of(alloc, file),
        Task::Explain => parcel_of(alloc, file),
    }
}

// What is printed of them.
fn answer_by(
    alloc: Global,
    task: Task,
    schema: &Schema,
    types: &str,
    bytes: &[u8],
) -> Result<Printed, Early>
    requires { IsFit task bytes.now }
    ensures { Gives result (answer_for task schema.now.decls types.now bytes.now) }
{
    match task {
        Task::Decode(profile) => decode(alloc, profile, schema, types, bytes),
        Task::Encode => encode(alloc, schema, types, bytes),
        Task::Explain => explain(alloc, schema, types, bytes),
    }
}
