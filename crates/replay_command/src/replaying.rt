//! The command `replay`: the requests of a trace, answered again line by line by the interface of another tree.
ghost use Rattle.tool_frame.specs.Due.{AsksFileThen};
ghost use Rattle.tool_frame.specs.Outside.{LinkSeen, seen_beside};
ghost use Rattle.replay_command.specs.Replaying.{ReplayAnswers, replay_answer, replayed_text};
ghost use Rattle.tool_frame.specs.Asks.{AsksTree};
ghost use Rattle.tool_frame.specs.Ended.{Ended};
ghost use Rattle.tool_frame.specs.Exit.{number_of};
ghost use Rattle.tool_frame.specs.Halts.{Prints};
ghost use Rattle.tool_frame.specs.Meaning.{reads_by};
ghost use Rattle.tool_frame.specs.Seen.{store_seen};
ghost use Rattle.std.specs.Prelude.{◌≡◌, IfOk, string_bytes};
ghost use Rattle.run_command.specs.CallLines.{lines_of};
ghost use Rattle.tool_frame.specs.Results.{Gives};

use crate::lines::push_line;
use aidl_base::OutOfMemory;
use aidl_outside::{Sink, Store};
use aidl_schema::{Schema, interface_named};
use growing::GrowingText;
use marshal_plans::compile;
use run_command::{Line, SidePrinter, cut, lines_loaded};
use std::alloc::Global;
use stub_dispatch::Side;
use tool_frame::{Early, Exit, Halt, Printed, Verdict, end, refusal};
use tool_words::ReplayWords;
use tree_commands::{load_in_tree, schema_in};

/// Runs `replay SERVER INTERFACE TRACE`. The answer is the exit.
pub fn replay<S: Store, K: Sink>(
    alloc: Global,
    asked: ReplayWords<'_>,
    store: &mut S,
    sink: &mut K,
) -> Exit
    ensures { let seen = seen_beside S.Store K.Sink in let asked = asked.entry in (others : LinkSeen)
        → Ended (reads_by (AsksFileThen asked.trace.now (AsksTree asked.server.now))
        (ReplayAnswers asked.server.now asked.interface.now asked.trace.now))
        (seen store.old sink.old others) (seen store.new sink.new others) (number_of result) }
{
    let answered = replay_trace(alloc, asked, store);
    end(alloc, answered, sink)
}

// What is answered of a trace.
fn replay_trace<S: Store>(
    alloc: Global,
    asked: ReplayWords<'_>,
    store: &mut S,
) -> Result<Printed, Halt>
    ensures { let seen = store_seen S.Store in let asked = asked.entry in
        Prints (AsksFileThen asked.trace.now (AsksTree asked.server.now))
        (ReplayAnswers asked.server.now asked.interface.now asked.trace.now)
        (seen store.old) (seen store.new) result }
{
    let (file, tree) = load_in_tree(alloc, asked.trace, Some(asked.server), store)?;
    let trace = lines_loaded(alloc, file)?;
    let schema = schema_in(alloc, tree)?;
    let printed = replay_answer(alloc, &schema, asked.interface, trace.as_slice())?;
    Ok(printed)
}

/// What `replay` prints of the text of a trace by the schema of a tree: a line for each request, as the interface of a canonical name
/// receives the bytes that were delivered. Else the line `no interface NAME`, with a negative verdict. Memory may be wanted.
pub fn replay_answer(
    alloc: Global,
    schema: &Schema,
    name: &str,
    trace: &[u8],
) -> Result<Printed, Early>
    ensures { Gives result (replay_answer schema.now.decls name.now trace.now) }
{
    match interface_named(schema, name) {
        Some(interface) => Ok(Printed {
            text: replayed_text(alloc, schema, interface, trace)?,
            verdict: Verdict::Done,
        }),
        None => Err(refusal(alloc, "no interface ", name)),
    }
}

// The lines that are printed, in order. The plans and the printer are made once.
fn replayed_text(
    alloc: Global,
    schema: &Schema,
    interface: u32,
    trace: &[u8],
) -> Result<String, OutOfMemory>
    ensures { IfOk result (λ text.
        string_bytes text ≡ replayed_text schema.now.decls interface 1 (lines_of trace.now)) }
{
    let plans = compile(alloc, schema, &[])?;
    let side = Side::new(schema, &plans);
    let mut printer = SidePrinter::new(alloc, schema);
    let mut text = GrowingText::new(alloc);
    let mut rest = trace;
    let mut number = 1;
    while !rest.is_empty() {
        let (bytes, after) = cut(rest);
        let line = Line { number, bytes };
        push_line(alloc, &side, &mut printer, interface, &line, &mut text);
        rest = after;
        number += 1;
    }
    text.into_string()
}
