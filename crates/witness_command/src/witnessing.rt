//! The command `witness`: the evolution rules that a new tree breaks, each with a call that shows it or the reason why none is shown.
ghost use Rattle.tool_frame.specs.Due.{AsksTreeThen};
ghost use Rattle.tool_frame.specs.Outside.{LinkSeen, seen_beside};
ghost use Rattle.witness_command.specs.Witnessed.{WitnessAnswers, IsWitnessed};
ghost use Rattle.tool_frame.specs.Asks.{AsksTree};
ghost use Rattle.tool_frame.specs.Ended.{Ended};
ghost use Rattle.tool_frame.specs.Exit.{number_of};
ghost use Rattle.tool_frame.specs.Halts.{Prints};
ghost use Rattle.tool_frame.specs.Meaning.{reads_by};
ghost use Rattle.tool_frame.specs.Seen.{store_seen};
ghost use Rattle.std.specs.Prelude.{◌≡◌, IfOk, map, string_bytes};
ghost use Rattle.aidl_schema.specs.Broken.{broken};
ghost use Rattle.compat_judge.specs.Seen.{seen};
ghost use Rattle.stub_dispatch.specs.Planned.{ArePlansOf};
ghost use Rattle.tool_frame.specs.Results.{GivesOne};
ghost use Rattle.witness_command.specs.Entries.{AreEntries};

use crate::entries::entry_lines;
use aidl_base::OutOfMemory;
use aidl_outside::{Sink, Store};
use aidl_schema::Schema;
use compat_judge::{Broken, judge};
use marshal_plans::{Plans, compile};
use std::alloc::Global;
use tool_frame::{Early, Exit, Halt, Printed, Verdict, end};
use tree_commands::{answer_yes, open_both};
use witness_calls::Version;
use witness_search::Pair;

/// Runs `witness OLD NEW`. The answer is the exit.
pub fn witness<S: Store, K: Sink>(
    alloc: Global,
    old: &str,
    new: &str,
    store: &mut S,
    sink: &mut K,
) -> Exit
    ensures { let seen = seen_beside S.Store K.Sink in (others : LinkSeen)
        → Ended (reads_by (AsksTreeThen old.now (AsksTree new.now)) (WitnessAnswers old.now new.now))
        (seen store.old sink.old others) (seen store.new sink.new others) (number_of result) }
{
    let answered = witness_roots(alloc, old, new, store);
    end(alloc, answered, sink)
}

// What is answered of the trees below two roots.
fn witness_roots<S: Store>(
    alloc: Global,
    old: &str,
    new: &str,
    store: &mut S,
) -> Result<Printed, Halt>
    ensures { let seen = store_seen S.Store in
        Prints (AsksTreeThen old.now (AsksTree new.now)) (WitnessAnswers old.now new.now)
        (seen store.old) (seen store.new) result }
{
    let (older, newer) = open_both(alloc, old, new, store)?;
    let printed = answer_of_schemas(alloc, &older, &newer)?;
    Ok(printed)
}

// What is printed of two schemas: `yes`, or with exit 1 the lines of each broken evolution rule, in the judge's order (own).
fn answer_of_schemas(alloc: Global, old: &Schema, new: &Schema) -> Result<Printed, Early>
    ensures { GivesOne result
        (IsWitnessed old.now.decls new.now.decls (broken old.now.decls new.now.decls)) }
{
    let rows = judge(alloc, old, new)?;
    if rows.len() == 0 {
        return answer_yes(alloc);
    }
    let text = lines_between(alloc, old, new, rows.as_slice())?;
    Ok(Printed {
        text,
        verdict: Verdict::Negative,
    })
}

// The lines of what is broken, by plans and tables that are made once.
fn lines_between(
    alloc: Global,
    old: &Schema,
    new: &Schema,
    rows: &[Broken],
) -> Result<String, OutOfMemory>
    requires { map seen rows.now ≡ broken old.now.decls new.now.decls }
    ensures { IfOk result (λ text.
        AreEntries old.now.decls new.now.decls (map seen rows.now) (string_bytes text)) }
{
    let old_plans = plans_of(alloc, old)?;
    let new_plans = plans_of(alloc, new)?;
    let before = Version::new(alloc, old, &old_plans)?;
    let after = Version::new(alloc, new, &new_plans)?;
    let pair = Pair::new(alloc, before, after)?;
    entry_lines(alloc, &pair, rows)
}

fn plans_of(alloc: Global, schema: &Schema) -> Result<Plans, OutOfMemory>
    ensures { IfOk result (λ plans. ArePlansOf plans schema.now.decls) }
{
    compile(alloc, schema, &[])
}
