//! The command `judge`: the evolution rules that a new tree breaks, or that it breaks none.
ghost use Rattle.std.specs.Prelude.{◌≡◌, true, codes, map, string_bytes};
ghost use Rattle.growing.specs.Grows.{Grows};
ghost use Rattle.tool_frame.specs.Due.{AsksTreeThen};
ghost use Rattle.tool_frame.specs.Outside.{LinkSeen, seen_beside};
ghost use Rattle.tree_commands.specs.Judged.{JudgeAnswers, break_line, judged};
ghost use Rattle.tool_frame.specs.Asks.{AsksTree};
ghost use Rattle.tool_frame.specs.Ended.{Ended};
ghost use Rattle.tool_frame.specs.Exit.{number_of};
ghost use Rattle.tool_frame.specs.Halts.{Prints};
ghost use Rattle.tool_frame.specs.Meaning.{reads_by};
ghost use Rattle.tool_frame.specs.Seen.{store_seen};
ghost use Rattle.std.specs.List.{flat_map};
ghost use Rattle.aidl_schema.specs.Broken.{broken};
ghost use Rattle.compat_judge.specs.Seen.{seen};
ghost use Rattle.tool_frame.specs.Answer.{done};
ghost use Rattle.tool_frame.specs.Results.{Gives};

use crate::opening::open_both;
use aidl_outside::{Sink, Store};
use aidl_schema::Schema;
use compat_judge::Broken;
use growing::GrowingText;
use std::alloc::Global;
use tool_frame::{Early, Exit, Halt, Printed, Verdict, end, give};

/// Runs `judge OLD NEW`. The answer is the exit.
pub fn judge<S: Store, K: Sink>(
    alloc: Global,
    old: &str,
    new: &str,
    store: &mut S,
    sink: &mut K,
) -> Exit
    ensures { let seen = seen_beside S.Store K.Sink in (others : LinkSeen)
        → Ended (reads_by (AsksTreeThen old.now (AsksTree new.now)) (JudgeAnswers old.now new.now))
        (seen store.old sink.old others) (seen store.new sink.new others) (number_of result) }
{
    let answered = judge_roots(alloc, old, new, store);
    end(alloc, answered, sink)
}

// What is answered of the trees below two roots.
fn judge_roots<S: Store>(
    alloc: Global,
    old: &str,
    new: &str,
    store: &mut S,
) -> Result<Printed, Halt>
    ensures { let seen = store_seen S.Store in
        Prints (AsksTreeThen old.now (AsksTree new.now)) (JudgeAnswers old.now new.now)
        (seen store.old) (seen store.new) result }
{
    let (older, newer) = open_both(alloc, old, new, store)?;
    let printed = judge_schemas(alloc, &older, &newer)?;
    Ok(printed)
}

// What is printed of two schemas: `yes`, or with exit 1 one line `C10 PLACE` per broken evolution rule.
fn judge_schemas(alloc: Global, old: &Schema, new: &Schema) -> Result<Printed, Early>
    ensures { Gives result (judged (broken old.now.decls new.now.decls)) }
{
    let rows = compat_judge::judge(alloc, old, new)?;
    if rows.len() == 0 {
        return answer_yes(alloc);
    }
    give(judge_lines(alloc, rows.as_slice()), Verdict::Negative)
}

/// The line `yes`, with exit 0.
pub fn answer_yes(alloc: Global) -> Result<Printed, Early>
    ensures { Gives result (done (codes "yes")) }
{
    let mut text = GrowingText::new(alloc);
    text.push_str("yes\n");
    give(text, Verdict::Done)
}

/// The lines of broken evolution rules, `C10 PLACE` each.
pub fn judge_lines(alloc: Global, rows: &[Broken]) -> GrowingText
    ensures { result.is_whole ≡ true → string_bytes result.text
        ≡ flat_map break_line (map seen rows.now) }
{
    let mut text = GrowingText::new(alloc);
    for row in rows {
        push_break(row, &mut text);
    }
    text
}

/// Adds the line of a broken evolution rule, `C10 PLACE`.
pub fn push_break(row: &Broken, text: &mut GrowingText)
    ensures { Grows text.old text.new (break_line (seen row.now)) }
{
    let rule = row.rule;
    let place = row.place.as_str();
    writeln!(text, "C{rule} {place}");
}
