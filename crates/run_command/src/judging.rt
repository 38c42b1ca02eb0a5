//! The judge on both orders of two schemas.
ghost use Rattle.std.specs.Prelude.{◌≡◌, None, IfOk, map};
ghost use Rattle.growing.specs.Grows.{Grows};
ghost use Rattle.aidl_schema.specs.Broken.{broken};
ghost use Rattle.compat_judge.specs.Seen.{seen};
ghost use Rattle.run_command.specs.Running.{judged_course, marked, neither};
ghost use Rattle.run_command.specs.steps.Steps.{course_by};
ghost use Rattle.tool_frame.specs.Course.{Course};
ghost use Rattle.tool_frame.specs.Results.{printed};
ghost use Rattle.wire_model.specs.Outcome.{OneFollows};

use aidl_base::OutOfMemory;
use aidl_schema::Schema;
use compat_judge::{Broken, judge};
use growing::GrowingText;
use std::alloc::Global;
use tool_frame::{Printed, Verdict};
use tree_commands::push_break;

/// What is printed where neither of two schemas may follow the other: the lines of what is broken from the client's to the server's,
/// each after `> `, and then the other way round, each after `< `, with a negative verdict. None where one may follow the other.
/// Memory may be wanted.
pub fn judge_both(
    alloc: Global,
    client: &Schema,
    server: &Schema,
) -> Result<Option<Printed>, OutOfMemory>
    ensures course { IfOk result (λ p. (lines : Course)
        → judged_course (broken client.now.decls server.now.decls)
        (broken server.now.decls client.now.decls) lines
        ≡ course_by p lines) }
    ensures follows { IfOk result (λ p. p ≡ None → OneFollows client.now.decls server.now.decls) }
{
    let there = judge(alloc, client, server)?;
    if there.len() == 0 {
        return Ok(None);
    }
    let back = judge(alloc, server, client)?;
    if back.len() == 0 {
        return Ok(None);
    }
    let printed = both_printed(alloc, there.as_slice(), back.as_slice())?;
    Ok(Some(printed))
}

// Both lists.
fn both_printed(alloc: Global, there: &[Broken], back: &[Broken]) -> Result<Printed, OutOfMemory>
    ensures { IfOk result (λ p. printed p ≡ neither (map seen there.now) (map seen back.now)) }
{
    let mut text = GrowingText::new(alloc);
    push_marked("> ", there, &mut text);
    push_marked("< ", back, &mut text);
    Ok(Printed {
        text: text.into_string()?,
        verdict: Verdict::Negative,
    })
}

// Adds the lines of broken rules, each behind a mark.
fn push_marked(mark: &str, rows: &[Broken], text: &mut GrowingText)
    ensures { Grows text.old text.new (marked mark.now (map seen rows.now)) }
{
    for row in rows {
        text.push_str(mark);
        push_break(row, text);
    }
}
