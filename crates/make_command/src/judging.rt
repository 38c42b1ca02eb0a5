//! The judge from the older tree to the newer one.
ghost use Rattle.std.specs.Prelude.{◌≡◌, [], None, IfOk};
ghost use Rattle.aidl_schema.specs.Broken.{broken};
ghost use Rattle.make_command.specs.Making.{by_breaks};
ghost use Rattle.run_command.specs.steps.Steps.{course_by};
ghost use Rattle.tool_frame.specs.Course.{Course};

use aidl_base::OutOfMemory;
use aidl_schema::Schema;
use compat_judge::judge;
use std::alloc::Global;
use tool_frame::{Printed, Verdict};
use tree_commands::judge_lines;

/// What is printed where the newer schema may not follow the older one: a line for each broken rule, with a negative verdict. None
/// where it may. Memory may be wanted.
pub fn judge_made(alloc: Global, old: &Schema, new: &Schema) -> Result<Option<Printed>, OutOfMemory>
    ensures course { IfOk result (λ p. (calls : Course)
        → by_breaks (broken old.now.decls new.now.decls) calls ≡ course_by p calls) }
    ensures follows { IfOk result (λ p. p ≡ None → broken old.now.decls new.now.decls ≡ []) }
{
    let rows = judge(alloc, old, new)?;
    if rows.len() == 0 {
        return Ok(None);
    }
    Ok(Some(Printed {
        text: judge_lines(alloc, rows.as_slice()).into_string()?,
        verdict: Verdict::Negative,
    }))
}
