//! What is printed of a tree that is refused, for each sort of refusal.
ghost use Rattle.tree_commands.specs.Faults.{IsFaultAnswer};
ghost use Rattle.tree_commands.specs.Results.{EndsBy};
ghost use Rattle.type_check.specs.Refusals.{IsRefusal};

use crate::lines::{breach_lines, lex_lines};
use crate::places::syntax_lines;
use aidl_base::SourceFile;
use std::alloc::Global;
use tool_frame::{Early, Verdict, end_as, limit_passed};
use type_check::CheckFault;

/// What is printed of the files of a tree with a root, where they are refused: one line per fault, or the limit.
pub fn fault_answer(alloc: Global, root: &str, files: &[SourceFile], fault: CheckFault) -> Early
    requires { IsRefusal files.now fault }
    ensures { EndsBy (IsFaultAnswer root.now files.now) result }
{
    let verdict = Verdict::Negative;
    match fault {
        CheckFault::Limit(limit) => limit_passed(alloc, limit),
        CheckFault::Lex(rows) => end_as(lex_lines(alloc, root, files, rows.as_slice()), verdict),
        CheckFault::Syntax(rows) => end_as(
            syntax_lines(alloc, root, files, rows.as_slice()),
            verdict,
        ),
        CheckFault::Breaches(rows) => end_as(
            breach_lines(alloc, root, files, rows.as_slice()),
            verdict,
        ),
        CheckFault::OutOfMemory => Early::OutOfMemory,
    }
}
