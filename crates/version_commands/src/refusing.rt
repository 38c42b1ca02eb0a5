//! The printed lines of a refused `freeze`.
ghost use Rattle.std.specs.Prelude.{◌++◌, codes, decimal, map};
ghost use Rattle.std.specs.List.{flat_map};
ghost use Rattle.api_freeze.specs.Freeze.{IsRead};
ghost use Rattle.version_commands.specs.Frozen as meant;
ghost use Rattle.version_commands.specs.Seen.{Follows};
ghost use Rattle.compat_judge.specs.Seen.{seen};
ghost use Rattle.tool_frame.specs.Answer.{line, negative};
ghost use Rattle.tree_commands.specs.Faults.{refused};
ghost use Rattle.tree_commands.specs.Judged.{break_line};
ghost use Rattle.tool_frame.specs.Results.{EndsAs};
ghost use Rattle.tree_commands.specs.Results as tree;
ghost use Rattle.type_check.specs.Refusals.{IsRefusal};
ghost use Rattle.version_commands.specs.Ends.{FreezeEnds};

use crate::unread::versions_refusal;
use aidl_base::{Row, SourceFile};
use api_freeze::FreezeFault;
use api_versions::version_folder;
use compat_judge::Broken;
use growing::GrowingText;
use std::alloc::Global;
use tool_frame::{Early, Halt, Verdict, end_as, limit_passed};
use tree_commands::{fault_answer, judge_lines};
use type_check::CheckFault;
use version_lines::torn_answer;

/// How `freeze` ends where it refuses: with `bad versions missing N`; `torn N missing HASH` or `torn N kept BYTES HASH`; `unreadable N`
/// and the lines of the version's faults; `unchanged N`; the judge's lines; or a limit. Or a call of the store failed, or memory was wanted.
pub fn freeze_refusal(alloc: Global, api: &str, fault: FreezeFault) -> Halt
    requires { IsRead fault }
    ensures { FreezeEnds (meant.IsUnfrozen api.now) fault result }
{
    match fault {
        FreezeFault::Versions(fault) => versions_refusal(alloc, fault),
        FreezeFault::Torn(torn) => Halt::from(torn_answer(
            alloc,
            torn.version,
            &torn.kept,
            &torn.text,
        )),
        FreezeFault::Unreadable {
            version,
            files,
            fault,
        } => Halt::from(unreadable(alloc, api, version, files, fault)),
        FreezeFault::Unchanged { version } => Halt::from(unchanged(alloc, version)),
        FreezeFault::Incompatible(rows) => Halt::from(incompatible(alloc, rows.as_slice())),
        FreezeFault::Limit(limit) => Halt::from(limit_passed(alloc, limit)),
        FreezeFault::Write(fault) => Halt::from(fault),
        FreezeFault::OutOfMemory => Halt::OutOfMemory,
    }
}

// The line for a dump that is that of the latest version.
fn unchanged(alloc: Global, version: u32) -> Early
    ensures { EndsAs result (negative (codes "unchanged " ++ decimal version)) }
{
    let mut text = GrowingText::new(alloc);
    writeln!(text, "unchanged {version}");
    end_as(text, Verdict::Negative)
}

// The judge's lines.
fn incompatible(alloc: Global, rows: &[Broken]) -> Early
    ensures { EndsAs result (refused (flat_map break_line (map seen rows.now))) }
{
    end_as(judge_lines(alloc, rows), Verdict::Negative)
}

// The lines for the latest version, whose files aren't a checked tree.
#[tactic(auto, using(crate::proofs::Behind::unreadable_ends))]
fn unreadable(
    alloc: Global,
    api: &str,
    version: u32,
    files: Row<SourceFile>,
    fault: CheckFault,
) -> Early
    requires { IsRefusal files fault }
    ensures { tree.EndsBy (meant.IsUnreadable api.now version files) result }
{
    match version_folder(alloc, api, version) {
        Ok(root) => {
            let faults = fault_answer(alloc, root.as_str(), files.as_slice(), fault);
            behind(alloc, version, faults)
        }
        Err(_) => Early::OutOfMemory,
    }
}

// An end with the line of a version in front.
fn behind(alloc: Global, version: u32, faults: Early) -> Early
    ensures { Follows (line (codes "unreadable " ++ decimal version)) faults result }
{
    let Early::Answered(faults) = faults else {
        return Early::OutOfMemory;
    };
    let mut text = GrowingText::new(alloc);
    writeln!(text, "unreadable {version}");
    text.push_str(faults.text.as_str());
    end_as(text, faults.verdict)
}
