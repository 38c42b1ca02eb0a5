//! The lines of broken evolution rules, each with a call that shows it or the reason why none is shown.
ghost use Rattle.std.specs.Prelude.{◌≡◌, ◌++◌, IfOk, map, string_bytes};
ghost use Rattle.growing.specs.Grows.{Grows};
ghost use Rattle.aidl_schema.specs.Broken.{broken};
ghost use Rattle.compat_judge.specs.Seen.{seen};
ghost use Rattle.tree_commands.specs.Judged.{break_line};
ghost use Rattle.witness_search.specs.Seen.{ShowsAny, shown_seen};
ghost use Rattle.witness_command.specs.Entries.{AreEntries, shown_lines};

use crate::call_lines::push_call;
use aidl_base::OutOfMemory;
use compat_judge::Broken;
use growing::GrowingText;
use std::alloc::Global;
use tree_commands::push_break;
use witness_search::{NoCall, Pair, Shown, witness};

/// The lines of the broken evolution rules between two versions, in their order: each the judge's line, and then either
/// `none outside the wire` or `none no candidate`, or the three lines of a call that shows it (own). Memory may be wanted.
pub fn entry_lines(
    alloc: Global,
    pair: &Pair<'_, '_>,
    rows: &[Broken],
) -> Result<String, OutOfMemory>
    // They are the judge's.
    requires { map seen rows.now ≡ broken pair.now.old pair.now.new }
    ensures { IfOk result (λ text.
        AreEntries pair.now.old pair.now.new (map seen rows.now) (string_bytes text)) }
{
    let mut text = GrowingText::new(alloc);
    for row in rows {
        let shown = witness(alloc, pair, row)?;
        push_entry(alloc, pair, row, &shown, &mut text);
    }
    text.into_string()
}

// Adds the lines of one, by what shows it.
fn push_entry(
    alloc: Global,
    pair: &Pair<'_, '_>,
    row: &Broken,
    shown: &Shown,
    text: &mut GrowingText,
)
    requires { ShowsAny pair.now.old pair.now.new shown.now }
    ensures { Grows text.old text.new (break_line (seen row.now)
        ++ shown_lines pair.now.old pair.now.new (shown_seen shown.now)) }
{
    push_break(row, text);
    match shown {
        Shown::Found(found) => push_call(alloc, pair, found, text),
        Shown::Reason(why) => match why {
            NoCall::OutsideWire => text.push_str("none outside the wire\n"),
            NoCall::NoCandidate => text.push_str("none no candidate\n"),
        },
    }
}
