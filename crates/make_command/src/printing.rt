//! The four lines that `make` prints.
ghost use Rattle.std.specs.Prelude.{◌≡◌, []};
ghost use Rattle.aidl_schema.specs.Broken.{broken};
ghost use Rattle.growing.specs.Grows.{Grows};
ghost use Rattle.make_command.specs.Making as meant;
ghost use Rattle.tool_frame.specs.Results.{Gives};

use crate::tally::Tally;
use aidl_schema::Schema;
use growing::GrowingText;
use std::alloc::Global;
use tool_frame::{Early, Printed, Verdict, give};

/// The four lines of two schemas of which the newer one may follow the older: the numbers of their declarations; how many rules are
/// broken, which is none; how many lines came to what; and the bytes that were sent. Memory may be wanted.
pub fn made_answer(
    alloc: Global,
    old: &Schema,
    new: &Schema,
    tally: &Tally,
) -> Result<Printed, Early>
    requires { broken old.now.decls new.now.decls ≡ [] }
    ensures { Gives result (meant.made old.now.decls new.now.decls tally.now) }
{
    let mut text = GrowingText::new(alloc);
    let older = old.decls.len();
    let newer = new.decls.len();
    let broken: usize = 0;
    let sent = tally.sent;
    writeln!(text, "types {older} {newer}");
    writeln!(text, "broken {broken}");
    push_counts(
        tally.lines,
        tally.done,
        tally.transport,
        tally.refused,
        &mut text,
    );
    writeln!(text, "sent {sent}");
    give(text, Verdict::Done)
}

// Adds how many lines came to what.
fn push_counts(lines: usize, done: usize, transport: usize, refused: usize, text: &mut GrowingText)
    ensures { Grows text.old text.new (meant.counts_line lines done transport refused) }
{
    writeln!(
        text,
        "lines {lines} done {done} transport {transport} refused {refused}"
    );
}
