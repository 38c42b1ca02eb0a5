//! What is put of a line in one piece.
ghost use Rattle.std.specs.Prelude.{◌≡◌, ◌++◌, codes, IfOk, string_bytes};
ghost use Rattle.std.specs.Fmt.{decimal};
ghost use Rattle.growing.specs.Grows.{Grows};
ghost use Rattle.call_runner.specs.Runs.{IsTyped, line_data};
ghost use Rattle.run_command.specs.Running.{piece};
ghost use Rattle.run_command.specs.Trace.{trace_line, trace_text, way_text};

use crate::objects::push_object;
use crate::printers::Printers;
use aidl_base::OutOfMemory;
use aidl_outside::{Carried, Way};
use call_runner::LineRun;
use growing::GrowingText;
use std::alloc::Global;
use tool_frame::push_shown;

// Room that is taken at once for the text of a line: most are shorter.
const LINE_ROOM: usize = 256;

/// What is put of a line: the trace lines of what was carried, where they are asked for, and then its own.
pub fn line_piece(
    alloc: Global,
    printers: &mut Printers<'_>,
    trace: bool,
    number: usize,
    run: &LineRun,
) -> Result<String, OutOfMemory>
    requires { IsTyped printers.old.client printers.old.server run.now.methods run.now.out }
    ensures same { printers.new ≡ printers.old }
    ensures text { IfOk result (λ text. string_bytes text
        ≡ piece printers.old.client printers.old.server trace number
        run.now.carried run.now.methods (line_data run.now.out)) }
{
    let mut text = GrowingText::with_room(alloc, LINE_ROOM);
    push_trace(alloc, trace, run.carried.as_slice(), &mut text);
    push_object(alloc, printers, number, run, &mut text);
    text.push_str("\n");
    text.into_string()
}

// Adds the trace lines of parcels that were carried, where they are asked for: `request CODE SENT DELIVERED` or
// `reply CODE SENT DELIVERED`, in lower-case hexadecimal, `-` for no bytes.
fn push_trace(alloc: Global, trace: bool, carried: &[Carried], text: &mut GrowingText)
    ensures { Grows text.old text.new (trace_text trace carried.now) }
{
    if !trace {
        return;
    }
    for entry in carried {
        push_entry(alloc, entry, text);
    }
}

// Adds the line of a parcel.
fn push_entry(alloc: Global, entry: &Carried, text: &mut GrowingText)
    ensures { Grows text.old text.new (trace_line entry.now) }
{
    push_way(entry.way, entry.code, text);
    push_shown(alloc, entry.sent.as_slice(), text);
    text.push_str(" ");
    push_shown(alloc, entry.delivered.as_slice(), text);
    text.push_str("\n");
}

// Adds which way it went, and the code.
fn push_way(way: Way, code: u32, text: &mut GrowingText)
    ensures { Grows text.old text.new (way_text way ++ codes " " ++ decimal code ++ codes " ") }
{
    match way {
        Way::Request => write!(text, "request {code} "),
        Way::Reply => write!(text, "reply {code} "),
    }
}
