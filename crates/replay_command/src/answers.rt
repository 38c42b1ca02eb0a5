//! The lines of what is answered.
ghost use Rattle.std.specs.Prelude.{◌≡◌, option_map};
ghost use Rattle.growing.specs.Grows.{Grows};
ghost use Rattle.aidl_values.specs.View.{views};
ghost use Rattle.replay_command.specs.Replaying.{refused_line};
ghost use Rattle.replay_command.specs.steps.Answered.{answered_line, AreThere, IsSeenBy};
ghost use Rattle.run_command.specs.LineText.{saw_text};

use aidl_base::Row;
use aidl_values::Value;
use call_runner::Methods;
use growing::GrowingText;
use run_command::{SidePrinter, push_saw};
use std::alloc::Global;
use stub_dispatch::Answered;

/// Adds the line of a request that isn't read again, with the name of the refusal.
pub fn push_refused(number: usize, name: &str, out: &mut GrowingText)
    ensures { Grows out.old out.new (refused_line number name.now) }
{
    out.push_str("{\"line\":");
    write!(out, "{number},\"refused\":\"{name}\"");
    out.push_str("}\n");
}

/// Adds the line of what a service answers: the status with which it refuses the request, or else what its handler saw, by the types
/// of the methods.
pub fn push_answered(
    alloc: Global,
    printer: &mut SidePrinter<'_>,
    methods: Option<Methods>,
    number: usize,
    answered: &Answered,
    out: &mut GrowingText,
)
    requires there { AreThere printer.old methods }
    requires typed { IsSeenBy printer.old methods answered.now.saw }
    ensures same { printer.new ≡ printer.old }
    ensures text { Grows out.old out.new (answered_line printer.old methods number answered.now) }
{
    let transport = answered.transport;
    if transport == 0 {
        out.push_str("{\"line\":");
        write!(out, "{number},\"saw\":");
        push_seen(alloc, printer, methods, &answered.saw, out);
        out.push_str(",\"transport\":0}\n");
    } else {
        out.push_str("{\"line\":");
        write!(out, "{number},\"transport\":{transport}");
        out.push_str("}\n");
    }
}

// Adds what the handler saw, null where it wasn't called.
fn push_seen(
    alloc: Global,
    printer: &mut SidePrinter<'_>,
    methods: Option<Methods>,
    saw: &Option<Row<Value>>,
    out: &mut GrowingText,
)
    requires there { AreThere printer.old methods }
    requires typed { IsSeenBy printer.old methods saw.now }
    ensures same { printer.new ≡ printer.old }
    ensures text { Grows out.old out.new (saw_text printer.old methods (option_map views saw.now)) }
{
    match methods {
        Some(methods) => push_saw(alloc, printer, methods, saw, out),
        None => out.push_str("null"),
    }
}
