//! A line of a trace, and what is printed of it.
ghost use Rattle.std.specs.Prelude.{◌≡◌, List, ℕ};
ghost use Rattle.growing.specs.Grows.{Grows};
ghost use Rattle.parcel_replay.specs.Traced.{request, traced};
ghost use Rattle.replay_command.specs.Replaying.{replayed_line};
ghost use Rattle.replay_command.specs.steps.Answered.{AreOfCode, AreThere};

use crate::answers::{push_answered, push_refused};
use aidl_schema::{Schema, method_of_code};
use call_runner::Methods;
use growing::GrowingText;
use parcel_replay::{Replayed, recorded_code, replay_line};
use run_command::{Line, SidePrinter};
use std::alloc::Global;
use stub_dispatch::Side;

/// Adds what is printed of a line: nothing of a line that is no request's.
#[tactic(auto, using(crate::proofs::Replayed::got_line, crate::proofs::Replayed::got_seen))]
pub fn push_line(
    alloc: Global,
    side: &Side<'_>,
    printer: &mut SidePrinter<'_>,
    interface: u32,
    line: &Line<'_>,
    out: &mut GrowingText,
)
    requires { printer.old ≡ side.now }
    ensures same { printer.new ≡ printer.old }
    ensures text { Grows out.old out.new
        (replayed_line side.now interface line.now.number (traced line.now.bytes.now)) }
{
    let schema = side.schema();
    let number = line.number;
    match replay_line(alloc, schema, side.plans(), interface, line.bytes) {
        Ok(Replayed::Other) => {}
        Ok(Replayed::NotTrace) => push_refused(number, "NotTrace", out),
        Ok(Replayed::TooLarge) => push_refused(number, "TooLarge", out),
        Ok(Replayed::Got(answered)) => {
            let methods = recorded_methods(schema, interface, line.bytes);
            push_answered(alloc, printer, methods, number, &answered, out);
        }
        Err(_) => out.lose(),
    }
}

// The methods by whose types the values of a request's line are: the interface's that has the code.
#[tactic(auto, using(crate::proofs::Replayed::method_there))]
fn recorded_methods(schema: &Schema, interface: u32, line: &[u8]) -> Option<Methods>
    ensures there { AreThere schema.now.decls result }
    ensures coded { (code : ℕ) (b : List ℕ) → traced line.now ≡ request code b
        → AreOfCode schema.now.decls interface code result }
{
    let code = recorded_code(line)?;
    let method = method_of_code(schema, interface, code)?;
    Some(Methods {
        interface,
        method,
        server: interface,
        called: method,
    })
}
