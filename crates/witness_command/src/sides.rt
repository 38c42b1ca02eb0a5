//! A side of a call as it stands in a line.
ghost use Rattle.std.specs.Prelude.{◌≡◌};
ghost use Rattle.growing.specs.Grows.{Grows};
ghost use Rattle.stub_dispatch.specs.Got.{got_of};
ghost use Rattle.wire_model.specs.Calls.{method_at, optional_view};
ghost use Rattle.wire_model.specs.MethodOf.{method_of};
ghost use Rattle.witness_calls.specs.Seen.{reading_seen};
ghost use Rattle.witness_command.specs.SideText.{client_text, name_at, name_of_method, result_text, side_text};

use crate::values::{push_value, push_values};
use aidl_schema::{Schema, methods_at};
use aidl_values::Value;
use growing::GrowingText;
use std::alloc::Global;
use stub_dispatch::Got;
use witness_calls::Reading;

/// Adds a side, whose methods are those of an interface of the server's schema: `transport N`, `left METHOD`, `called METHOD VALUES`,
/// what the client has, or `no reply`, METHOD being the method's simple name (own).
pub fn push_side(
    alloc: Global,
    server: &Schema,
    interface: Option<u32>,
    side: &Reading,
    text: &mut GrowingText,
)
    ensures { Grows text.old text.new
        (side_text server.now.decls interface (reading_seen side.now)) }
{
    match side {
        Reading::Transport(status) => write!(text, "transport {status}"),
        Reading::Left(method) => {
            let name = name_at(server, interface, *method);
            write!(text, "left {name}");
        }
        Reading::Called { method, saw } => {
            let name = name_at(server, interface, *method);
            write!(text, "called {name} ");
            push_values(alloc, saw.as_slice(), text);
        }
        Reading::Client(got) => push_client(alloc, got, text),
        Reading::NoReply => text.push_str("no reply"),
    }
}

// Adds what a client has: `returned VALUE VALUES`, `exception CODE` or `status N`.
fn push_client(alloc: Global, got: &Got, text: &mut GrowingText)
    ensures { Grows text.old text.new (client_text (got_of got.now)) }
{
    match got {
        Got::Returned { result, outs } => {
            text.push_str("returned ");
            push_result(alloc, result, text);
            text.push_str(" ");
            push_values(alloc, outs.as_slice(), text);
        }
        Got::Exception { code, .. } => write!(text, "exception {code}"),
        Got::Failed { status } => write!(text, "status {status}"),
    }
}

// Adds a result, and `void` for none.
fn push_result(alloc: Global, value: &Option<Value>, text: &mut GrowingText)
    ensures { Grows text.old text.new (result_text (optional_view value.now)) }
{
    match value {
        Some(value) => push_value(alloc, value, text),
        None => text.push_str("void"),
    }
}

// The simple name of the method at a position of an interface, and nothing where there is none.
fn name_at(schema: &Schema, interface: Option<u32>, method: u32) -> &str
    ensures { result.now ≡ name_at schema.now.decls interface method }
{
    match interface {
        Some(interface) => method_name(schema, interface, method),
        None => "",
    }
}

/// The simple name of the method at a position of an interface, and nothing where there is none.
pub fn method_name(schema: &Schema, interface: u32, method: u32) -> &str
    ensures { result.now ≡ name_of_method
        (method_at (method_of schema.now.decls interface method)) }
{
    match methods_at(schema, interface).get(method as usize) {
        Some(method) => method.name.0.as_str(),
        None => "",
    }
}
