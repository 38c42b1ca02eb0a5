//! The object of what a line of a calls file comes to.
ghost use Rattle.std.specs.Prelude.{◌≡◌, ◌++◌, ◌<◌, Ok, Some, codes, option_map, length};
ghost use Rattle.std.specs.Fmt.{decimal, signed_decimal};
ghost use Rattle.std.specs.Str.{encode_utf8_all};
ghost use Rattle.growing.specs.Grows.{Grows};
ghost use Rattle.aidl_schema.specs.Find.{methods_at};
ghost use Rattle.aidl_values.specs.View.{views};
ghost use Rattle.stub_dispatch.specs.Got.{got_of};
ghost use Rattle.call_runner.specs.Runs.{AreSeen, IsGotBy, IsTyped, line_data};
ghost use Rattle.call_runner.specs.declared.line.Methods.{Methods as TheMethods};
ghost use Rattle.call_scripts.specs.Calls.{refusal_of};
ghost use Rattle.run_command.specs.LineText.{called_text, client_text, code_text, error_text};
ghost use Rattle.run_command.specs.LineText.{object_text, quoted, refused_text, saw_text};
ghost use Rattle.wire_model.specs.Calls.{optional_view, returned};

use crate::methods::{outs_of, types_of};
use crate::printers::{Printers, SidePrinter};
use crate::values::{push_quoted, push_result, push_values};
use aidl_base::{Row, Text};
use aidl_values::Value;
use call_runner::{Got, LineOut, LineRun, Methods, Refused};
use growing::GrowingText;
use itoa::Buffer;
use std::alloc::Global;
use stub_dispatch::SERVICE_SPECIFIC;

/// Adds the object that the line with a number comes to between a client and a server, without a newline.
pub fn push_object(
    alloc: Global,
    printers: &mut Printers<'_>,
    number: usize,
    run: &LineRun,
    out: &mut GrowingText,
)
    // Its values have the types of its methods.
    requires { IsTyped printers.old.client printers.old.server run.now.methods run.now.out }
    ensures same { printers.new ≡ printers.old }
    ensures text { Grows out.old out.new (object_text printers.old.client printers.old.server
        run.now.methods number (line_data run.now.out)) }
{
    match &run.out {
        LineOut::Refused(why) => push_refused(alloc, number, why, out),
        LineOut::Transport { status } => push_transport(number, *status, out),
        LineOut::OnewayDone { saw } => {
            let methods = known(run.methods);
            out.push_str("{");
            push_called(alloc, &mut printers.server, number, methods, saw, out);
        }
        LineOut::Done { saw, client: got } => {
            let methods = known(run.methods);
            out.push_str("{\"client\":");
            push_client(alloc, &mut printers.client, methods, got, out);
            out.push_str(",");
            push_called(alloc, &mut printers.server, number, methods, saw, out);
        }
    }
}

/// Adds SAW: the array of what the handler of the server's method saw, or null where it wasn't called.
pub fn push_saw(
    alloc: Global,
    server: &mut SidePrinter<'_>,
    methods: Methods,
    saw: &Option<Row<Value>>,
    out: &mut GrowingText,
)
    requires there { methods.called < length (methods_at server.old methods.server) }
    requires typed { AreSeen server.old methods saw.now }
    ensures same { server.new ≡ server.old }
    ensures text { Grows out.old out.new
        (saw_text server.old (Some methods) (option_map views saw.now)) }
{
    match saw {
        None => out.push_str("null"),
        Some(values) => {
            let method = server.method(methods.server, methods.called);
            match types_of(alloc, method.args.as_slice()) {
                Ok(types) => push_values(alloc, server, types.as_slice(), values.as_slice(), out),
                Err(_) => out.lose(),
            }
        }
    }
}

fn push_refused(alloc: Global, number: usize, why: &Refused, out: &mut GrowingText)
    ensures { Grows out.old out.new (refused_text number (refusal_of why.now)) }
{
    let name = why.name.name();
    out.push_str("{\"at\":");
    push_quoted(alloc, why.at.as_str(), out);
    write!(out, ",\"line\":{number},\"refused\":\"{name}\"");
    out.push_str("}");
}

fn push_transport(number: usize, status: i32, out: &mut GrowingText)
    ensures { Grows out.old out.new (codes "{\"line\":" ++ decimal number
        ++ codes ",\"transport\":" ++ signed_decimal status ++ codes "}") }
{
    out.push_str("{\"line\":");
    write!(out, "{number},\"transport\":{status}");
    out.push_str("}");
}

// The methods, where there are some.
fn known(methods: Option<Methods>) -> Methods
    requires { (m : TheMethods) × (methods ≡ Some m) }
    ensures { methods ≡ Some result }
{
    match methods {
        Some(known) => known,
        None => unreachable!(),
    }
}

// Adds CLIENT: what the client made of the reply, by the types of its method.
fn push_client(
    alloc: Global,
    client: &mut SidePrinter<'_>,
    methods: Methods,
    got: &Got,
    out: &mut GrowingText,
)
    requires { IsGotBy client.old methods (got_of got.now) }
    ensures same { client.new ≡ client.old }
    ensures text { Grows out.old out.new (client_text client.old (Some methods) (got_of got.now)) }
{
    match got {
        Got::Returned { result, outs } => {
            push_returned(alloc, client, methods, result, outs.as_slice(), out)
        }
        Got::Exception {
            code,
            message,
            error,
        } => push_exception(alloc, *code, message, *error, out),
        Got::Failed { status } => {
            let status = *status;
            out.push_str("{\"status\":");
            write!(out, "{status}");
            out.push_str("}");
        }
    }
}

// The result and the outs.
fn push_returned(
    alloc: Global,
    client: &mut SidePrinter<'_>,
    methods: Methods,
    value: &Option<Value>,
    outs: &[Value],
    out: &mut GrowingText,
)
    requires { IsGotBy client.old methods
        (Ok (returned (optional_view value.now) (views outs.now))) }
    ensures same { client.new ≡ client.old }
    ensures text { Grows out.old out.new (client_text client.old (Some methods)
        (Ok (returned (optional_view value.now) (views outs.now)))) }
{
    let method = client.method(methods.interface, methods.method);
    match outs_of(alloc, method.args.as_slice()) {
        Ok(types) => {
            out.push_str("{\"out\":");
            push_values(alloc, client, types.as_slice(), outs, out);
            out.push_str(",\"return\":");
            push_result(alloc, client, method.result, value, out);
            out.push_str("}");
        }
        Err(_) => out.lose(),
    }
}

// An exception with its message, and with its error where it is a service's own.
fn push_exception(alloc: Global, code: i32, message: &Text, error: i32, out: &mut GrowingText)
    ensures { Grows out.old out.new
        (code_text code ++ quoted (encode_utf8_all message.now) ++ error_text code error ++ codes "]}") }
{
    push_code(code, out);
    push_quoted(alloc, message.as_str(), out);
    push_error(code, error, out);
    out.push_str("]}");
}

fn push_code(code: i32, out: &mut GrowingText)
    ensures { Grows out.old out.new (code_text code) }
{
    out.push_str("{\"exception\":[");
    write!(out, "{code},");
}

fn push_error(code: i32, error: i32, out: &mut GrowingText)
    ensures { Grows out.old out.new (error_text code error) }
{
    if code == SERVICE_SPECIFIC {
        write!(out, ",{error}");
    }
}

// What stands last in the line of a call that the server received.
fn push_called(
    alloc: Global,
    server: &mut SidePrinter<'_>,
    number: usize,
    methods: Methods,
    saw: &Option<Row<Value>>,
    out: &mut GrowingText,
)
    requires there { methods.called < length (methods_at server.old methods.server) }
    requires typed { AreSeen server.old methods saw.now }
    ensures same { server.new ≡ server.old }
    ensures text { Grows out.old out.new
        (called_text number (saw_text server.old (Some methods) (option_map views saw.now))) }
{
    let mut digits = Buffer::new();
    out.push_str("\"line\":");
    out.push_str(digits.format(number));
    out.push_str(",\"saw\":");
    push_saw(alloc, server, methods, saw, out);
    out.push_str(",\"transport\":0}");
}
