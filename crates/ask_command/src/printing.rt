//! The three lines of what is answered.
ghost use Rattle.std.specs.Prelude.{◌≡◌, true, option_map, string_bytes};
ghost use Rattle.growing.specs.Grows.{Grows};
ghost use Rattle.aidl_schema.specs.Find.{methods_at, position_of_code};
ghost use Rattle.aidl_values.specs.View.{views};
ghost use Rattle.ask_command.specs.Asked.{reply_text};
ghost use Rattle.ask_command.specs.steps.Answered.{IsSeenBy, answered_text, saw_of};

use aidl_base::Row;
use aidl_schema::{Schema, method_of_code};
use aidl_values::Value;
use call_runner::Methods;
use growing::GrowingText;
use run_command::{SidePrinter, push_saw};
use std::alloc::Global;
use stub_dispatch::Answered;
use tool_frame::push_shown;

/// The lines of an answer to a code: the transport status, what the handler saw, by the types of the method of the code, and the reply.
pub fn answered_text(
    alloc: Global,
    schema: &Schema,
    interface: u32,
    code: u32,
    answered: &Answered,
) -> GrowingText
    requires { IsSeenBy schema.now.decls interface code answered.now.saw }
    ensures { result.is_whole ≡ true → string_bytes result.text
        ≡ answered_text schema.now.decls interface code answered.now }
{
    let mut text = GrowingText::new(alloc);
    let transport = answered.transport;
    writeln!(text, "transport {transport}");
    text.push_str("saw ");
    push_seen(alloc, schema, interface, code, &answered.saw, &mut text);
    text.push_str("\nreply ");
    push_reply(alloc, &answered.reply, &mut text);
    text.push_str("\n");
    text
}

// Adds what the handler saw by the types of the method of a code, or null where it saw nothing.
fn push_seen(
    alloc: Global,
    schema: &Schema,
    interface: u32,
    code: u32,
    saw: &Option<Row<Value>>,
    text: &mut GrowingText,
)
    requires { IsSeenBy schema.now.decls interface code saw.now }
    ensures { Grows text.old text.new (saw_of schema.now.decls interface
        (position_of_code (methods_at schema.now.decls interface) code)
        (option_map views saw.now)) }
{
    match method_of_code(schema, interface, code) {
        Some(called) => {
            let methods = Methods {
                interface,
                method: called,
                server: interface,
                called,
            };
            let mut printer = SidePrinter::new(alloc, schema);
            push_saw(alloc, &mut printer, methods, saw, text);
        }
        None => text.push_str("null"),
    }
}

// Adds the bytes of a reply, or `-` where there is none.
fn push_reply(alloc: Global, reply: &Option<Row<u8>>, text: &mut GrowingText)
    ensures { Grows text.old text.new (reply_text reply.now) }
{
    match reply {
        Some(bytes) => push_shown(alloc, bytes.as_slice(), text),
        None => push_shown(alloc, &[], text),
    }
}
