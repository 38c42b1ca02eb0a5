//! The three lines of a shown call.
ghost use Rattle.std.specs.Prelude.{◌≡◌};
ghost use Rattle.growing.specs.Grows.{Grows};
ghost use Rattle.witness_calls.specs.Seen.{call_seen, reading_seen, values_seen};
ghost use Rattle.witness_calls.specs.Showing.{ShowsIt};
ghost use Rattle.witness_command.specs.CallLines.{call_line, call_lines, heading_text, lines_between, side_line, way_text, word_text};

use crate::sides::{method_name, push_side};
use aidl_base::Text;
use aidl_schema::Schema;
use growing::GrowingText;
use std::alloc::Global;
use stub_dispatch::descriptor_of;
use tool_frame::push_shown;
use witness_calls::{Call, Reading, Values, declared};
use witness_search::{Pair, Witness};

/// Adds the three lines of a call between two versions with what it shows: `call > INTERFACE.METHOD HEX`, or `reply` for a reply, with
/// `<` where the new version is the client, and HEX `-` for no bytes; `read SIDE`; `projected SIDE` (own).
pub fn push_call(alloc: Global, pair: &Pair<'_, '_>, found: &Witness, text: &mut GrowingText)
    requires { ShowsIt pair.now.old pair.now.new (call_seen found.now.call) found.now.showing }
    ensures { Grows text.old text.new
        (call_lines pair.now.old pair.now.new (call_seen found.now.call)) }
{
    let old = pair.old.schema();
    let new = pair.new.schema();
    if found.call.back {
        push_between(alloc, new, old, found, text);
    } else {
        push_between(alloc, old, new, found, text);
    }
}

// Adds the lines of a call between a client and a server. The methods of both sides are those of the server's interface of the name.
fn push_between(
    alloc: Global,
    client: &Schema,
    server: &Schema,
    found: &Witness,
    text: &mut GrowingText,
)
    ensures { let showing = found.now.showing in Grows text.old text.new
        (lines_between client.now.decls server.now.decls (call_seen found.now.call) showing.bytes
        (reading_seen showing.read) (reading_seen showing.projected)) }
{
    let Ok(name) = descriptor_of(alloc, client, found.call.interface) else {
        text.lose();
        return;
    };
    let interface = declared(server, &name);
    let showing = &found.showing;
    push_first(
        alloc,
        client,
        &name,
        &found.call,
        showing.bytes.as_slice(),
        text,
    );
    push_line(alloc, "read ", server, interface, &showing.read, text);
    push_line(
        alloc,
        "projected ",
        server,
        interface,
        &showing.projected,
        text,
    );
}

// Adds the line of the call and its bytes.
fn push_first(
    alloc: Global,
    client: &Schema,
    name: &Text,
    call: &Call,
    bytes: &[u8],
    text: &mut GrowingText,
)
    ensures { Grows text.old text.new
        (call_line name.now client.now.decls (call_seen call.now) bytes.now) }
{
    push_heading(client, name, call, text);
    text.push_str(" ");
    push_shown(alloc, bytes, text);
    text.push_str("\n");
}

// Adds what a call is called by.
fn push_heading(client: &Schema, name: &Text, call: &Call, text: &mut GrowingText)
    ensures { Grows text.old text.new
        (heading_text name.now client.now.decls (call_seen call.now)) }
{
    text.push_str(word_of(&call.values));
    text.push_str(way_of(call.back));
    text.push_str(name.as_str());
    text.push_str(".");
    text.push_str(method_name(client, call.interface, call.method));
}

fn word_of(values: &Values) -> &str
    ensures { result.now ≡ word_text (values_seen values.now) }
{
    match values {
        Values::Arguments(_) => "call",
        Values::Answer(_) => "reply",
    }
}

fn way_of(back: bool) -> &'static str
    ensures { result.now ≡ way_text back }
{
    if back { " < " } else { " > " }
}

// Adds the line of a side, behind a word.
fn push_line(
    alloc: Global,
    word: &str,
    server: &Schema,
    interface: Option<u32>,
    side: &Reading,
    text: &mut GrowingText,
)
    ensures { Grows text.old text.new
        (side_line word.now server.now.decls interface (reading_seen side.now)) }
{
    text.push_str(word);
    push_side(alloc, server, interface, side, text);
    text.push_str("\n");
}
