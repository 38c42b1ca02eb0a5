//! A line of a calls file, as a call between two schemas or its first refusal.
ghost use Rattle.std.specs.Prelude.{◌≡◌, ◌<◌, None, length, nat_le, option_map, IfOk};
ghost use Rattle.aidl_schema.specs.Find.{methods_at};
ghost use Rattle.aidl_values.specs.Data.{none};
ghost use Rattle.aidl_values.specs.View.{views};
ghost use Rattle.serde_json.specs.View.{view as json_view, members_view};
ghost use Rattle.wire_model.specs.Calls.{answer_of, returned};
ghost use Rattle.wire_model.specs.MethodOf.{method_of};
ghost use Rattle.wire_model.specs.Requests.{IsAnswer};
ghost use Rattle.call_scripts.specs.Answers as answers;
ghost use Rattle.call_scripts.specs.Calls.{CallFits, ScriptFits, call_of, script_data, target_of};
ghost use Rattle.call_scripts.specs.Script as meant;
ghost use Rattle.call_scripts.specs.steps.Calls.{IsAnswered, IsSent, IsTarget};
ghost use Rattle.call_scripts.specs.Gives.{Gives};
ghost use Rattle.call_scripts.specs.steps.Named.{IsNamed, IsWithin};
ghost use Rattle.call_scripts.specs.steps.Seen.{named_data};

use crate::answers::two_way_from;
use crate::arguments::args_from;
use crate::json::json_in;
use crate::laws::law_types;
use crate::line::{check_keys, member_of};
use crate::names::{Named, method_meant};
use crate::refused::{Place, Refused, RefusedName, refusal};
use aidl_base::{LimitName, OutOfMemory, Row, Text};
use aidl_schema::Schema;
use aidl_values::{Answer, Value};
use json_values::Fault;
use serde_json::{Map, Value as Json};
use std::alloc::Global;
use stub_dispatch::{Callee, Side, reply_length, request_length};

/// A method of the server, by its position in the interface, and what its handler answers.
#[derive(Drop)]
pub struct Target {
    pub method: u32,
    pub answer: Answer,
}

/// A call. `interface` is the number of an interface of the client's schema and `method` the position of its method. `args` has a
/// value for each `in` and `inout` argument, and for an `out` one the length of its array or null. `server` is the number of the
/// server's interface of the same name, and `target` its method of the same name, where it has them.
#[derive(Drop)]
pub struct Call {
    pub interface: u32,
    pub method: u32,
    pub args: Row<Value>,
    pub server: Option<u32>,
    pub target: Option<Target>,
}

/// What a line of a calls file means: its first refusal, or a call.
#[derive(Drop)]
pub enum Script {
    Refused(Refused),
    Call(Call),
}

/// What a line of a calls file means between a client and a server. `line` is without its newline. A refusal is the first one in the order
/// of *Script* (own), with its place; a request or a reply is refused above 1,048,576 bytes.
pub fn script_of(
    alloc: Global,
    client: &Side<'_>,
    server: &Side<'_>,
    line: &[u8],
) -> Result<Script, OutOfMemory>
    // It is the script of the line: the call that it means, or its first refusal.
    ensures script { IfOk result (λ s. script_data s
        ≡ meant.script client.now server.now line.now) }
    // Of a call the arguments and the answer fit, the request and the reply are small enough, and the server's numbers are those of the
    // same names.
    ensures fits { IfOk result (λ s. ScriptFits client.now server.now s) }
{
    match call_in(alloc, client, server, line) {
        Ok(call) => Ok(Script::Call(call)),
        Err(Fault::Refused(name, at)) => Ok(Script::Refused(Refused {
            name,
            at: Text::from_string(at),
        })),
        Err(Fault::OutOfMemory) => Err(OutOfMemory),
    }
}

#[tactic(auto, unfolding(crate::specs::Script::script))]
fn call_in(
    alloc: Global,
    client: &Side<'_>,
    server: &Side<'_>,
    line: &[u8],
) -> Result<Call, Fault<RefusedName>>
    ensures gives { Gives call_of result (meant.script client.now server.now line.now) }
    ensures fits { IfOk result (λ c. CallFits client.now server.now (call_of c)) }
{
    let json = json_in(alloc, line)?;
    match &json {
        Json::Object(members) => { call_from(alloc, client, server, members) }
        _ => Err(refusal(alloc, RefusedName::WrongShape, Place::Line)),
    }
}

#[tactic(auto, unfolding(crate::specs::Script::call_from))]
fn call_from(
    alloc: Global,
    client: &Side<'_>,
    server: &Side<'_>,
    members: &Map<String, Json>,
) -> Result<Call, Fault<RefusedName>>
    ensures gives { Gives call_of result
        (meant.call_from client.now server.now (members_view members.now.entries)) }
    ensures fits { IfOk result (λ c. CallFits client.now server.now (call_of c)) }
{
    let known = ["call", "args", "answer"];
    if let Err(fault) = check_keys(alloc, &known, members, Place::Line) {
        return Err(fault);
    }
    let named = named_from(
        alloc,
        client.schema(),
        server.schema(),
        member_of(members, "call"),
    )?;
    let args = sent_from(alloc, client, &named, member_of(members, "args"))?;
    let target = target_from(alloc, server, &named, member_of(members, "answer"))?;
    Ok(Call {
        interface: named.interface,
        method: named.method,
        args,
        server: named.server,
        target,
    })
}

// The method that `call` names.
fn named_from(
    alloc: Global,
    client: &Schema,
    server: &Schema,
    json: Option<&Json>,
) -> Result<Named, Fault<RefusedName>>
    ensures gives { Gives named_data result (meant.named_from client.now.decls server.now.decls
        (option_map (λ j. json_view j.now) json.entry)) }
    ensures known { IfOk result (λ n. IsNamed client.now.decls server.now.decls n) }
{
    match json {
        Some(Json::String(text)) => match method_meant(client, server, text.as_str()) {
            Some(named) => Ok(named),
            None => Err(refusal(alloc, RefusedName::UnknownMethod, Place::Call)),
        },
        _ => Err(refusal(alloc, RefusedName::WrongShape, Place::Call)),
    }
}

// The arguments of the client's method, whose request is small enough.
#[tactic(auto, unfolding(crate::specs::Script::sent_from))]
fn sent_from(
    alloc: Global,
    side: &Side<'_>,
    named: &Named,
    json: Option<&Json>,
) -> Result<Row<Value>, Fault<RefusedName>>
    requires there { named.now.method < length (methods_at side.now named.now.interface) }
    ensures gives { Gives views result (meant.sent_from
        (method_of side.now named.now.interface named.now.method)
        (option_map (λ j. json_view j.now) json.entry)) }
    ensures sent { IfOk result (λ vs. IsSent
        (method_of side.now named.now.interface named.now.method) (views vs)) }
{
    let callee = Callee::new(side, named.interface, named.method);
    let declared = callee.declared();
    let args = args_from(alloc, callee.schema(), declared.args.as_slice(), json)?;
    if is_small(request_length(&callee, args.as_slice(), sent_bytes() + 1)) {
        Ok(args)
    } else {
        Err(refusal(alloc, RefusedName::TooLarge, Place::Args))
    }
}

// A parcel that is sent has at most so many bytes.
fn sent_bytes() -> usize
    ensures { result ≡ 1048576 }
{
    LimitName::ParcelBytes.number() as usize
}

// Whether so many bytes may be sent.
fn is_small(length: usize) -> bool
    ensures { result ≡ nat_le length 1048576 }
{
    length <= sent_bytes()
}

// The server's method and its answer. Where it lacks the method `json` isn't looked at.
fn target_from(
    alloc: Global,
    side: &Side<'_>,
    named: &Named,
    json: Option<&Json>,
) -> Result<Option<Target>, Fault<RefusedName>>
    requires within { IsWithin side.now named.now.server named.now.target }
    ensures gives { Gives (option_map target_of) result (meant.target_from
        side.now named.now.server named.now.target (option_map (λ j. json_view j.now) json.entry)) }
    ensures target { IfOk result (λ t. IsTarget side.now named.now.server named.now.target t) }
{
    match (named.server, named.target) {
        (Some(interface), Some(method)) => {
            let callee = Callee::new(side, interface, method);
            let target = answered(alloc, &callee, json)?;
            Ok(Some(target))
        }
        _ => Ok(None),
    }
}

// The server's method and its answer, whose reply is small enough.
#[tactic(auto, unfolding(crate::specs::Script::answered))]
fn answered(
    alloc: Global,
    callee: &Callee<'_>,
    json: Option<&Json>,
) -> Result<Target, Fault<RefusedName>>
    ensures gives { Gives target_of result (meant.answered callee.now
        (option_map (λ j. json_view j.now) json.entry)) }
    ensures fits { IfOk result (λ t. IsAnswered callee.now t) }
{
    let answer = answer_from(alloc, callee, json)?;
    if is_small(reply_length(callee, &answer, sent_bytes() + 1)) {
        let method = callee.method();
        Ok(Target { method, answer })
    } else {
        Err(refusal(alloc, RefusedName::TooLarge, Place::Answer))
    }
}

// The answer of a method.
fn answer_from(
    alloc: Global,
    callee: &Callee<'_>,
    json: Option<&Json>,
) -> Result<Answer, Fault<RefusedName>>
    ensures gives { Gives answer_of result (answers.answer_from callee.now
        (option_map (λ j. json_view j.now) json.entry)) }
    ensures fits { IfOk result (λ a. IsAnswer callee.now (answer_of a)) }
{
    let schema = callee.schema();
    law_types(schema, callee.interface(), callee.method());
    let declared = callee.declared();
    if declared.oneway {
        oneway_from(alloc, json)
    } else {
        two_way_from(
            alloc,
            schema,
            declared.result,
            declared.args.as_slice(),
            json,
        )
    }
}

// Of a oneway method nothing may stand there.
fn oneway_from(alloc: Global, json: Option<&Json>) -> Result<Answer, Fault<RefusedName>>
    ensures gives { Gives answer_of result
        (answers.oneway_from (option_map (λ j. json_view j.now) json.entry)) }
    ensures nothing { IfOk result (λ a. answer_of a ≡ returned None none) }
{
    match json {
        None => Ok(Answer::Returned {
            result: None,
            outs: Row::from_vec(Vec::new(alloc)),
        }),
        Some(_) => Err(refusal(alloc, RefusedName::WrongShape, Place::Answer)),
    }
}
