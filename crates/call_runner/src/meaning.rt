//! What follows for a call from what is known of stubs, clients and outcomes.
ghost use Rattle.std.specs.Prelude.{◌≡◌, ◌≢◌, ◌<◌, ◌≤◌, ℕ, ℤ, Some, Ok, Err, None, length, option_map, pos};
ghost use Rattle.aidl_schema.specs.Find.{methods_at};
ghost use Rattle.aidl_values.specs.Data.{Items};
ghost use Rattle.aidl_values.specs.View.{views};
ghost use Rattle.call_runner.specs.Lines.{line_of, received, received_at, reply_sent};
ghost use Rattle.call_runner.specs.Runs.{IsReplied, NamesOf, answer_by, methods_by, projected, within_one};
ghost use Rattle.call_runner.specs.steps.Typed.{IsTypedLine};
ghost use Rattle.call_scripts.specs.Calls.{CallFits, call_of, callee, target_of};
ghost use Rattle.wire_model.specs.Calls.{answer_of, code_at};
ghost use Rattle.wire_model.specs.MethodOf.{method_of};
ghost use Rattle.wire_model.specs.Outcome.{OneFollows};
ghost use Rattle.wire_model.specs.Receiver.{called, stub};
ghost use Rattle.wire_model.specs.Requests.{request};
ghost use Rattle.wire_model.specs.Typed.{AreArguments};

use aidl_base::{Profile, Row};
use aidl_schema::{Schema, law_chain};
use aidl_values::Answer;
use call_scripts::Call;
use std::alloc::Global;
use wire_model::{law_client, law_outcome, law_outcome_within, law_stub};

// A status that the server refuses with isn't 0, and what its handler is called with has the types of its arguments.
pub fn law_received(profile: Profile, server: &Schema, call: &Call, code: u32, bytes: &[u8])
    ensures refused { (s : ℤ)
        → received_at profile server.now.decls call.now.server code bytes.now ≡ Err s
        → s ≢ pos 0 }
    ensures typed { (j n : ℕ) (saw : Items) → call.now.server ≡ Some j
        → stub profile server.now.decls j code bytes.now ≡ Ok (called n saw)
        → AreArguments (method_of server.now.decls j n) saw }
{
    if let Some(other) = call.server {
        law_stub(profile, server, other, code, bytes);
    }
}

// The values of a line have the types of its methods. `bytes` and `reply` are what was delivered.
pub fn law_typed(
    profile: Profile,
    client: &Schema,
    server: &Schema,
    call: &Call,
    code: u32,
    bytes: &[u8],
    reply: &[u8],
)
    requires there { call.now.method < length (methods_at client.now.decls call.now.interface) }
    requires code { code ≡ code_at (callee client.now.decls (call_of call.now)) }
    ensures { IsTypedLine client.now.decls server.now.decls
        (methods_by (call_of call.now) call.now.server
        (received profile client.now.decls server.now.decls (call_of call.now) bytes.now))
        (line_of profile client.now.decls server.now.decls (call_of call.now) bytes.now reply.now) }
{
    law_received(profile, server, call, code, bytes);
    law_client(profile, client, call.interface, call.method, reply);
}

// Over a link that delivers what was sent a call comes to its outcome. `sent` is its request, and `reply` what was delivered of a reply.
pub fn law_projected(
    alloc: Global,
    profile: Profile,
    client: &Schema,
    server: &Schema,
    call: &Call,
    sent: &[u8],
    reply: &[u8],
)
    requires fits { CallFits client.now.decls server.now.decls (call_of call.now) }
    requires sent { sent.now ≡ request (callee client.now.decls (call_of call.now))
        (views call.now.args) }
    ensures outcome { OneFollows client.now.decls server.now.decls
        → IsReplied
        (reply_sent profile client.now.decls server.now.decls (call_of call.now) sent.now) reply.now
        → line_of profile client.now.decls server.now.decls (call_of call.now) sent.now reply.now
        ≡ projected client.now.decls server.now.decls (Ok (call_of call.now)) }
    ensures named { OneFollows client.now.decls server.now.decls
        → NamesOf (call_of call.now)
        (methods_by (call_of call.now) call.now.server
        (received profile client.now.decls server.now.decls (call_of call.now) sent.now)) }
{
    if let Some(other) = call.server {
        match &call.target {
            Some(target) => law_projected_at(
                profile,
                client,
                server,
                call,
                other,
                &target.answer,
                sent,
                reply,
            ),
            None => {
                let nothing = Answer::Returned {
                    result: None,
                    outs: Row::new(alloc),
                };
                law_projected_at(profile, client, server, call, other, &nothing, sent, reply)
            }
        }
    }
}

// The same where the server has the interface, by what its method answers.
fn law_projected_at(
    profile: Profile,
    client: &Schema,
    server: &Schema,
    call: &Call,
    other: u32,
    answer: &Answer,
    sent: &[u8],
    reply: &[u8],
)
    requires fits { CallFits client.now.decls server.now.decls (call_of call.now) }
    requires server { call.now.server ≡ Some other }
    requires answer { answer_of answer.now ≡ answer_by (option_map target_of call.now.target) }
    requires sent { sent.now ≡ request (callee client.now.decls (call_of call.now))
        (views call.now.args) }
    ensures outcome { OneFollows client.now.decls server.now.decls
        → IsReplied
        (reply_sent profile client.now.decls server.now.decls (call_of call.now) sent.now) reply.now
        → line_of profile client.now.decls server.now.decls (call_of call.now) sent.now reply.now
        ≡ projected client.now.decls server.now.decls (Ok (call_of call.now)) }
    ensures named { OneFollows client.now.decls server.now.decls
        → NamesOf (call_of call.now)
        (methods_by (call_of call.now) call.now.server
        (received profile client.now.decls server.now.decls (call_of call.now) sent.now)) }
{
    let args = call.args.as_slice();
    law_outcome(
        profile,
        client,
        call.interface,
        call.method,
        server,
        other,
        args,
        answer,
        sent,
        reply,
    );
}

// Over one tree, which follows itself, a call's outcome is that the handler sees what was sent and the client has what was answered.
pub fn law_within(alloc: Global, client: &Schema, server: &Schema, call: &Call)
    requires fits { CallFits client.now.decls server.now.decls (call_of call.now) }
    ensures follows { server.now.decls ≡ client.now.decls
        → OneFollows client.now.decls server.now.decls }
    ensures within { server.now.decls ≡ client.now.decls
        → projected client.now.decls server.now.decls (Ok (call_of call.now))
        ≡ within_one client.now.decls (Ok (call_of call.now)) }
{
    law_chain(client, client, client);
    match &call.target {
        Some(target) => law_within_by(client, server, call, &target.answer),
        None => {
            let nothing = Answer::Returned {
                result: None,
                outs: Row::new(alloc),
            };
            law_within_by(client, server, call, &nothing)
        }
    }
}

// The same by what the server's method answers.
fn law_within_by(client: &Schema, server: &Schema, call: &Call, answer: &Answer)
    requires fits { CallFits client.now.decls server.now.decls (call_of call.now) }
    requires answer { answer_of answer.now ≡ answer_by (option_map target_of call.now.target) }
    ensures { server.now.decls ≡ client.now.decls
        → projected client.now.decls server.now.decls (Ok (call_of call.now))
        ≡ within_one client.now.decls (Ok (call_of call.now)) }
{
    let args = call.args.as_slice();
    law_outcome_within(client, call.interface, call.method, args, answer);
}
