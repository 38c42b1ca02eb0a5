//! A reply between two versions: its bytes where it counts, what is read of them, and what its values are projected to.
ghost use Rattle.std.specs.Prelude.{◌≡◌, false, option_map, IfOk, None, Some};
ghost use Rattle.aidl_values.specs.Data.{none};
ghost use Rattle.aidl_values.specs.View.{views};
ghost use Rattle.compat_witness.specs.Candidates.{IsAnswerOf, answer_bytes, answered};
ghost use Rattle.compat_witness.specs.Sides.{projected_answer, projected_reply, read_reply};
ghost use Rattle.stub_dispatch.specs.Got.{got_of};
ghost use Rattle.wire_model.specs.Calls.{answer_of, is_oneway, optional_view};
ghost use Rattle.wire_model.specs.Requests.{IsAnswer, reply};
ghost use Rattle.witness_calls.specs.Seen.{reading_seen};
ghost use Rattle.witness_calls.specs.Counted.{IsCounted, IsWeighedBetween, IsWeighedBy};
ghost use Rattle.witness_calls.specs.steps.Projected.{sent_seen};

use crate::ends::Ends;
use crate::fitting::is_two_way_answer;
use crate::outs::{project_outs, project_result};
use crate::reading::Reading;
use crate::showing::Showing;
use crate::version::Version;
use crate::version_method::VersionMethod;
use aidl_base::{LimitName, OutOfMemory, Profile, Row};
use aidl_schema::{AidlType, Arg};
use aidl_values::{Answer, Value};
use std::alloc::Global;
use stub_dispatch::{BAD_VALUE, Got, answer_bytes, read_answer, reply_length};

/// The bytes of a reply that counts, with its two sides; None of any other.
pub fn weigh_reply(
    alloc: Global,
    client: &VersionMethod<'_, '_>,
    server: &Version<'_>,
    answer: &Option<Answer>,
) -> Result<Option<Showing>, OutOfMemory>
    ensures { IfOk result (λ o. IsWeighedBetween client.now server.now
        (answered (option_map answer_of answer.now)) o) }
{
    match client.counterpart(server) {
        Some(target) => weigh_answer(alloc, client, &target, answer),
        None => Ok(None),
    }
}

// The same by both methods.
fn weigh_answer(
    alloc: Global,
    client: &VersionMethod<'_, '_>,
    server: &VersionMethod<'_, '_>,
    answer: &Option<Answer>,
) -> Result<Option<Showing>, OutOfMemory>
    ensures { IfOk result (λ o. IsWeighedBy
        (IsAnswerOf server.now (option_map answer_of answer.now))
        (answer_bytes server.now (option_map answer_of answer.now))
        (read_reply client.now server.now
        (answer_bytes server.now (option_map answer_of answer.now)))
        (projected_reply server.now client.now (option_map answer_of answer.now)) o) }
{
    let Some(bytes) = counted_reply(alloc, server, answer)? else {
        return Ok(None);
    };
    let read = read_reply(alloc, client, server, bytes.as_slice())?;
    let got = project_answer(alloc, server, client, answer)?;
    Ok(Some(Showing {
        bytes,
        read,
        projected: Reading::Client(got),
    }))
}

// The bytes of a reply that counts, None of any other. A oneway method has no answer, and no bytes.
fn counted_reply(
    alloc: Global,
    server: &VersionMethod<'_, '_>,
    answer: &Option<Answer>,
) -> Result<Option<Row<u8>>, OutOfMemory>
    ensures { IfOk result (λ o. IsCounted
        (IsAnswerOf server.now (option_map answer_of answer.now))
        (answer_bytes server.now (option_map answer_of answer.now)) o) }
{
    match answer {
        Some(answer) => counted_answer(alloc, server, answer),
        None if server.declared().oneway => Ok(Some(Row::new(alloc))),
        None => Ok(None),
    }
}

// The same of an answer.
fn counted_answer(
    alloc: Global,
    server: &VersionMethod<'_, '_>,
    answer: &Answer,
) -> Result<Option<Row<u8>>, OutOfMemory>
    ensures { IfOk result (λ o. IsCounted
        ((is_oneway server.now ≡ false) × IsAnswer server.now (answer_of answer.now))
        (reply server.now (answer_of answer.now)) o) }
{
    if !is_two_way_answer(server, answer) {
        return Ok(None);
    }
    let most = LimitName::ParcelBytes.number() as usize;
    if reply_length(server.callee(), answer, most + 1) > most {
        return Ok(None);
    }
    let bytes = answer_bytes(alloc, server.callee(), answer)?;
    Ok(Some(Row::from_vec(bytes)))
}

// What the client makes of the bytes; a oneway method of the server has no reply.
fn read_reply(
    alloc: Global,
    client: &VersionMethod<'_, '_>,
    server: &VersionMethod<'_, '_>,
    bytes: &[u8],
) -> Result<Reading, OutOfMemory>
    ensures { IfOk result (λ r. reading_seen r ≡ read_reply client.now server.now bytes.now) }
{
    if server.declared().oneway {
        return Ok(Reading::NoReply);
    }
    let got = read_answer(alloc, Profile::Strict, client.callee(), bytes)?;
    Ok(Reading::Client(got))
}

// What an answer is to the client's method. An exception is itself; without an answer there are the defaults.
#[tactic(auto, unfolding(compat_witness::specs::Sides::projected_answer))]
fn project_answer(
    alloc: Global,
    server: &VersionMethod<'_, '_>,
    client: &VersionMethod<'_, '_>,
    answer: &Option<Answer>,
) -> Result<Got, OutOfMemory>
    ensures { IfOk result (λ got. got_of got ≡ projected_answer server.now client.now
        (option_map answer_of answer.now)) }
{
    match answer {
        Some(Answer::Returned { result, outs }) => {
            let method = server.declared();
            let sent = Sent {
                ty: method.result,
                args: method.args.as_slice(),
                value: result,
                outs: outs.as_slice(),
            };
            project_sent(alloc, server, client, &sent)
        }
        Some(
            Answer::Exception {
                code,
                message,
                error,
            },
        ) => {
            let message = message.try_clone(alloc)?;
            Ok(Got::Exception {
                code: *code,
                message,
                error: *error,
            })
        }
        None => {
            let sent = Sent {
                ty: None,
                args: &[],
                value: &None,
                outs: &[],
            };
            project_sent(alloc, server, client, &sent)
        }
    }
}

// What is sent back: the type of the result and the arguments of the method, with their values.
#[derive(Clone, Copy)]
struct Sent<'s> {
    ty: Option<AidlType>,
    args: &'s [Arg],
    value: &'s Option<Value>,
    outs: &'s [Value],
}

// What that is to the client's method.
fn project_sent(
    alloc: Global,
    server: &VersionMethod<'_, '_>,
    client: &VersionMethod<'_, '_>,
    sent: &Sent<'_>,
) -> Result<Got, OutOfMemory>
    ensures { IfOk result (λ got. got_of got ≡ sent_seen server.now.declarations sent.now.ty
        sent.now.args.now client.now (optional_view sent.now.value.now) (views sent.now.outs.now)) }
{
    let ends = Ends {
        sender: server.fields(),
        receiver: client.fields(),
    };
    let wanted = client.declared();
    let seen = project_result(alloc, &ends, sent.ty, wanted.result, sent.value)?;
    match seen {
        Some(result) => {
            match project_outs(alloc, &ends, sent.args, wanted.args.as_slice(), sent.outs)? {
                Some(outs) => Ok(Got::Returned { result, outs }),
                None => Ok(Got::Failed { status: BAD_VALUE }),
            }
        }
        None => Ok(Got::Failed { status: BAD_VALUE }),
    }
}
