//! Exceptions in an answer: the code, the message and the error number.
ghost use Rattle.std.specs.Prelude.{◌≡◌, IfOk, IfSome, option_map};
ghost use Rattle.serde_json.specs.Data.{array};
ghost use Rattle.serde_json.specs.View.{view as json_view, items_view};
ghost use Rattle.std.specs.Ordering.{int_eq};
ghost use Rattle.wire_model.specs.Calls.{answer_of};
ghost use Rattle.wire_model.specs.Requests.{service_specific};
ghost use Rattle.call_scripts.specs.Answers as meant;
ghost use Rattle.call_scripts.specs.steps.Exceptions as steps;
ghost use Rattle.call_scripts.specs.steps.Exceptions.{IsException, IsQuiet, thrown_data};
ghost use Rattle.call_scripts.specs.Gives.{Gives};

use crate::refused::{Place, RefusedName, refusal};
use aidl_base::Text;
use aidl_values::Answer;
use json_values::Fault;
use serde_json::Value as Json;
use std::alloc::Global;
use stub_dispatch::SERVICE_SPECIFIC;

// An exception of the right shape, its numbers in any range.
#[derive(Clone, Copy)]
pub struct Thrown<'a> {
    pub code: i128,
    pub message: &'a str,
    pub error: i128,
}

// The exception that a handler answers.
pub fn exception_from(alloc: Global, json: &Json) -> Result<Answer, Fault<RefusedName>>
    ensures gives { Gives answer_of result
        (meant.exception_from (meant.thrown_of (json_view json.now))) }
    ensures fits { IfOk result IsException }
{
    match thrown_of(json) {
        Some(thrown) => answer_of(alloc, &thrown),
        None => Err(refusal(alloc, RefusedName::WrongShape, Place::Exception)),
    }
}

fn answer_of(alloc: Global, thrown: &Thrown<'_>) -> Result<Answer, Fault<RefusedName>>
    requires { IsQuiet thrown.now.code thrown.now.error }
    ensures gives { Gives answer_of result (meant.in_ranges (thrown_data thrown.now)) }
    ensures fits { IfOk result IsException }
{
    if !is_thrown(thrown.code, thrown.error) {
        return Err(refusal(alloc, RefusedName::OutOfRange, Place::Exception));
    }
    let message = String::from_str(alloc, thrown.message)?;
    Ok(Answer::Exception {
        code: thrown.code as i32,
        message: Text::from_string(message),
        error: thrown.error as i32,
    })
}

// Whether a code and an error number are in their ranges.
fn is_thrown(code: i128, error: i128) -> bool
    ensures { result ≡ meant.are_in_range code error }
{
    -8 <= code && code <= -1 && -2_147_483_648 <= error && error <= 2_147_483_647
}

fn thrown_of(json: &Json) -> Option<Thrown<'_>>
    ensures thrown { option_map thrown_data result ≡ meant.thrown_of (json_view json.now) }
    ensures error { IfSome result (λ x. IsQuiet x.code x.error) }
{
    match json {
        Json::Array(items) => thrown_in(items.as_slice()),
        _ => None,
    }
}

// By the entries of an array.
#[tactic(auto, using(crate::proofs::Entered::by_two, crate::proofs::Entered::by_three, crate::proofs::Entered::alone, crate::proofs::Entered::more))]
fn thrown_in(items: &[Json]) -> Option<Thrown<'_>>
    ensures thrown { option_map thrown_data result
        ≡ meant.thrown_of (array (items_view items.now)) }
    ensures error { IfSome result (λ x. IsQuiet x.code x.error) }
{
    match items {
        [] => None,
        [_] => None,
        [code, message] => thrown_by(code, message, None),
        [code, message, error] => thrown_by(code, message, Some(error)),
        _ => None,
    }
}

// A code, a message and, exactly beside a service's own code, an error number.
#[tactic(auto, unfolding(crate::specs::steps::Exceptions::thrown_by))]
fn thrown_by<'a>(code: &Json, message: &'a Json, error: Option<&Json>) -> Option<Thrown<'a>>
    ensures thrown { option_map thrown_data result ≡ steps.thrown_by (json_view code.now)
        (json_view message.entry.now) (option_map (λ j. json_view j.now) error.entry) }
    ensures error { IfSome result (λ x. IsQuiet x.code x.error) }
{
    let Json::String(text) = message else {
        return None;
    };
    let code = whole(code)?;
    if is_own(code) != error.is_some() {
        return None;
    }
    let error = match error {
        Some(error) => whole(error)?,
        None => 0,
    };
    Some(Thrown {
        code,
        message: text.as_str(),
        error,
    })
}

// Whether a code is that of a service's own exception.
fn is_own(code: i128) -> bool
    ensures { result ≡ int_eq code service_specific }
{
    code == SERVICE_SPECIFIC as i128
}

fn whole(json: &Json) -> Option<i128>
    ensures { result ≡ meant.whole (json_view json.now) }
{
    match json {
        Json::Number(number) => number.as_i128(),
        _ => None,
    }
}
