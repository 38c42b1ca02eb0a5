//! What `encode` prints: the bytes of the values of a JSON file as a line of hexadecimal, or a refusal.
ghost use Rattle.std.specs.Prelude.{◌≡◌, ◌≤◌, ◌<◌, ◌^◌, ◌++◌, ℕ, true, List, IfOk, MatchOption, codes, length, map, min};
ghost use Rattle.std.specs.Fmt.{decimal};
ghost use Rattle.std.specs.List.{list_all};
ghost use Rattle.std.specs.Option.{option_map};
ghost use Rattle.hex.specs.Hex.{encode_lower};
ghost use Rattle.serde_json.specs.View.{view as json_view};
ghost use Rattle.aidl_schema.specs.Types.{is_type};
ghost use Rattle.aidl_values.specs.View.{view};
ghost use Rattle.json_values.specs.Gives.{refusal_of};
ghost use Rattle.json_values.specs.JsonText.{parsed_json};
ghost use Rattle.parcel_words.specs.Written.{with_bytes};
ghost use Rattle.tool_frame.specs.Answer.{done, negative};
ghost use Rattle.parcel_commands.specs.Encode.{encode_answer, json_found, reason_name, refused, values_found};
ghost use Rattle.parcel_commands.specs.JsonFile.{AreTyped, unread_refusal, values_of};
ghost use Rattle.tool_frame.specs.Refusals.{within};
ghost use Rattle.parcel_commands.specs.steps.Planned.{ArePlanned};
ghost use Rattle.parcel_commands.specs.steps.Spelled.{spelled};
ghost use Rattle.tool_frame.specs.Results.{EndsAs, Finds, Gives};

use crate::json_file::{Unread, values_of};
use crate::steps::known_types;
use aidl_base::{Limit, LimitName};
use aidl_schema::{AidlType, Schema};
use aidl_values::Value;
use growing::GrowingText;
use json_values::{JsonFault, parse_json};
use marshal_plans::{Plans, compile};
use parcel_words::WordWriter;
use parcel_write::{put_value, spelled_length};
use serde_json::Value as Json;
use std::alloc::Global;
use tool_frame::{Early, Printed, Verdict, end_as, give, limit_passed, refusal};

/// What `encode` prints of the text of its file.
#[tactic(auto, using(tool_frame::proofs::lemmas::EarlyEnds::ends_there))]
pub fn encode(alloc: Global, schema: &Schema, types: &str, text: &[u8]) -> Result<Printed, Early>
    ensures { Gives result (encode_answer schema.now.decls types.now text.now) }
{
    let known = known_types(alloc, schema, types)?;
    let json = json_in(alloc, text)?;
    let values = values_in(alloc, schema, known.as_slice(), &json)?;
    let parcel = parcel_of(alloc, schema, known.as_slice(), values.as_slice())?;
    hexadecimal_line(alloc, parcel.as_slice())
}

// The value of a JSON text.
fn json_in(alloc: Global, text: &[u8]) -> Result<Json, Early>
    ensures { Finds json_view result (json_found (parsed_json text.now)) }
{
    match parse_json(alloc, text) {
        Ok(Some(json)) => Ok(json),
        Ok(None) => Err(refusal(alloc, "refused NotJson ", "")),
        Err(_) => Err(Early::OutOfMemory),
    }
}

// One value of each type.
fn values_in(
    alloc: Global,
    schema: &Schema,
    types: &[AidlType],
    json: &Json,
) -> Result<Vec<Value>, Early>
    ensures values { Finds (λ vs. map view vs.items) result
        (values_found (values_of schema.now.decls types.now (json_view json.now))) }
    ensures typed { IfOk result (λ vs. AreTyped schema.now.decls types.now (map view vs.items)) }
{
    match values_of(alloc, schema, types, json) {
        Ok(values) => Ok(values),
        Err(unread) => Err(refusal_of(alloc, &unread)),
    }
}

// The line of a refusal.
fn refusal_of(alloc: Global, unread: &Unread) -> Early
    ensures { MatchOption (unread_refusal unread.now) (result ≡ Early.OutOfMemory)
        (λ r. EndsAs result (refused (reason_name r.reason) r.at)) }
{
    match unread {
        Unread::Shape => refusal(alloc, "refused WrongShape ", ""),
        Unread::Value(place, fault) => match name_and_place(fault) {
            Some((name, at)) => refused_value(alloc, name, *place, at),
            None => Early::OutOfMemory,
        },
        Unread::OutOfMemory => Early::OutOfMemory,
    }
}

// The line of a refused value: the refusal's name, the value's 0-based place, and the place in it.
fn refused_value(alloc: Global, name: &str, place: usize, at: &str) -> Early
    ensures { EndsAs result
        (negative (codes "refused " ++ name.now ++ codes " /" ++ decimal place ++ at.now)) }
{
    let mut text = GrowingText::new(alloc);
    writeln!(text, "refused {name} /{place}{at}");
    end_as(text, Verdict::Negative)
}

// The printed name of a refusal and its place in the value. None of a want of memory.
fn name_and_place(fault: &JsonFault) -> Option<(&str, &str)>
    ensures { option_map {U = List ℕ × List ℕ} (λ p. (p.0.now, p.1.now)) result
        ≡ option_map {U = List ℕ × List ℕ}
        (λ r. (reason_name r.reason, r.at)) (refusal_of fault.now) }
{
    match fault {
        JsonFault::WrongShape { at } => Some(("WrongShape", at.as_str())),
        JsonFault::OutOfRange { at } => Some(("OutOfRange", at.as_str())),
        JsonFault::UnknownKey { at } => Some(("UnknownKey", at.as_str())),
        JsonFault::UnknownEnumerator { at } => Some(("UnknownEnumerator", at.as_str())),
        JsonFault::TooDeep { at } => Some(("TooDeep", at.as_str())),
        JsonFault::OutOfMemory => None,
    }
}

// The bytes that spell the values, where they don't pass the limit.
fn parcel_of(
    alloc: Global,
    schema: &Schema,
    types: &[AidlType],
    values: &[Value],
) -> Result<Vec<u8>, Early>
    requires known { list_all (is_type schema.now.decls) types.now ≡ true }
    requires typed { AreTyped schema.now.decls types.now (map view values.now) }
    ensures { Finds (λ v. v.items) result
        (within LimitName.ParcelBytes (spelled schema.now.decls types.now values.now)) }
{
    let plans = compile(alloc, schema, types)?;
    let which = LimitName::ParcelBytes;
    let most = which.number() as usize;
    let length = length_of(schema, types, &plans, values, most + 1);
    if length > most {
        return Err(limit_passed(alloc, Limit { which }));
    }
    let mut to = WordWriter::with_room(alloc, length)?;
    put_values(schema, types, &plans, values, &mut to);
    Ok(to.finish())
}

// The number of bytes that spell the values, or `most` where they are more: counting stops there. The schema and the types are those
// for which the plans stand.
#[tactic(auto, using(crate::proofs::WriteValues::same_count))]
fn length_of(
    _schema: &Schema,
    _types: &[AidlType],
    plans: &Plans,
    values: &[Value],
    most: usize,
) -> usize
    requires planned { ArePlanned plans.now _schema.now.decls _types.now }
    requires typed { AreTyped _schema.now.decls _types.now (map view values.now) }
    ensures { result ≡ min (length (spelled _schema.now.decls _types.now values.now)) most }
{
    let ids = plans.extras.as_slice();
    let mut length: usize = 0;
    for i in 0..values.len() {
        if length == most {
            return most;
        }
        length += spelled_length(plans, ids[i], &values[i], most - length);
    }
    length
}

// Appends the bytes that spell the values.
#[tactic(auto, using(crate::proofs::WriteValues::same_count))]
fn put_values(
    _schema: &Schema,
    _types: &[AidlType],
    plans: &Plans,
    values: &[Value],
    to: &mut WordWriter,
)
    requires planned { ArePlanned plans.now _schema.now.decls _types.now }
    requires typed { AreTyped _schema.now.decls _types.now (map view values.now) }
    requires small { length (spelled _schema.now.decls _types.now values.now) < 2 ^ 31 }
    requires room { length (spelled _schema.now.decls _types.now values.now) ≤ to.old.room }
    ensures { to.new ≡ with_bytes to.old (spelled _schema.now.decls _types.now values.now) }
{
    let ids = plans.extras.as_slice();
    for i in 0..values.len() {
        put_value(plans, ids[i], &values[i], to);
    }
}

// One line of lower-case hexadecimal.
fn hexadecimal_line(alloc: Global, bytes: &[u8]) -> Result<Printed, Early>
    ensures { Gives result (done (encode_lower bytes.now)) }
{
    match hex::encode(alloc, bytes) {
        Ok(text) => {
            let mut text = GrowingText {
                text,
                is_whole: true,
            };
            text.push_str("\n");
            give(text, Verdict::Done)
        }
        Err(_) => Err(Early::OutOfMemory),
    }
}
