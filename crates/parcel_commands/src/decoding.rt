//! What `decode` prints: a line for each item of a parcel, and one for the bytes that are left or for a refusal.
ghost use Rattle.std.specs.Prelude.{false};
ghost use Rattle.std.specs.Option.{option_map};
ghost use Rattle.marshal_plans.specs.Standing.{IsOf};
ghost use Rattle.wire_model.specs.ReadOf.{read_of};
ghost use Rattle.parcel_commands.specs.Decode.{decode_answer, items_answer};
ghost use Rattle.parcel_commands.specs.steps.Items.{PrintsAnswer, PrintsItem};
ghost use Rattle.parcel_commands.specs.steps.Planned.{ArePlanned};
ghost use Rattle.tool_frame.specs.Results.{Gives};

use crate::steps::known_types;
use aidl_base::Profile;
use aidl_schema::{AidlType, Schema};
use growing::GrowingText;
use json_writing::push_value_text;
use marshal_plans::{PlanId, Plans, compile};
use parcel_read::read;
use std::alloc::Global;
use tool_frame::{Early, Printed, Verdict, give};

// What each item of a parcel is read by: the profile, the schema that its type is of, and the plans of its types.
#[derive(Clone, Copy)]
struct Decoder<'a> {
    profile: Profile,
    schema: &'a Schema,
    plans: &'a Plans,
}

/// What `decode` prints of a parcel's bytes, read by the profile.
#[tactic(auto, using(tool_frame::proofs::lemmas::EarlyEnds::ends_there))]
pub fn decode(
    alloc: Global,
    profile: Profile,
    schema: &Schema,
    types: &str,
    parcel: &[u8],
) -> Result<Printed, Early>
    ensures { Gives result (decode_answer profile schema.now.decls types.now parcel.now) }
{
    let known = known_types(alloc, schema, types)?;
    let types = known.as_slice();
    let plans = compile(alloc, schema, types)?;
    let decoder = Decoder {
        profile,
        schema,
        plans: &plans,
    };
    let mut text = GrowingText::new(alloc);
    let verdict = push_items(alloc, &decoder, types, parcel, &mut text);
    give(text, verdict)
}

// Adds the lines of the items, by plans of their types, and the line for the bytes after the last item, where there are some. How the
// decode ends.
fn push_items(
    alloc: Global,
    decoder: &Decoder<'_>,
    types: &[AidlType],
    bytes: &[u8],
    text: &mut GrowingText,
) -> Verdict
    requires { ArePlanned decoder.now.plans.now decoder.now.schema.now.decls types.now }
    ensures { PrintsAnswer text.old text.new result
        (items_answer decoder.now.profile decoder.now.schema.now.decls types.now bytes.now) }
{
    let ids = decoder.plans.extras.as_slice();
    let mut rest = bytes;
    for i in 0..types.len() {
        match push_item(alloc, decoder, &types[i], ids[i], rest, text) {
            Some(after) => rest = after,
            None => return Verdict::Negative,
        }
    }
    if rest.is_empty() {
        return Verdict::Done;
    }
    let count = rest.len();
    writeln!(text, "left {count}");
    Verdict::Negative
}

// Reads one item and adds its line. None where it is refused or memory is wanted; else the bytes after it.
fn push_item<'a>(
    alloc: Global,
    decoder: &Decoder<'_>,
    ty: &AidlType,
    id: PlanId,
    bytes: &'a [u8],
    text: &mut GrowingText,
) -> Option<&'a [u8]>
    requires { IsOf decoder.now.plans.now id decoder.now.schema.now.decls ty.now }
    ensures { let S = decoder.now.schema.now.decls in
        let reading = read_of decoder.now.profile S 64 ty.now false bytes.now in
        PrintsItem S ty.now reading text.old text.new (option_map (λ rest. rest.now) result) }
{
    match read(alloc, decoder.profile, decoder.plans, id, bytes) {
        Ok((value, used)) => {
            push_value_text(alloc, decoder.schema, ty, &value, text);
            text.push_str("\n");
            Some(&bytes[used..])
        }
        Err(fault) => match fault.status() {
            Some(status) => {
                writeln!(text, "status {status}");
                None
            }
            None => {
                text.lose();
                None
            }
        },
    }
}
