//! The number of bytes that a value takes in a parcel.
ghost use Rattle.std.specs.Prelude.{◌≡◌, ◌+◌, ℤ, length, min};
ghost use Rattle.aidl_base.specs.Words.{padding};
ghost use Rattle.aidl_values.specs.Data.{rec};
ghost use Rattle.aidl_values.specs.View.{datas, field_datas, items_of, view, views};
ghost use Rattle.parcel_write.specs.Fitting.{FitsSome, OfEachFit};
ghost use Rattle.parcel_write.specs.steps.PlanSpell.{EachSuits, EntriesSuit, Suits, number_by, plan_spell, plan_spell_entries, plan_spell_items};
ghost use Rattle.wire_model.specs.Spell.{spell};

use crate::items::{alternative_in, element_in, fields_in, is_raw};
use aidl_values::{Elements, Fields, Value};
use marshal_plans::{PlanField, PlanId, PlanItem, Plans};
use parcel_words::Wire;

/// The number of bytes that spell a value of the type that the id stands for, or `most` where they are more: counting stops there.
///
pub fn spelled_length(plans: &Plans, id: PlanId, value: &Value, most: usize) -> usize
    requires { FitsSome plans.now id (view value.now) }
    ensures { OfEachFit plans.now id (view value.now) (λ S t. result
        ≡ min (length (spell S t (view value.now))) most) }
{
    length_of(plans, id, value, most)
}

/// The number of bytes of a value by its item, or `most` where they are more: counting stops there.
#[cycle(length)]
pub(crate) fn length_of(plans: &Plans, id: PlanId, value: &Value, most: usize) -> usize
    requires { Suits plans.now id (view value.now) }
    ensures { result ≡ min (length (plan_spell plans.now id (view value.now))) most }
{
    match value {
        Value::Null | Value::Truth(_) => most.min(4),
        Value::Number(_) => number_length(plans.item(id)).min(most),
        Value::Text(text) => text.length().min(most),
        Value::Seq(elements) => {
            let item = plans.item(id);
            if is_raw(item) {
                padded(elements.len()).saturating_add(4).min(most)
            } else {
                let len = elements_length(plans, element_in(item), elements, most);
                len.saturating_add(4).min(most)
            }
        }
        Value::Rec(values) => {
            let fields = fields_in(plans, plans.item(id));
            let len = fields_length(plans, fields, values, most);
            len.saturating_add(8).min(most)
        }
        Value::Alt(tag, inner) => {
            let part = alternative_in(plans, plans.item(id), *tag);
            let len = length_of(plans, part, inner, most);
            len.saturating_add(8).min(most)
        }
    }
}

/// The bytes of a number: a word, or two of a long.
fn number_length(item: Option<PlanItem>) -> usize
    ensures { (n : ℤ) → result ≡ length (number_by item n) }
{
    match item {
        Some(PlanItem::Long) => 8,
        _ => 4,
    }
}

/// So many bytes and their padding.
fn padded(len: usize) -> usize
    ensures { result ≡ min (len + padding len) usize.MAX }
{
    len.saturating_add((4 - len % 4) % 4)
}

/// The bytes of the elements of a sequence, or `most`.
#[cycle(length)]
fn elements_length(plans: &Plans, id: PlanId, elements: &Elements, most: usize) -> usize
    requires { EachSuits plans.now id (items_of (datas elements.now)) }
    ensures { result ≡ min
        (length (plan_spell_items plans.now id (items_of (datas elements.now)))) most }
{
    match elements {
        Elements::Values(values) => values_length(plans, id, values.as_slice(), most),
        Elements::Truths(truths) => truths.len().saturating_mul(4).min(most),
        Elements::Bytes(_) | Elements::Chars(_) | Elements::Ints(_) | Elements::Longs(_) => {
            let each = number_length(plans.item(id));
            elements.len().saturating_mul(each).min(most)
        }
    }
}

/// The bytes of values, or `most`.
#[cycle(length)]
fn values_length(plans: &Plans, id: PlanId, values: &[Value], most: usize) -> usize
    requires { EachSuits plans.now id (views values.now) }
    ensures { result ≡ min (length (plan_spell_items plans.now id (views values.now))) most }
{
    let mut len: usize = 0;
    for value in values {
        if len == most {
            return most;
        }
        len += length_of(plans, id, value, most - len);
    }
    len
}

/// The bytes of the fields of a record, or `most`.
#[cycle(length)]
#[tactic(auto, using(crate::proofs::Typed::same_count))]
fn fields_length(plans: &Plans, fields: &[PlanField], values: &Fields, most: usize) -> usize
    requires { EntriesSuit plans.now fields.now (items_of (field_datas values.now)) }
    ensures { result ≡ min
        (length (plan_spell_entries plans.now fields.now (items_of (field_datas values.now)))) most }
{
    let mut len: usize = 0;
    for i in 0..values.len() {
        if len == most {
            return most;
        }
        len += length_of(plans, fields[i].item, values.get(i), most - len);
    }
    len
}
