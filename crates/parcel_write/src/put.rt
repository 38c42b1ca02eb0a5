//! How a value of any item is written: null, markers, tags, sequences, and the fields of records.
ghost use Rattle.std.specs.Prelude.{◌≡◌, ◌≤◌, ◌<◌, ◌^◌, pos, length};
ghost use Rattle.aidl_base.specs.Words.{word};
ghost use Rattle.aidl_values.specs.Data.{rec};
ghost use Rattle.aidl_values.specs.View.{datas, field_datas, items_of, view, view_element};
ghost use Rattle.parcel_words.specs.Written.{with_bytes};
ghost use Rattle.parcel_write.specs.Fitting.{FitsRoom, OfEachFit};
ghost use Rattle.parcel_write.specs.steps.PlanSpell.{EachSuits, EntriesSuit, Suits, item_of, null_word_by, plan_spell, plan_spell_entries, plan_spell_items};
ghost use Rattle.wire_model.specs.Spell.{spell};

use crate::bytes::put_raw;
use crate::items::{alternative_in, element_in, fields_in, is_raw};
use crate::number::put_number;
use aidl_values::{Element, Elements, Fields, Value};
use marshal_plans::{PlanField, PlanId, PlanItem, Plans};
use parcel_words::{Wire, WordWriter};

/// Appends the bytes that spell a value of the type that the id stands for.
pub fn put_value(plans: &Plans, id: PlanId, value: &Value, to: &mut WordWriter)
    requires { FitsRoom plans.now id (view value.now) to.old.room }
    ensures { OfEachFit plans.now id (view value.now) (λ S t. to.new
        ≡ with_bytes to.old (spell S t (view value.now))) }
{
    put(plans, id, value, to);
}

/// Appends the bytes of a value by its item.
#[cycle(put)]
pub(crate) fn put(plans: &Plans, id: PlanId, value: &Value, to: &mut WordWriter)
    requires suits { Suits plans.now id (view value.now) }
    requires small { length (plan_spell plans.now id (view value.now)) < 2 ^ 31 }
    requires room { length (plan_spell plans.now id (view value.now)) ≤ to.old.room }
    ensures { to.new ≡ with_bytes to.old (plan_spell plans.now id (view value.now)) }
{
    match value {
        Value::Null => put_null(plans.item(id), to),
        Value::Truth(b) => to.word(i32::from(*b)),
        Value::Number(n) => put_number(plans.item(id), *n, to),
        Value::Text(text) => text.put(to),
        Value::Seq(elements) => {
            to.count(elements.len());
            let item = plans.item(id);
            if is_raw(item) {
                put_raw(elements, to);
            } else {
                put_elements(plans, element_in(item), elements, to);
            }
        }
        Value::Rec(values) => put_record(plans, id, values, to),
        Value::Alt(tag, inner) => {
            to.word(PRESENT);
            put_tag(*tag, to);
            put(
                plans,
                alternative_in(plans, plans.item(id), *tag),
                inner,
                to,
            );
        }
    }
}

/// The marker of a parcelable or union that isn't null.
const PRESENT: i32 = 1;

/// Appends null: the word 0 of a parcelable or union, and otherwise the word -1.
fn put_null(item: Option<PlanItem>, to: &mut WordWriter)
    requires { 4 ≤ to.old.room }
    ensures { to.new ≡ with_bytes to.old (word (null_word_by item)) }
{
    match item {
        Some(PlanItem::Rec { .. }) | Some(PlanItem::Alt { .. }) => to.word(0),
        _ => to.word(-1),
    }
}

/// Appends the tag of a union.
fn put_tag(tag: u32, to: &mut WordWriter)
    requires few { tag < 2 ^ 31 }
    requires room { 4 ≤ to.old.room }
    ensures { to.new ≡ with_bytes to.old (word (pos tag)) }
{
    to.word(tag as i32);
}

/// Appends the elements of a sequence.
#[cycle(put)]
#[tactic(auto, using(parcel_words::proofs::lemmas::Appends::with_more, parcel_words::proofs::lemmas::Appends::with_none))]
fn put_elements(plans: &Plans, id: PlanId, elements: &Elements, to: &mut WordWriter)
    requires suits { EachSuits plans.now id (items_of (datas elements.now)) }
    requires small { length (plan_spell_items plans.now id (items_of (datas elements.now)))
        < 2 ^ 31 }
    requires room { length (plan_spell_items plans.now id (items_of (datas elements.now)))
        ≤ to.old.room }
    ensures { to.new
        ≡ with_bytes to.old (plan_spell_items plans.now id (items_of (datas elements.now))) }
{
    let item = plans.item(id);
    for i in 0..elements.len() {
        put_element(plans, id, item, &elements.get(i), to);
    }
}

/// Appends an element, whose item was looked up once for all of them.
#[cycle(put)]
#[inline(always)]
fn put_element(
    plans: &Plans,
    id: PlanId,
    item: Option<PlanItem>,
    element: &Element<'_>,
    to: &mut WordWriter,
)
    requires item { item ≡ item_of plans.now id }
    requires suits { Suits plans.now id (view_element element.now) }
    requires small { length (plan_spell plans.now id (view_element element.now)) < 2 ^ 31 }
    requires room { length (plan_spell plans.now id (view_element element.now)) ≤ to.old.room }
    ensures { to.new ≡ with_bytes to.old (plan_spell plans.now id (view_element element.now)) }
{
    match element {
        Element::Value(value) => put(plans, id, value, to),
        Element::Truth(b) => to.word(i32::from(*b)),
        Element::Number(n) => put_number(item, *n, to),
    }
}

/// Appends the bytes of a record by its item.
#[cycle(put)]
fn put_record(plans: &Plans, id: PlanId, values: &Fields, to: &mut WordWriter)
    requires suits { Suits plans.now id (rec (items_of (field_datas values.now))) }
    requires small { length (plan_spell plans.now id (rec (items_of (field_datas values.now))))
        < 2 ^ 31 }
    requires room { length (plan_spell plans.now id (rec (items_of (field_datas values.now))))
        ≤ to.old.room }
    ensures { to.new
        ≡ with_bytes to.old (plan_spell plans.now id (rec (items_of (field_datas values.now)))) }
{
    to.word(PRESENT);
    let start = to.open_record();
    put_fields(plans, fields_in(plans, plans.item(id)), values, to);
    to.close_record(start);
}

/// Appends the fields of a record.
#[cycle(put)]
#[tactic(auto, using(crate::proofs::Typed::same_count))]
fn put_fields(plans: &Plans, fields: &[PlanField], values: &Fields, to: &mut WordWriter)
    requires suits { EntriesSuit plans.now fields.now (items_of (field_datas values.now)) }
    requires small { length
        (plan_spell_entries plans.now fields.now (items_of (field_datas values.now))) < 2 ^ 31 }
    requires room { length
        (plan_spell_entries plans.now fields.now (items_of (field_datas values.now)))
        ≤ to.old.room }
    ensures { to.new ≡ with_bytes to.old
        (plan_spell_entries plans.now fields.now (items_of (field_datas values.now))) }
{
    for i in 0..values.len() {
        put(plans, fields[i].item, values.get(i), to);
    }
}
