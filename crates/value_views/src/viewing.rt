//! What a value is to another version of its type.
ghost use Rattle.std.specs.Prelude.{◌≡◌, true, if◌then◌else◌, option_map, slice_get, IfOk, Some};
ghost use Rattle.std.specs.Option.{option_copied};
ghost use Rattle.aidl_values.specs.Data.{alt, rec, seq};
ghost use Rattle.aidl_values.specs.Sound.{initial_in};
ghost use Rattle.aidl_values.specs.View.{datas, field_datas, items_of, view, views};
ghost use Rattle.value_views.specs.steps.Seen.{AreThemselves, field_view};
ghost use Rattle.wire_model.specs.Spell.{parcelable_fields, union_fields};
ghost use Rattle.aidl_schema.specs.Types.{elem, form_of};
ghost use Rattle.aidl_schema.specs.Same as same;
ghost use Rattle.wire_model.specs.View.{◌>>=◌ as and_then};
ghost use Rattle.wire_model.specs.View as meant;

use crate::named_fields::NamedFields;
use crate::places::{parcelable_fields, place_in_union, place_sent, union_fields};
use aidl_base::{OutOfMemory, Row};
use aidl_schema::{AidlType, Base, Decl, Field, element, same_kind, same_type};
use aidl_values::{Elements, Fields, Value, initial_of};
use std::alloc::Global;

/// What a value that a sender spells by its type `t` is to a receiver that reads it by its type `u`, exactly
/// *View*: fields and alternatives go by their names, a field that the sender lacks has its default, and one that
/// the receiver lacks is dropped. None where there is nothing that it could be: at some part the types aren't the
/// same or declare different kinds, or an alternative is none of the sender's or has a name that the receiver
/// lacks (own). `OutOfMemory` is the one refusal.
#[cycle(viewing)]
pub fn view_value(
    alloc: Global,
    sender: &NamedFields<'_>,
    t: AidlType,
    receiver: &NamedFields<'_>,
    u: AidlType,
    value: &Value,
) -> Result<Option<Value>, OutOfMemory>
    ensures { IfOk result (λ o. option_map view o
        ≡ meant.view_of sender.now t receiver.now u (view value.now)) }
{
    if !agree(sender, t, receiver, u) {
        return Ok(None);
    }
    match value {
        Value::Null => Ok(Some(Value::Null)),
        Value::Truth(x) => Ok(Some(Value::Truth(*x))),
        Value::Number(n) => Ok(Some(Value::Number(*n))),
        Value::Text(text) => Ok(Some(Value::Text(text.try_clone(alloc)?))),
        Value::Seq(elements) => view_sequence(alloc, sender, t, receiver, u, elements),
        Value::Rec(values) => view_record(alloc, sender, t.base, receiver, u.base, values),
        Value::Alt(tag, inner) => {
            let sent = field_at(union_fields(sender, t.base), *tag);
            view_alternative(alloc, sender, sent, receiver, u.base, inner)
        }
    }
}

// The view of a sequence: the views of its elements.
#[cycle(viewing)]
fn view_sequence(
    alloc: Global,
    sender: &NamedFields<'_>,
    t: AidlType,
    receiver: &NamedFields<'_>,
    u: AidlType,
    elements: &Elements,
) -> Result<Option<Value>, OutOfMemory>
    ensures { IfOk result (λ o. option_map view o ≡ option_map seq (meant.view_items
        sender.now (elem sender.now t) receiver.now
        (elem receiver.now u) (items_of (datas elements.now)))) }
{
    let sent = element(sender.schema(), t);
    let wanted = element(receiver.schema(), u);
    match elements {
        Elements::Values(values) => {
            let seen = view_items(alloc, sender, sent, receiver, wanted, values.as_slice())?;
            Ok(as_sequence(seen))
        }
        Elements::Truths(_)
        | Elements::Bytes(_)
        | Elements::Chars(_)
        | Elements::Ints(_)
        | Elements::Longs(_) => view_row(alloc, sender, sent, receiver, wanted, elements),
    }
}

fn as_sequence(items: Option<Row<Value>>) -> Option<Value>
    ensures { option_map view result ≡ option_map seq (option_map views items) }
{
    match items {
        Some(items) => Some(Value::Seq(Elements::Values(items))),
        None => None,
    }
}

// The views of the elements of a sequence.
#[cycle(viewing)]
fn view_items(
    alloc: Global,
    sender: &NamedFields<'_>,
    t: AidlType,
    receiver: &NamedFields<'_>,
    u: AidlType,
    values: &[Value],
) -> Result<Option<Row<Value>>, OutOfMemory>
    ensures { IfOk result (λ o. option_map views o
        ≡ meant.view_items sender.now t receiver.now u (views values.now)) }
{
    let mut seen = Vec::with_capacity(alloc, values.len())?;
    for value in values {
        match view_value(alloc, sender, t, receiver, u, value)? {
            Some(view) => seen.push(view)?,
            None => return Ok(None),
        }
    }
    Ok(Some(Row::from_vec(seen)))
}

// The view of truth values or numbers that are kept side by side: they are themselves where the types of the elements agree,
// and so are none of them.
fn view_row(
    alloc: Global,
    sender: &NamedFields<'_>,
    t: AidlType,
    receiver: &NamedFields<'_>,
    u: AidlType,
    elements: &Elements,
) -> Result<Option<Value>, OutOfMemory>
    requires { AreThemselves (datas elements.now) }
    ensures { IfOk result (λ o. option_map view o ≡ option_map seq
        (meant.view_items sender.now t receiver.now u (items_of (datas elements.now)))) }
{
    if elements.len() != 0 && !agree(sender, t, receiver, u) {
        return Ok(None);
    }
    let copied = elements.try_clone(alloc)?;
    Ok(Some(Value::Seq(copied)))
}

// The view of a record: the views of the receiver's fields.
#[cycle(viewing)]
fn view_record(
    alloc: Global,
    sender: &NamedFields<'_>,
    base: Base,
    receiver: &NamedFields<'_>,
    other: Base,
    values: &Fields,
) -> Result<Option<Value>, OutOfMemory>
    ensures { IfOk result (λ o. option_map view o ≡ option_map rec (meant.each_field
        (λ g. field_view sender.now (parcelable_fields (form_of sender.now base)) receiver.now
        (items_of (field_datas values.now)) g)
        (parcelable_fields (form_of receiver.now other)))) }
{
    let fields = parcelable_fields(receiver, other);
    let mut seen = Vec::with_capacity(alloc, fields.len())?;
    for field in fields {
        match view_field(alloc, sender, base, receiver, field, values)? {
            Some(view) => seen.push(view)?,
            None => return Ok(None),
        }
    }
    Ok(Some(Value::Rec(Fields::Whole(Row::from_vec(seen)))))
}

// What a field of the receiver is seen as: the view of the sender's field of its name, or its default where there
// is none.
#[cycle(viewing)]
fn view_field(
    alloc: Global,
    sender: &NamedFields<'_>,
    base: Base,
    receiver: &NamedFields<'_>,
    field: &Field,
    values: &Fields,
) -> Result<Option<Value>, OutOfMemory>
    ensures { IfOk result (λ o. option_map view o
        ≡ field_view sender.now (parcelable_fields (form_of sender.now base)) receiver.now
        (items_of (field_datas values.now)) field.now) }
{
    match place_sent(sender, base, &field.name.0, values.len()) {
        Some(place) => {
            let sent = parcelable_fields(sender, base);
            let value = values.get(place);
            view_value(alloc, sender, sent[place].ty, receiver, field.ty, value)
        }
        None => some_initial(alloc, receiver, field),
    }
}

// The default of a field.
fn some_initial(
    alloc: Global,
    named: &NamedFields<'_>,
    field: &Field,
) -> Result<Option<Value>, OutOfMemory>
    ensures { IfOk result (λ o. option_map view o ≡ Some (initial_in named.now field.now)) }
{
    let value = initial_of(alloc, named.schema(), field)?;
    Ok(Some(value))
}

// The view of an alternative, which is that of the receiver's field of the same name: None where there is no such
// field, or no view of what it holds.
#[cycle(viewing)]
fn view_alternative(
    alloc: Global,
    sender: &NamedFields<'_>,
    sent: Option<&Field>,
    receiver: &NamedFields<'_>,
    base: Base,
    value: &Value,
) -> Result<Option<Value>, OutOfMemory>
    ensures { IfOk result (λ o. option_map view o
        ≡ and_then (option_copied sent.entry) (λ f.
        and_then (meant.field_named 0 f.name.0 (union_fields (form_of receiver.now base)))
        (λ place. option_map (alt place.0)
        (meant.view_of sender.now f.ty receiver.now place.1.ty (view value.now))))) }
{
    let Some(field) = sent else {
        return Ok(None);
    };
    let Some(place) = place_in_union(receiver, base, &field.name.0) else {
        return Ok(None);
    };
    let fields = union_fields(receiver, base);
    match view_value(alloc, sender, field.ty, receiver, fields[place].ty, value)? {
        Some(view) => Ok(Some(Value::Alt(place as u32, Box::new(alloc, view)?))),
        None => Ok(None),
    }
}

// The field at a position.
fn field_at(fields: &[Field], tag: u32) -> Option<&Field>
    ensures { option_copied result ≡ slice_get fields.now tag }
{
    fields.get(tag as usize)
}

// Whether types agree: they are the same, and of the same kind in both where their base is declared.
fn agree(sender: &NamedFields<'_>, t: AidlType, receiver: &NamedFields<'_>, u: AidlType) -> bool
    ensures { result ≡ meant.agree sender.now t receiver.now u }
{
    same_type(sender.schema(), t, receiver.schema(), u)
        && agree_in_kind(sender, t.base, receiver, u.base)
}

fn agree_in_kind(
    sender: &NamedFields<'_>,
    base: Base,
    receiver: &NamedFields<'_>,
    other: Base,
) -> bool
    ensures { result ≡ (if same.is_named base
        then meant.same_kind (same.decl_of sender.now base) (same.decl_of receiver.now other)
        else true) }
{
    match base {
        Base::Named(_) => same_kinds(decl_of(sender, base), decl_of(receiver, other)),
        _ => true,
    }
}

fn decl_of<'a>(named: &NamedFields<'a>, base: Base) -> Option<&'a Decl>
    ensures { option_copied result ≡ same.decl_of named.now base }
{
    match base {
        Base::Named(n) => named.schema().decls.as_slice().get(n as usize),
        _ => None,
    }
}

fn same_kinds(d: Option<&Decl>, e: Option<&Decl>) -> bool
    ensures { result ≡ meant.same_kind (option_copied d.entry) (option_copied e.entry) }
{
    match (d, e) {
        (Some(d), Some(e)) => same_kind(&d.kind, &e.kind),
        _ => false,
    }
}
