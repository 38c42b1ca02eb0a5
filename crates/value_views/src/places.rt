//! The fields of a parcelable or union, and where that of a name stands.
ghost use Rattle.std.specs.Prelude.{◌≡◌, ◌<◌, ◌≤◌, length, IfSome};
ghost use Rattle.aidl_schema.specs.Types.{form_of};
ghost use Rattle.value_views.specs.steps.Places.{below, fields_of_base, place_named};
ghost use Rattle.wire_model.specs.Spell.{parcelable_fields, union_fields};

use crate::named_fields::NamedFields;
use aidl_base::Text;
use aidl_schema::{Base, Field, Form, form_in};
use aidl_values::law_sound;

/// The fields of the parcelable that a base names, and none of another base.
pub fn parcelable_fields<'a>(named: &NamedFields<'a>, base: Base) -> &'a [Field]
    ensures { result.now ≡ parcelable_fields (form_of named.now base) }
{
    match form_in(named.schema(), base) {
        Form::Parcelable(fields) => fields,
        _ => &[],
    }
}

/// The same of a union.
pub fn union_fields<'a>(named: &NamedFields<'a>, base: Base) -> &'a [Field]
    ensures fields { result.now ≡ union_fields (form_of named.now base) }
    ensures few { length result.now ≤ 4096 }
{
    let schema = named.schema();
    law_sound(schema);
    match form_in(schema, base) {
        Form::Union(fields) => fields,
        _ => &[],
    }
}

/// The position of the field of a name in the parcelable that a base names, where it is one of the first
/// `count`: where a record with so many values has a value of it.
pub fn place_sent(named: &NamedFields<'_>, base: Base, name: &Text, count: usize) -> Option<usize>
    ensures place { result ≡ below count
        (place_named name.now (parcelable_fields (form_of named.now base))) }
    ensures within { IfSome result (λ i. i < length (parcelable_fields (form_of named.now base))) }
    ensures sent { IfSome result (λ i. i < count) }
{
    match place_in_parcelable(named, base, name) {
        Some(place) => { if place < count { Some(place) } else { None } }
        None => None,
    }
}

// The position of the field of a name in the parcelable that a base names.
#[tactic(auto, using(crate::proofs::Named::no_parcelable, crate::proofs::Named::in_parcelable, crate::proofs::Named::within))]
fn place_in_parcelable(named: &NamedFields<'_>, base: Base, name: &Text) -> Option<usize>
    ensures place { result ≡ place_named name.now (parcelable_fields (form_of named.now base)) }
    ensures within { IfSome result (λ i. i < length (parcelable_fields (form_of named.now base))) }
{
    if parcelable_fields(named, base).len() == 0 {
        return None;
    }
    place_of(named, base, name)
}

/// The position of the field of a name in the union that a base names.
#[tactic(auto, using(crate::proofs::Named::no_union, crate::proofs::Named::in_union, crate::proofs::Named::within))]
pub fn place_in_union(named: &NamedFields<'_>, base: Base, name: &Text) -> Option<usize>
    ensures place { result ≡ place_named name.now (union_fields (form_of named.now base)) }
    ensures within { IfSome result (λ i. i < length (union_fields (form_of named.now base))) }
{
    if union_fields(named, base).len() == 0 {
        return None;
    }
    place_of(named, base, name)
}

// The position of the field of a name in the parcelable or union that a base names.
#[tactic(auto, using(crate::proofs::Named::by_text))]
fn place_of(named: &NamedFields<'_>, base: Base, name: &Text) -> Option<usize>
    ensures { result ≡ place_named name.now (fields_of_base named.now base) }
{
    match base {
        Base::Named(number) => named.field_named(number, name.as_str()),
        _ => None,
    }
}
