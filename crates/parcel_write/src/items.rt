//! What an item says of the parts of a value.
ghost use Rattle.std.specs.Prelude.{◌≡◌, slice_get};
ghost use Rattle.parcel_write.specs.steps.PlanSpell.{element_of, first_id, id_of_entry, is_raw_item, record_entries, union_entries};

use marshal_plans::{PlanField, PlanId, PlanItem, Plans};

/// Whether a sequence stands as raw bytes.
pub(crate) fn is_raw(item: Option<PlanItem>) -> bool
    ensures { result ≡ is_raw_item item }
{
    matches!(item, Some(PlanItem::Raw { .. }))
}

/// The id of a sequence's elements.
pub(crate) fn element_in(item: Option<PlanItem>) -> PlanId
    ensures { result ≡ element_of item }
{
    match item {
        Some(PlanItem::Seq { element, .. }) => element,
        _ => first_id(),
    }
}

/// The fields of a parcelable; none of what is no parcelable.
pub(crate) fn fields_in(plans: &Plans, item: Option<PlanItem>) -> &[PlanField]
    ensures { result.now ≡ record_entries plans.now.fields item }
{
    match item {
        Some(PlanItem::Rec { first, count, .. }) => plans.entries(first, count),
        _ => &[],
    }
}

/// The id of the field of a union at a position. Where there is none it is of no matter, and no value has it.
pub(crate) fn alternative_in(plans: &Plans, item: Option<PlanItem>, tag: u32) -> PlanId
    ensures { result ≡ id_of_entry (slice_get (union_entries plans.now.fields item) tag) }
{
    match item {
        Some(PlanItem::Alt { first, count, .. }) => id_at(plans.entries(first, count), tag),
        _ => first_id(),
    }
}

fn id_at(fields: &[PlanField], tag: u32) -> PlanId
    ensures { result ≡ id_of_entry (slice_get fields.now tag) }
{
    match fields.get(tag as usize) {
        Some(field) => field.item,
        None => first_id(),
    }
}

fn first_id() -> PlanId
    ensures { result ≡ first_id }
{
    PlanId(0)
}
