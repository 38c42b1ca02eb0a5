//! The items and fields that a reader or a writer walks.
ghost use Rattle.std.specs.Prelude.{◌≡◌, slice_get, take, drop};
ghost use Rattle.marshal_plans.specs.Standing.{entries_of};

use crate::plans::{PlanField, PlanId, PlanItem, Plans};

impl Plans {
    /// The item of an id, None of a number of no item.
    pub fn item(&self, id: PlanId) -> Option<PlanItem>
        ensures { result ≡ slice_get self.now.items id.0 }
    {
        self.items.as_slice().get(id.0).copied()
    }

    /// So many fields from a first one on, as many as are there.
    pub fn entries(&self, first: usize, count: usize) -> &[PlanField]
        ensures { result.now ≡ entries_of self.now.fields first count }
    {
        front(rest(self.fields.as_slice(), first), count)
    }
}

fn rest(fields: &[PlanField], first: usize) -> &[PlanField]
    ensures { result.now ≡ drop first fields.now }
{
    if first > fields.len() {
        return &[];
    }
    &fields[first..]
}

fn front(fields: &[PlanField], count: usize) -> &[PlanField]
    ensures { result.now ≡ take count fields.now }
{
    if count > fields.len() {
        return fields;
    }
    &fields[..count]
}
