//! The plans of the types of a parcel, with the defaults that its records leave out, each made once.
ghost use Rattle.std.specs.Prelude.{◌≡◌, length, map, slice_get, IfOk, IfSome};
ghost use Rattle.aidl_values.specs.View.{view};
ghost use Rattle.marshal_plans.specs.Standing.{entries_of};
ghost use Rattle.parcel_read.specs.steps.PlanDefault.{initial_by_plan};

use crate::default::initials_of;
use aidl_base::{OutOfMemory, Row};
use aidl_values::Value;
use indexmap::IndexMap;
use marshal_plans::{PlanField, PlanId, PlanItem, Plans};
use std::alloc::Global;
use std::marker::Model;
use std::rc::Rc;

/// Where the fields of a parcelable or union stand among those of plans: the first, and how many.
#[derive(Clone, Copy)]
pub struct Span {
    pub first: usize,
    pub count: usize,
}

/// The plans by which a parcel is read, with the defaults that its records have left out so far. Contracts see the plans.
#[derive(Drop)]
pub struct ParcelPlans<'a> {
    plans: &'a Plans,
    rows: IndexMap<usize, Rc<Row<Value>>>,
}

impl<'a> Model for ParcelPlans<'a> {
    ghost use Rattle.std.specs.Prelude.{◌≡◌, ℕ, map, length, nat_eq, IfSome};
    ghost use Rattle.std.specs.Coded.{codes};
    ghost use Rattle.indexmap.specs.IndexMap.{get};
    ghost use Rattle.aidl_values.specs.View.{view as view_of};
    ghost use Rattle.marshal_plans.specs.Standing.{entries_of};
    ghost use Rattle.marshal_plans.specs.declared.plans.Plans.{Plans};
    ghost use Rattle.marshal_plans.specs.contracts.plans.Plans as contract_of;
    ghost use Rattle.parcel_read.specs.steps.PlanDefault.{initial_by_plan};

    ghost Value = { Plans };

    ghost coded = { Prim.hlevel (codes, contract_of.the_row.coded) };

    ghost view = { λ it. it.plans.now };

    ghost invariant = { λ it. (first : ℕ) → IfSome (get nat_eq it.rows first)
        (λ row. map view_of row.value ≡ map (λ g. initial_by_plan it.plans.now g)
        (entries_of it.plans.now.fields first (length row.value))) };
}

impl<'a> ParcelPlans<'a> {
    /// The plans, with no defaults yet.
    pub fn new(alloc: Global, plans: &'a Plans) -> ParcelPlans<'a>
        ensures { result ≡ plans.now }
    {
        ParcelPlans {
            plans,
            rows: IndexMap::new(alloc),
        }
    }

    /// The item of an id.
    pub fn item(&self, id: PlanId) -> Option<PlanItem>
        ensures { result ≡ slice_get self.now.items id.0 }
    {
        self.plans.item(id)
    }

    /// The fields of a parcelable or union.
    pub fn entries(&self, span: Span) -> &'a [PlanField]
        ensures { result.now ≡ entries_of self.now.fields span.first span.count }
    {
        self.plans.entries(span.first, span.count)
    }

    /// The defaults of a parcelable's fields, which are made when they are first wanted.
    pub fn defaults_of(&mut self, alloc: Global, span: Span) -> Result<Rc<Row<Value>>, OutOfMemory>
        ensures same { self.new ≡ self.old }
        ensures row { IfOk result (λ row. map view row.value
            ≡ map (λ g. initial_by_plan self.old g)
            (entries_of self.old.fields span.first span.count)) }
    {
        if let Some(row) = self.defaults_made(span)? {
            return Ok(row);
        }
        let row = make_defaults(alloc, self.plans, span)?;
        self.rows.insert(span.first, row.clone()?)?;
        Ok(row)
    }

    // The row that was made, if it was. A parcelable without fields begins where the next one does, so their numbers are compared.
    fn defaults_made(&self, span: Span) -> Result<Option<Rc<Row<Value>>>, OutOfMemory>
        ensures { IfOk result (λ made. IfSome made (λ row. map view row.value
            ≡ map (λ g. initial_by_plan self.now g)
            (entries_of self.now.fields span.first span.count))) }
    {
        match self.rows.get(&span.first) {
            Some(row) if row.as_ref().len() == span.count => Ok(Some(row.clone()?)),
            _ => Ok(None),
        }
    }
}

fn make_defaults(alloc: Global, plans: &Plans, span: Span) -> Result<Rc<Row<Value>>, OutOfMemory>
    ensures row { IfOk result (λ row. map view row.value
        ≡ map (λ g. initial_by_plan plans.now g)
        (entries_of plans.now.fields span.first span.count)) }
    ensures whole { IfOk result (λ row. map view row.value
        ≡ map (λ g. initial_by_plan plans.now g)
        (entries_of plans.now.fields span.first (length row.value))) }
{
    let row = initials_of(alloc, plans, plans.entries(span.first, span.count))?;
    Ok(Rc::new(alloc, row)?)
}
