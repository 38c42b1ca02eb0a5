//! The ids of arguments, results and extra types.
ghost use Rattle.std.specs.Prelude.{◌≡◌, ◌<◌, Some, None, slice_get, length};
ghost use Rattle.marshal_plans.specs.Places.{HasArgument, HasMethod, HasStart, IsArgument, IsExtra, IsItemOfStart, IsResult};
ghost use Rattle.marshal_plans.specs.steps.Rising.{AreRising, order_to, place_order};

use crate::plans::{MethodNumbers, PlanId, PlanStart, Plans};
use std::cmp::Ordering;

impl Plans {
    /// The id of an argument of a method, by the numbers of the interface and the method and the argument's position, found by
    /// halving.
    pub fn argument(&self, interface: u32, method: u32, k: u32) -> PlanId
        requires { HasArgument self.now interface method k }
        // It is that of the start of this place.
        ensures start { HasStart self.now.starts interface method (Some k) result }
        // It stands for the argument's type.
        ensures stands { IsArgument self.now interface method k result }
    {
        let numbers = MethodNumbers { interface, method };
        match start_at(self.starts.as_slice(), numbers, Some(k)) {
            Some(id) => id,
            None => unreachable!(),
        }
    }

    /// The id of the result of a method, None exactly where the method is void, found by halving.
    pub fn result(&self, interface: u32, method: u32) -> Option<PlanId>
        requires { HasMethod self.now interface method }
        // It is that of the start of this place, and None where there is none.
        ensures start { IsItemOfStart self.now.starts interface method None result }
        // It stands for the result's type.
        ensures stands { IsResult self.now interface method result }
    {
        start_at(
            self.starts.as_slice(),
            MethodNumbers { interface, method },
            None,
        )
    }

    /// The id of an extra type.
    pub fn extra(&self, k: u32) -> PlanId
        requires { k < length self.now.extras }
        ensures at { slice_get self.now.extras k ≡ Some result }
        // It stands for the type.
        ensures stands { IsExtra self.now k result }
    {
        self.extras.as_slice()[k as usize]
    }
}

// The item of the start of a place.
fn start_at(starts: &[PlanStart], numbers: MethodNumbers, place: Option<u32>) -> Option<PlanId>
    requires { AreRising starts.now numbers.interface numbers.method place }
    ensures { IsItemOfStart starts.now numbers.interface numbers.method place result }
{
    match starts.binary_search_by(|start| order(start, numbers, place)) {
        Ok(i) => Some(starts[i].item),
        Err(_) => None,
    }
}

// How a start stands to a place.
fn order(start: &PlanStart, numbers: MethodNumbers, place: Option<u32>) -> Ordering
    ensures { result ≡ order_to numbers.interface numbers.method place start.now }
{
    let places = place_order(start.place, place);
    let methods = start.method.cmp(&numbers.method).then(places);
    start.interface.cmp(&numbers.interface).then(methods)
}

// Arguments stand by their positions, and the result after them.
fn place_order(one: Option<u32>, other: Option<u32>) -> Ordering
    ensures { result ≡ place_order one other }
{
    match (one, other) {
        (Some(j), Some(k)) => j.cmp(&k),
        (Some(_), None) => Ordering::Less,
        (None, Some(_)) => Ordering::Greater,
        (None, None) => Ordering::Equal,
    }
}
