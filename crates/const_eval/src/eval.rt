//! The evaluation of all items of a tree, each that is on no cycle behind those that it depends on.
ghost use Rattle.std.specs.Prelude.{◌≡◌, ◌<◌, ℕ, false, length, map, IfOk, IsTrue, Contains};
ghost use Rattle.std.specs.List.{All};
ghost use Rattle.graph_cycles.specs.Paths.{TellsCycles, flag, targets};
ghost use Rattle.aidl_syntax.specs.Sources.{source_of};
ghost use Rattle.const_eval.specs.Held.{is_held_outcome};
ghost use Rattle.const_items.specs.Items.{items as items_in};
ghost use Rattle.const_items.specs.ItemViews.{item_of};
ghost use Rattle.const_eval.specs.Known.{AreHeld, AreKnown, AreNext, AreUnknown, IsHeldAt, IsInTurn, IsItemAt, judgement_by, without_value};
ghost use Rattle.const_eval.specs.Outcomes as meant;
ghost use Rattle.const_eval.specs.Outcomes.{AreOutcomes, HasOutcome};
ghost use Rattle.const_eval.specs.TreeViews.{HasItems, files_of, items_of};

use crate::given::{are_given, none_known};
use crate::judgement::judgement;
use crate::outcome::Outcome;
use crate::ranked::ranked;
use crate::settled::Settled;
use crate::tree::TreeItems;
use aidl_base::{OutOfMemory, Row};
use aidl_names::Names;
use const_items::{Dependence, ItemRef, dependence_of, number_items};
use const_values::{ConstFault, EvalFault};
use graph_cycles::{find_cycles, is_set, targets_of};
use std::alloc::Global;

/// The outcome of each item of a tree (own, after AOSP, "AIDL language", "Constants"). Items are judged by their ranks, each that
/// is on no cycle behind all that it depends on.
pub fn eval_all<'a>(alloc: Global, names: &Names<'a>) -> Result<Settled<'a>, OutOfMemory>
    ensures items { IfOk result (λ settled. map item_of settled.items.list.items
        ≡ items_in (map source_of names.now)) }
    ensures outcomes { IfOk result (λ settled. AreOutcomes
        (map source_of names.now) settled.outcomes.items) }
{
    let items = number_items(alloc, names)?;
    let tree = TreeItems {
        names,
        items: &items,
    };
    let outcomes = outcomes(alloc, &tree)?;
    Ok(Settled::new(items, outcomes))
}

fn outcomes(alloc: Global, tree: &TreeItems<'_>) -> Result<Vec<Outcome>, OutOfMemory>
    requires all { HasItems tree.now }
    ensures { IfOk result (λ outcomes. AreOutcomes (files_of tree.now) outcomes.items) }
{
    let dependence = dependence_of(alloc, tree.names, tree.items)?;
    let cycles = find_cycles(alloc, dependence.next.as_slice())?;
    let order = ranked(alloc, tree.items.list().len(), cycles.ranks.as_slice())?;
    in_turn(
        alloc,
        tree,
        &dependence,
        cycles.on.as_slice(),
        order.as_slice(),
    )
}

// The outcomes of all items, each that is on no cycle behind those that it depends on.
fn in_turn(
    alloc: Global,
    tree: &TreeItems<'_>,
    dependence: &Dependence,
    on: &[bool],
    order: &[usize],
) -> Result<Vec<Outcome>, OutOfMemory>
    requires all { HasItems tree.now }
    requires next { AreNext (files_of tree.now) dependence.now.next.items }
    requires unknown { AreUnknown (files_of tree.now) dependence.now.unknown.items }
    requires cycles { TellsCycles (targets dependence.now.next.items) on.now }
    requires each { (n : ℕ) → n < length tree.now.items.now.list.items → Contains order.now n }
    requires below { All (λ n. n < length tree.now.items.now.list.items) order.now }
    requires turn { IsInTurn (files_of tree.now) on.now order.now }
    ensures { IfOk result (λ outcomes. AreOutcomes (files_of tree.now) outcomes.items) }
{
    let mut outcomes = none_known(alloc, tree.items.list().len())?;
    for number in order {
        let outcome = outcome_of(alloc, tree, dependence, on, outcomes.as_slice(), *number)?;
        outcomes[*number] = outcome;
    }
    Ok(outcomes)
}

// The outcome of the item with a number, by the outcomes of those that it depends on.
fn outcome_of(
    alloc: Global,
    tree: &TreeItems<'_>,
    dependence: &Dependence,
    on: &[bool],
    outcomes: &[Outcome],
    number: usize,
) -> Result<Outcome, OutOfMemory>
    requires all { HasItems tree.now }
    requires next { AreNext (files_of tree.now) dependence.now.next.items }
    requires unknown { AreUnknown (files_of tree.now) dependence.now.unknown.items }
    requires cycles { TellsCycles (targets dependence.now.next.items) on.now }
    requires within { number < length tree.now.items.now.list.items }
    requires known { flag on.now number ≡ false → AreKnown (files_of tree.now) outcomes.now number }
    requires held { AreHeld (items_of tree.now) outcomes.now }
    ensures exact { IfOk result (λ outcome. HasOutcome (files_of tree.now) number outcome) }
    ensures held { IfOk result (λ outcome. IsHeldAt (items_of tree.now) number outcome) }
{
    let item = &tree.items.list()[number];
    let unknown = is_set(dependence.unknown.as_slice(), number);
    let given = are_given(outcomes, targets_of(dependence.next.as_slice(), number));
    match without_value(item.unjudged, unknown, is_set(on, number), given) {
        Some(outcome) => Ok(outcome),
        None => judged(alloc, tree, number, item, outcomes),
    }
}

// The outcome of an item that is not judged by values.
fn without_value(unjudged: bool, unknown: bool, cyclic: bool, given: bool) -> Option<Outcome>
    ensures { result ≡ without_value unjudged unknown cyclic given }
{
    if unjudged {
        Some(Outcome::Unjudged)
    } else if unknown {
        Some(Outcome::Fault(ConstFault::UnknownName))
    } else if cyclic {
        Some(Outcome::Fault(ConstFault::Cycle))
    } else if !given {
        Some(Outcome::Unjudged)
    } else {
        None
    }
}

// The outcome of an item by the values of those that it depends on.
fn judged(
    alloc: Global,
    tree: &TreeItems<'_>,
    number: usize,
    item: &ItemRef<'_>,
    outcomes: &[Outcome],
) -> Result<Outcome, OutOfMemory>
    requires all { HasItems tree.now }
    requires at { IsItemAt tree.now.items.now.list.items number item.now }
    requires held { AreHeld (items_of tree.now) outcomes.now }
    ensures value { IfOk result (λ outcome. outcome
        ≡ meant.outcome_of (judgement_by (files_of tree.now) outcomes.now (item_of item.now))) }
    ensures held { IfOk result (λ outcome. IsTrue (is_held_outcome item.now.wanted outcome)) }
{
    match judgement(alloc, tree, number, item, outcomes) {
        Ok(value) => Ok(Outcome::Given(value)),
        Err(EvalFault::Fault(fault)) => Ok(Outcome::Fault(fault)),
        Err(EvalFault::OutOfMemory) => Err(OutOfMemory),
    }
}
