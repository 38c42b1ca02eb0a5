//! The meanings of names while a tree is evaluated, by the outcomes that are known so far.
ghost use Rattle.std.specs.Prelude.{◌≡◌, ◌<◌, ℕ, length, map, IfOk, IsTrue};
ghost use Rattle.std.specs.List.{slice_get};
ghost use Rattle.const_values.specs.Operands.{IsWithin};
ghost use Rattle.const_values.specs.Seen.{answer, seen};
ghost use Rattle.const_eval.specs.Held.{is_held_outcome};
ghost use Rattle.const_items.specs.ItemViews.{item_of};
ghost use Rattle.const_eval.specs.Known.{AreHeld, values_in};
ghost use Rattle.const_eval.specs.Outcomes as meant;
ghost use Rattle.const_eval.specs.Outcomes.{outcome_at, wanted_of};
ghost use Rattle.const_eval.specs.TreeViews.{HasItems, items_of};

use crate::operands::operand_of;
use crate::outcome::Outcome;
use crate::tree::TreeItems;
use aidl_syntax::DottedTree;
use const_items::{ItemRef, Items, number_of, target_of};
use const_values::{ConstFault, Meanings, Operand, Wanted};
use std::marker::Model;

/// What the names in the expression of an item mean, by the outcomes that are known. Contracts see it as the files, the
/// number of the item and the outcomes.
#[derive(Drop)]
pub struct KnownValues<'a> {
    tree: TreeItems<'a>,
    number: usize,
    outcomes: &'a [Outcome],
}

impl<'a> Model for KnownValues<'a> {
    ghost use Rattle.std.specs.Prelude.{◌<◌, length};
    ghost use Rattle.std.specs.Coded.{codes};
    ghost use Rattle.aidl_syntax.specs.contracts.tree.ParsedFile as parsed_file;
    ghost use Rattle.const_eval.specs.contracts.outcome.Outcome as outcome;
    ghost use Rattle.const_eval.specs.Known.{AreHeld, Known};
    ghost use Rattle.const_eval.specs.TreeViews.{HasItems, items_of};

    ghost Value = { Known };

    ghost coded = { Prim.hlevel (codes, parsed_file.the_row.coded, outcome.the_row.coded) };

    ghost view = { λ known. (known.tree.names.now, (known.number, known.outcomes.now)) };

    ghost invariant = { λ known. record {
      all : HasItems known.tree;
      within : known.number < length known.tree.items.now.list.items;
      held : AreHeld (items_of known.tree) known.outcomes.now;
    } };
}

impl<'a> KnownValues<'a> {
    /// For the item with a number.
    pub fn new(tree: &TreeItems<'a>, number: usize, outcomes: &'a [Outcome]) -> KnownValues<'a>
        requires all { HasItems tree.now }
        requires within { number < length tree.now.items.now.list.items }
        requires held { AreHeld (items_of tree.now) outcomes.now }
        ensures { result ≡ (tree.now.names.now, (number, outcomes.now)) }
    {
        KnownValues {
            tree: *tree,
            number,
            outcomes,
        }
    }
}

impl<'a> Meanings for KnownValues<'a> {
    ghost use Rattle.const_eval.specs.Known.{known_meaning};

    ghost meaning = { known_meaning };

    fn meaning(&self, name: &DottedTree) -> Result<Operand<'_>, ConstFault> {
        let item = &self.tree.items.list()[self.number];
        let target = target_of(self.tree.names, item, name);
        let number = number_of(self.tree.items, target);
        operand_at(self.tree.items, self.outcomes, number)
    }
}

// What the item with a number is as an operand.
fn operand_at<'a>(
    items: &Items<'_>,
    outcomes: &'a [Outcome],
    number: Option<usize>,
) -> Result<Operand<'a>, ConstFault>
    requires { AreHeld (map item_of items.now.list.items) outcomes.now }
    ensures value { answer result
        ≡ meant.operand_at (map item_of items.now.list.items) (values_in outcomes.now) number }
    ensures within { IfOk result (λ operand. IsWithin (seen operand)) }
{
    match number {
        None => Err(ConstFault::UnknownName),
        Some(n) => operand_for(wanted_at(items.list(), n), outcomes, n),
    }
}

// The operand of a value; of what has none nothing is asked.
fn operand_for(
    wanted: Wanted,
    outcomes: &[Outcome],
    number: usize,
) -> Result<Operand<'_>, ConstFault>
    requires { IsTrue (is_held_outcome wanted (outcome_at outcomes.now number)) }
    ensures value { answer result ≡ meant.operand_of wanted (values_in outcomes.now number) }
    ensures within { IfOk result (λ operand. IsWithin (seen operand)) }
{
    match outcomes.get(number) {
        Some(Outcome::Given(value)) => operand_of(wanted, value),
        Some(Outcome::Fault(_)) => Err(ConstFault::Mismatch),
        Some(Outcome::Unjudged) => Err(ConstFault::Mismatch),
        None => Err(ConstFault::Mismatch),
    }
}

fn wanted_at(list: &[ItemRef<'_>], number: usize) -> Wanted
    ensures { result ≡ wanted_of (slice_get (map item_of list.now) number) }
{
    match list.get(number) {
        Some(item) => item.wanted,
        None => Wanted::Nothing,
    }
}
