//! The items of a tree with their outcomes, once all are found.
ghost use Rattle.std.specs.Prelude.{◌≡◌, ◌<◌, length, map, vec_len, IfSome};
ghost use Rattle.std.specs.Option.{option_map};
ghost use Rattle.const_items.specs.Items as meant;
ghost use Rattle.const_items.specs.ItemViews.{item_of};
ghost use Rattle.const_eval.specs.Outcomes.{outcome_at};
ghost use Rattle.const_eval.specs.Numbers.{numbered};

use crate::outcome::Outcome;
use const_items::{ItemRef, Items};

/// The 0-based number of an item, in the order of files and places.
#[derive(Clone, Copy, PartialEq, Eq)]
pub struct InitId(pub u32);

/// The items of a tree and the outcome of each.
#[derive(Drop)]
pub struct Settled<'a> {
    items: Items<'a>,
    outcomes: Vec<Outcome>,
    ghost len: { vec_len outcomes ≡ length items.list.items },
}

impl<'a> Settled<'a> {
    // Of items with an outcome each.
    pub(crate) fn new(items: Items<'a>, outcomes: Vec<Outcome>) -> Settled<'a>
        requires { vec_len outcomes ≡ length items.list.items }
        ensures items { result.items ≡ items.entry }
        ensures outcomes { result.outcomes ≡ outcomes }
    {
        Settled { items, outcomes }
    }

    /// The items in the order of their numbers.
    pub fn items(&self) -> &[ItemRef<'a>]
        ensures { result.now ≡ self.now.items.list.items }
    {
        self.items.list()
    }

    /// The item with a place in a file, and None where there is none.
    pub fn init_at(&self, file: u32, offset: u32) -> Option<InitId>
        ensures exact { result ≡ option_map numbered
            (meant.number_at (map item_of self.now.items.list.items) file offset) }
        ensures within { IfSome result (λ init. init.0 < length self.now.items.list.items) }
    {
        match self.items.number_at(file, offset) {
            Some(number) => Some(InitId(number as u32)),
            None => None,
        }
    }

    /// The outcome of an item.
    pub fn outcome(&self, init: InitId) -> &Outcome
        requires { init.0 < length self.now.items.list.items }
        ensures { result.now ≡ outcome_at self.now.outcomes.items init.0 }
    {
        &self.outcomes[init.0 as usize]
    }
}
