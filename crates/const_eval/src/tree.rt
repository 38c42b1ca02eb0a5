//! What is evaluated: a tree with its items.

use aidl_names::Names;
use const_items::Items;

/// A tree and its items, which are found by their numbers and places.
#[derive(Clone, Copy)]
pub struct TreeItems<'a> {
    pub names: &'a Names<'a>,
    pub items: &'a Items<'a>,
}
