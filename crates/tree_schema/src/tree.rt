//! A declaration with its number in the trees.

use declared_names::Found;

/// A declaration with its number in the trees.
#[derive(Clone, Copy)]
pub struct Placed<'a, 'b> {
    pub number: u32,
    pub found: &'a Found<'b>,
}
