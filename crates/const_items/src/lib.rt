//! The items of a tree that have an outcome each, with their numbers: what the names in their expressions mean, and which
//! items each depends on.
#![tactic(auto)]

mod counted;
mod dependence;
mod item;
mod listing;
mod named;
mod numbering;
mod order;
mod scope;
mod target;

pub use counted::{law_count, law_places};
pub use dependence::{Dependence, dependence_of};
pub use item::{ItemRef, WrittenRef};
pub use listing::place_by;
pub use numbering::{Items, number_items};
pub use target::{Target, number_of, target_of};
