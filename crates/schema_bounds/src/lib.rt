//! The bounds of declarations that aren't known to be a schema: which of them hold themselves (E22), and which have a default
//! that is too large (E23).
#![tactic(auto)]

mod bound;
mod const_size;
mod containment;
mod kind_size;
mod laws;
mod measure;
mod order;
mod places;
mod reach;
mod reaching;
mod sizes;
mod small;

pub use bound::{Bound, bounds};
pub use laws::{law_reaches_cycle, law_too_large, law_within};
