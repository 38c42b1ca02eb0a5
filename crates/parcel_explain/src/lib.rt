//! The items of a parcel's bytes: what each part of them is.
#![tactic(auto)]

mod item;
mod laws;
mod marks;
mod noting;
mod paths;
mod values;
mod whole;
mod words;

pub use item::{Item, ItemKind};
pub use laws::{law_items, law_parts};
pub use whole::explain;
