//! Reading values from the bytes of a parcel.
#![tactic(auto)]

mod default;
mod front;
mod leaf;
mod marks;
mod parcel_plans;
mod raw;
mod rows;
mod tree;

pub use front::{read, read_from};
pub use parcel_words::ReadFault;
