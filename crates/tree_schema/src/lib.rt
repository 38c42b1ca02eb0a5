//! The schema of a checked tree, by the trees that its types, values, fields and methods are written in, and why it is valid.
#![tactic(auto)]

mod constants;
mod drafting;
mod fields;
mod kinds;
mod laws;
mod methods;
mod numbers;
mod order;
mod scope;
mod tree;
mod types;
mod values;

pub use drafting::draft;
pub use laws::{law_named, law_valid};
pub use order::in_schema_order;
pub use tree::Placed;
