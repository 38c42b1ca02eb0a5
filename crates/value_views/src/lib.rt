//! What values are to another version of their type, and whether two values are the same data.
#![tactic(auto)]

mod named_fields;
mod places;
mod same;
mod viewing;

pub use named_fields::NamedFields;
pub use same::same_value;
pub use viewing::view_value;
