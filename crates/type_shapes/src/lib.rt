//! What the type of a member is, which value a constant of it takes, and which initializers its form refuses.
#![tactic(auto)]

mod backing;
mod initializers;
mod shape;
mod wanted;

pub use backing::{backing_annot, backing_of, is_type, type_param};
pub use initializers::is_unjudged;
pub use shape::{Shape, is_composite, shape_of};
pub use wanted::{is_enum, is_enum_tree, wanted_element, wanted_one};
