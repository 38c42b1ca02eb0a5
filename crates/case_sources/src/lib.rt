//! What comes of source texts and of trees of files, as text that a person can compare: tokens, trees as outlines, constants,
//! names and types, or the fault. It is for rows of expected results and no part of the product.
#![tactic(auto)]

mod constants;
mod evaluation;
mod names;
mod outcome;
mod outline;
mod place;
mod tokens;
mod tree;
mod type_breaches;
mod type_names;

pub use outcome::{Kind, outcome_of};
pub use tree::{Asked, answer_of};
