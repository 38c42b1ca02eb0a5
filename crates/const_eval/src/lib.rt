//! The outcome of each constant expression of a tree: its value, its fault, or that it isn't judged.
#![tactic(auto)]

mod breach_rows;
mod eval;
mod fitting;
mod given;
mod judgement;
mod known;
mod laws;
mod operands;
mod outcome;
mod ranked;
mod settled;
mod stepping;
mod tree;

pub use breach_rows::breaches;
pub use const_values::ConstFault;
pub use eval::eval_all;
pub use laws::{law_breaches_in_order, law_one_outcome, law_some_outcomes};
pub use outcome::Outcome;
pub use settled::{InitId, Settled};
