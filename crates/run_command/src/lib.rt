//! The command `run`: the judge on both orders of two trees, or a line for each line of a calls file.
#![tactic(auto)]

mod command;
mod cutting;
mod judging;
mod methods;
mod objects;
mod pieces;
mod printers;
mod running;
mod session;
mod values;

pub use command::{Prepared, run};
pub use cutting::{Line, cut, lines_loaded};
pub use objects::push_saw;
pub use printers::SidePrinter;
pub use running::both_plans;
