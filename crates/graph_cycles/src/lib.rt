//! Which nodes of a directed graph lie on a cycle. A search gives marks and ranks that nobody has to believe; one proved pass
//! over the edges checks them, and where they pass they are the answer.
#![tactic(auto)]

mod certificate;
mod components;
mod cycles;
mod depth_first;
mod laws;
mod marking;
mod marks;
mod slow;

pub use cycles::{Cycles, find_cycles};
pub use laws::law_some_cycles;
pub use marks::{is_set, targets_of};
