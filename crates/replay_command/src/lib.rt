//! The command `replay`: a line for each request of a trace, as another version answers it.
#![tactic(auto)]

mod answers;
mod lines;
mod replaying;

pub use replaying::replay;
