//! The command `witness`: broken evolution rules with the calls that show them.
#![tactic(auto)]

mod call_lines;
mod entries;
mod sides;
mod values;
mod witnessing;

pub use witnessing::witness;
