//! Words that spell a number in decimal, on the command line and in a trace.
#![tactic(auto)]

mod decimals;

pub use decimals::number_within;
