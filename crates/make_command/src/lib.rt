//! The command `make`: two trees and calls between them, written, checked, judged and run, and the four lines that it prints.
#![tactic(auto)]

mod command;
mod judging;
mod making;
mod printing;
mod tally;

pub use command::make;
