//! The tokens of a file, exactly by their definition, or the first fault.
#![tactic(auto)]

mod bytes;
mod comments;
mod fault;
mod fronts;
mod laws;
mod lexing;
mod literals;
mod numbers;
mod symbols;
mod words;

pub use fault::LexFault;
pub use laws::law_one_lexing;
pub use lexing::lex;
