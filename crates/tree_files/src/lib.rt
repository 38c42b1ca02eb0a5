//! The files of a tree, each parsed, exactly by the definitions of tokens and trees, or the first refusal.
#![tactic(auto)]

mod fault;
mod found;
mod laws;
mod parsing;
mod sizes;

pub use fault::{FilesFault, LexBreach};
pub use laws::{law_of_bytes, law_one_answer, law_parsed_or_refused};
pub use parsing::parse_files;
