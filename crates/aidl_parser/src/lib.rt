//! The tree of a file's tokens, exactly by the productions, or a refusal: declarations with their members, and what stands in
//! lists and behind signs. Names and expressions are read by `expr_parser`.
#![tactic(auto)]

mod annotations;
mod args;
mod decls;
mod enumerators;
mod fields;
mod file;
mod inits;
mod limits;
mod lists;
mod methods;
mod parsing;
mod parts;
mod types;

pub use expr_parser::ParseFault;
pub use lists::{Part, Repeat};
pub use parsing::{law_one_tree, parse};
