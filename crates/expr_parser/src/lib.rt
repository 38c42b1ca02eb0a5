//! The tree of an expression's tokens, exactly by the productions, with the reading of single tokens and of names.
#![tactic(auto)]

mod expressions;
mod fault;
mod levels;
mod names;
mod tokens;

pub use expressions::{clone_token, expr};
pub use fault::ParseFault;
pub use levels::Level;
pub use names::dotted;
pub use tokens::{first, is_name, mark_of, name_of, next};
