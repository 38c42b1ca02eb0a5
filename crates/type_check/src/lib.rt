//! A tree of files checked: its schema, or the first refusal.
#![tactic(auto)]

mod bounds;
mod checking;
mod fault;
mod laws;
mod refused;
mod stages;

pub use checking::check;
pub use fault::CheckFault;
pub use laws::{law_checked_or_refused, law_never_both, law_one_refusal, law_one_schema};
pub use tree_files::LexBreach;
