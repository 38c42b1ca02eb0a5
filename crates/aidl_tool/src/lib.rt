//! The program `aidl` as one call over any store, sink and link.
#![tactic(auto)]

mod laws;
mod top;

pub use laws::{law_one_act, law_one_meaning, law_one_run, law_some_meaning};
pub use top::aidl;
