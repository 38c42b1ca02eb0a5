//! The requests of a trace, answered again by a service of another version or of the same.
#![tactic(auto)]

mod parcels;
mod replaying;
mod words;

pub use replaying::{Replayed, replay_line};
pub use words::recorded_code;
