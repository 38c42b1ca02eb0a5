//! The commands `decode`, `encode` and `explain`, by the types of a schema.
#![tactic(auto)]

mod base;
mod decoding;
mod encoding;
mod explaining;
mod hexadecimal_file;
mod json_file;
mod laws;
mod steps;
mod tasks;
mod types;

pub use laws::{law_explain_exits, law_explain_stops};
pub use steps::parcel_of;
pub use tasks::{Task, run_task};
