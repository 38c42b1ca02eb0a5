//! The text of a `.hash` file, which says what the files of a version are.
#![tactic(auto)]

mod digits;
mod hashing;
mod laws;
mod lines;
mod order;

pub use hashing::{Recipe, hash_text};
pub use laws::law_in_order;
