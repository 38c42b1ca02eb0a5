//! Texts and lists that grow piece by piece, and remember a want of memory.
#![tactic(auto)]

mod list;
mod text;

pub use list::GrowingList;
pub use text::GrowingText;
