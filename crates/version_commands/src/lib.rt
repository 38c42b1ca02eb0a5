//! The commands over the frozen versions of an API, `freeze`, `verify` and `rehash`, and `dump`.
#![tactic(auto)]

mod dumping;
mod freezing;
mod refusing;
mod rehashing;
mod unread;
mod verifying;

pub use dumping::{Due, dump, dump_answer};
pub use freezing::freeze;
pub use rehashing::rehash;
pub use verifying::verify;
