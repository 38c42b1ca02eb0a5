//! The lines that are printed of frozen versions: of each that `verify` shows, and of one that isn't whole or whose number is missing.
#![tactic(auto)]

mod lines;
mod torn_version;
mod unread;

pub use lines::{first_forty, push_version};
pub use torn_version::torn_answer;
pub use unread::bad_versions;
