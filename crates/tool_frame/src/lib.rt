//! How a run of any command goes: what it loads, what it prints, and how it ends.
#![tactic(auto)]

mod ending;
mod exit;
mod halt;
mod loading;
mod printed;
mod putting;
mod refusing;
mod shown;
mod sources;
mod steps;
mod tree;
mod verdict;

pub use ending::end;
pub use exit::Exit;
pub use halt::Halt;
pub use loading::load_existing;
pub use printed::{Early, Printed, end_as, give, limit_passed, refusal};
pub use putting::{print, put};
pub use refusing::refuse;
pub use shown::push_shown;
pub use sources::load_sources;
pub use steps::{bytes_within, text_of};
pub use tree::load_tree;
pub use verdict::Verdict;
