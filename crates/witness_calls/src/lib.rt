//! Calls between two versions that may show a broken rule: what is read of one, what its values are projected to, and what it shows.
#![tactic(auto)]

mod arguments;
mod call;
mod ends;
mod fitting;
mod named_decl;
mod outs;
mod reading;
mod replies;
mod requests;
mod same;
mod showing;
mod version;
mod version_method;
mod weighing;

pub use call::{Call, Values};
pub use reading::Reading;
pub use showing::{Showing, Tried, try_call};
pub use version::{Version, declared};
