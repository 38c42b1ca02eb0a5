//! What the program meets outside itself: a store of files, a sink of bytes and a link that carries parcels.
#![tactic(auto)]

mod link;
mod paths;
mod sink;
mod store;

pub use link::{Carried, CarryFault, Link, Way};
pub use paths::path_below;
pub use sink::{Sink, SinkFault};
pub use store::{Store, StoreFault};
