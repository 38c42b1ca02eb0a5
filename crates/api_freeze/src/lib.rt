//! Freezing a schema as the next version of an API, and writing the hashes of versions again.
#![tactic(auto)]

mod fault;
mod following;
mod freezing;
mod laws;
mod rehashing;

pub use api_versions::{Version, versions};
pub use fault::{FreezeFault, RehashFault};
pub use freezing::{Frozen, freeze};
pub use laws::{law_ready_or_refused, law_same_dump};
pub use rehashing::rehash;
