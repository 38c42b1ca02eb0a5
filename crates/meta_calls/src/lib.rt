//! A service that also answers for the version and the hash of its interface.
#![tactic(auto)]

mod laws;
mod meta;
mod reserved;

pub use laws::law_codes_apart;
pub use meta::{HASH_CODE, MetaService, VERSION_CODE};
pub use reserved::reserved_method;
