//! The command `ask`: the refusals of a version, of an interface and of its names, and what a service answers one request.
#![tactic(auto)]

mod answering;
mod asking;
mod interface;
mod printing;
mod version;

pub use asking::ask;
