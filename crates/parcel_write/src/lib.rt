//! Writing a value of a type as the bytes of a Parcel, by the plans of the type.
//!
//! The bytes are those that `wire_model` calls the spelling. `spelled_length` counts them, `write` makes them, and
//! `put_value` adds those of one value to others. The length is counted first and the room taken once, so that
//! nothing fails once the first byte is written.
#![tactic(auto)]

mod bytes;
mod items;
mod length;
mod number;
mod parcel;
mod put;

pub use length::spelled_length;
pub use parcel::{WriteFault, write};
pub use put::put_value;
