//! Words of a parcel: a writer and a reader of them, and the values of built-in types as words.
#![tactic(auto)]

mod fault;
mod laws;
mod padding;
mod reader;
mod sequence;
mod units;
mod wire;
mod writer;

pub use fault::{BAD_VALUE, ReadFault};
pub use laws::{law_no_prefix, law_sequence_no_prefix, law_sequence_taken_again, law_taken_again};
pub use reader::WordReader;
pub use sequence::{put_sequence, sequence_length, take_items, take_sequence};
pub use wire::Wire;
pub use writer::{WordWriter, unit_count};
