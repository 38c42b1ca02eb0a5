//! JSON as values, by the types of a schema, with refusals that name their place as a JSON pointer (RFC 6901).
#![tactic(auto)]

mod default_rows;
mod enumerators;
mod fault;
mod given;
mod json_text;
mod keys;
mod laws;
mod member_tables;
mod numbers;
mod pointer;
mod reader;
mod reading;
mod records;
mod scalars;
mod sequences;
mod side_by_side;
mod unions;

pub use fault::{Fault, JsonFault, Reason};
pub use json_text::parse_json;
pub use json_writing::to_json;
pub use laws::law_json_reads_back;
pub use pointer::key_step;
pub use reading::from_json;
