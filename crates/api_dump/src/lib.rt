//! The canonical dump of a schema: names, types, values, and the files that hold them.
#![tactic(auto)]

mod declarations;
mod dumping;
mod lines;
mod names;
mod nested;
mod nesting;
mod types;
mod values;

pub use dumping::dump;
