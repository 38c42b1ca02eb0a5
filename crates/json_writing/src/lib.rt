//! Values as JSON: as a value of `serde_json`, and as compact text that is printed piece by piece.
#![tactic(auto)]

mod byte_texts;
mod decl_rows;
mod member_rows;
mod members;
mod named;
mod number_text;
mod object_text;
mod printer;
mod quoted;
mod sequence_text;
mod value_names;
mod value_table;
mod value_text;
mod walks;
mod writing;

pub use decl_rows::{DeclRows, RowMaker};
pub use named::{enumerators_in, fields_of};
pub use printer::JsonPrinter;
pub use value_names::ValueNames;
pub use value_text::push_value_text;
pub use walks::WALKS;
pub use writing::to_json;
