//! A schema: what a checked tree declares, and what its types mean.
#![tactic(auto)]

mod finding;
mod laws;
mod meaning;
mod members;
mod same;
mod schema;

pub use finding::{find, interface_named, method_of_code};
pub use laws::{
    law_chain, law_default_sizes, law_holds_itself, law_same, law_same_types, law_unbroken,
    law_valid,
};
pub use meaning::{
    Form, element, form_in, is_array, is_in_range, is_one, is_one_value, is_raw, is_type,
};
pub use members::{fields_of, is_in_way, methods_at, methods_of};
pub use same::{is_named, same_base_code, same_flag, same_kind, same_text, same_type};
pub use schema::{
    AidlType, Arg, Backing, Base, Constant, Decl, Direction, Enumerator, Field, Kind, Method,
    Schema, Shape,
};
