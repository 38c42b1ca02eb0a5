//! Where the member of a name stands: by a table of names, or by going through the members.
#![tactic(auto)]

mod called;
mod name_table;
mod walking;

pub use called::Called;
pub use name_table::NameTable;
pub use walking::first_place;
