//! The names of a tree of files gathered, with the breaches of the check rules E1 to E5 in order: the limits on members and
//! arguments, files whose path isn't their declaration's name, names declared twice, imports, and names of types.
#![tactic(auto)]

mod duplicates;
mod fault;
mod files;
mod imports;
mod laws;
mod limits;
mod names;
mod order;
mod rows;
mod types;

pub use declared_names::Found;
pub use fault::NameFault;
pub use laws::{law_accepted, law_in_order};
pub use name_resolution::{BuiltinName, Resolved};
pub use names::{Names, gather};
pub use order::in_order;
pub use rows::add_if;
