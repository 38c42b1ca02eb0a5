//! What a tree of files declares: the declarations with their canonical names and members, and the tables that find a name.
#![tactic(auto)]

mod canonical;
mod declarations;
mod ends;
mod found;
mod last_parts;
mod marking;
mod member_refs;
mod members_named;
mod rarer;
mod sameness;
mod table;
mod type_names;
mod walk_fault;
mod walking;

pub use declarations::Declarations;
pub use ends::{End, Ends, ends_of, mark_back};
pub use found::Found;
pub use last_parts::{ends_in, last, last_mark};
pub use marking::{with_part, with_parts};
pub use member_refs::{MemberRef, members, name_of};
pub use members_named::{called, members_by_name};
pub use rarer::is_rarer;
pub use sameness::{is_joined, same};
pub use table::Table;
pub use type_names::names_of_types;
pub use walk_fault::WalkFault;
pub use walking::{package, walk};
