//! What a name means: among the declarations of a tree, through the imports of its file, and below the declaration where it
//! stands; where rules are broken, what some names mean through imports is kept.
#![tactic(auto)]

mod asked;
mod asking;
mod behind;
mod by_end;
mod by_name;
mod imported;
mod meaning;
mod numbers;
mod resolution;
mod whole_names;

pub use asking::Asking;
pub use meaning::{BuiltinName, Resolved};
pub use numbers::number_of;
pub use resolution::{Resolver, meaning_of_word};
