//! Where declarations use types, with what these are; their annotations: the table of names, where each may stand, and what is kept;
//! and the ids of methods.
#![tactic(auto)]

mod annotation;
mod bases;
mod id;
mod kept;
mod listing;
mod parameters;
mod stand;
mod type_use;

pub use annotation::{Annotation, row_of};
pub use bases::{is_one_composite, is_one_scalar, is_refused, is_refused_result, is_scalar};
pub use id::{id_of, is_id, number_of};
pub use kept::{Kept, is_fixed, is_heap_annot, is_nullable, is_nullable_annot, kept_of};
pub use listing::listed_uses;
pub use parameters::is_backing_word;
pub use stand::{Stand, stand_of_tree};
pub use type_use::{TypeUseRef, annotations_of, is_field, name_place, stand_of, type_place};
