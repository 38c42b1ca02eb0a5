//! Values of the types of a schema: which types they have, how deep they are, and their defaults.
#![tactic(auto)]

mod copying;
mod default;
mod depths;
mod elements;
mod fields;
mod laws;
mod places;
mod typing;
mod value;

pub use default::{default_of, initial_of, value_of};
pub use depths::depth;
pub use laws::{
    law_counted_defaults, law_default_ends, law_default_fits, law_initial_fits, law_one_default,
    law_shallow_defaults, law_small_defaults, law_sound, law_typed_defaults,
};
pub use places::Places;
pub use typing::has_type;
pub use value::{Answer, Element, Elements, Fields, ShortFields, Value};
