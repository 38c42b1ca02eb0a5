//! Witnesses: of each broken rule the first call that shows it, among those that the rule's row in the table gives at its place.
//!
//! C2 and C16 stand in `declarations`, C3 to C6 and C8 in `methods`, C7 in `ways`, C10, C11 and C15 in `records`. `search` asks the row of an
//! entry's rule, and `first` tries its candidates; `pair` has the two versions, and `reaching` finds the methods that reach each declaration.
#![tactic(auto)]

mod candidates;
mod declarations;
mod fields;
mod first;
mod laws;
mod methods;
mod pair;
mod plain;
mod reaching;
mod records;
mod search;
mod shown;
mod spot;
mod ways;

pub use laws::law_shown;
pub use pair::Pair;
pub use search::witness_of as witness;
pub use shown::{NoCall, Shown, Witness};
