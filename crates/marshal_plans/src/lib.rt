//! Marshalling plans: what a schema and some types say of bytes, as a flat row of items that a reader or a writer walks in place
//! of the schema. A `Plans` holds no name and no declaration.
#![tactic(auto)]

mod access;
mod compiling;
mod entries;
mod items;
mod lookup;
mod plans;
mod starts;

pub use compiling::compile;
pub use plans::{PlanField, PlanId, PlanItem, PlanStart, Plans, WordKind};
