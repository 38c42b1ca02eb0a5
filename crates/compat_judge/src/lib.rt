//! Which evolution rules a new schema breaks, and where: the parts of two schemas that stand beside each other, compared.
#![tactic(auto)]

mod alike;
mod consts;
mod differences;
mod fields;
mod findings;
mod judging;
mod laws;
mod lookup;
mod members;
mod rules;
mod shapes;
mod sides;

pub use aidl_schema::law_chain;
pub use differences::{ArgumentTest, FieldTest, MethodTest};
pub use judging::{Broken, judge};
pub use laws::law_broken_in_order;
