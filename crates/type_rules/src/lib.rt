//! The breaches of the check rules E13 to E21 and E24, in order: on annotations, types, oneway methods, ids of methods,
//! initializers and fields of fixed size.
#![tactic(auto)]

mod annotation_rules;
mod backing_rule;
mod fields;
mod fixed;
mod ids;
mod joined;
mod laws;
mod nullable;
mod use_rules;

pub use joined::{breaches, breaches_unsorted};
pub use laws::law_unbroken;
