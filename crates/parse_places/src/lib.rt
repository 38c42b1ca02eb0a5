//! The place of a syntax fault: how many tokens of a file can still be the beginning of one that has a tree.
//!
//! It is found by a pushdown automaton. Its stack holds what may come next, and the table of the productions says what each
//! token puts in the place of its top. One token of look-ahead is enough (the table is LL(1)).
#![tactic(auto)]

mod annotations;
mod declarations;
mod expected;
mod expressions;
mod methods;
mod moving;
mod names;
mod placing;
mod rows;
mod terminal;

pub use placing::{fault_place, law_offsets, law_one_place};
