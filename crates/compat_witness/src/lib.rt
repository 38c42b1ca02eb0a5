//! Calls that show that an evolution rule is broken: definitions in `specs/` and the laws about them, which do nothing when they run.
//!
//! `Sides` (what is read of a request or a reply, and what it is projected to by the view of one version on the other), `Candidates`
//! (calls that may show a broken rule, and when one counts), `Places` (the methods and fields that a broken rule names), `Reaching`
//! (the methods that carry a declaration), `Alike` (that one of them shows as much as another), `Rows` (rule by rule the condition and the candidates) and `RowsByRule` (the table of them). `docs/WITNESS.md` says it in words.
#![tactic(auto)]

mod laws;

pub use laws::{law_alike, law_shown};
