//! A store, a sink and links in memory, which keep what they are given and fail where they are told to.
#![tactic(auto)]

mod carry_log;
mod edits;
mod failures;
mod last_call;
mod mem_sink;
mod mem_store;
mod record_link;
mod tamper_link;

pub use edits::{Edit, EditKind, law_other_edits_change_nothing, law_set_past_the_end};
pub use failures::{
    law_calls_are_numbered, law_fails_by_number, law_fails_from, law_no_number_no_fault,
};
pub use mem_sink::MemSink;
pub use mem_store::MemStore;
pub use record_link::RecordLink;
pub use tamper_link::TamperLink;
