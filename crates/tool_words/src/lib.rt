//! The words of the program: which command they are, and the entries of TYPES.
#![tactic(auto)]

mod command;
mod cut;
mod entry;
mod options;
mod paths;
mod rows;
mod type_words;

pub use command::{AskWords, Command, ReplayWords, RunWords, TypedFile};
pub use entry::{Entry, Form, entry_of, first_entry};
pub use rows::command_of;
