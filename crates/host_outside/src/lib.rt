//! The host's folders and standard output as a store and a sink, and the link that passes all. Folders and output are trusted
//! edges: that they keep their counts, their limits and their order is proved, and nothing is told of what a folder or a
//! terminal holds.
#![tactic(auto)]

mod folder_store;
mod host_fault;
mod last_folder;
mod list_folder;
mod names;
mod pass_link;
mod read_file;
mod stdout_sink;
mod write_file;

pub use folder_store::FolderStore;
pub use pass_link::PassLink;
pub use stdout_sink::StdoutSink;
