//! The frozen versions of an API: reading them, whether each is whole, and writing files one after another.
#![tactic(auto)]

mod fault;
mod folder;
mod folders;
mod load;
mod paths;
mod place;
mod reading;
mod sources;
mod text;
mod version;
mod whole;
mod whole_folders;
mod writes;

pub use fault::VersionsFault;
pub use paths::{hash_path, version_folder};
pub use reading::versions;
pub use text::text_of;
pub use version::Version;
pub use whole::{Torn, defined_text, first_torn, is_current, is_whole};
pub use writes::{Write, write_all};
