//! What every crate stands on: lists, text, names, limits and constants, and the bytes of words and texts.
#![tactic(auto)]

mod breach;
mod constant;
mod identifiers;
mod kept;
mod limit;
mod memory;
mod name;
mod parts;
mod profile;
mod range;
mod reserved;
mod row;
mod source_file;
mod text;

pub use breach::Breach;
pub use constant::Const;
pub use identifiers::{is_identifier, is_letter, is_word_byte};
pub use limit::{Limit, LimitName};
pub use memory::OutOfMemory;
pub use name::{DottedName, Ident, joined_by_dots};
pub use parts::Parts;
pub use profile::Profile;
pub use range::Range;
pub use reserved::{Reserved, reserved_of};
pub use row::Row;
pub use source_file::SourceFile;
pub use text::Text;
