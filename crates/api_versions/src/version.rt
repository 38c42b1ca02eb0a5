//! A frozen version of an API, as it was read.

use aidl_base::{Row, SourceFile};

/// A frozen version: its number, the `.aidl` files below its folder, sorted by the bytes of their paths, which are relative to the
/// folder, and the content of its `.hash`, where one stands there.
#[derive(Drop)]
pub struct Version {
    pub number: u32,
    pub files: Row<SourceFile>,
    pub kept: Option<Row<u8>>,
}
