//! A source file as its path and its bytes.
ghost use Rattle.std.specs.Prelude.{◌≡◌};

use crate::row::Row;
use crate::text::Text;

/// A file of a tree: its path below the tree, with `/` between the parts, and its bytes.
#[derive(Debug)]
pub struct SourceFile {
    pub path: Text,
    pub bytes: Row<u8>,
}

impl Drop for SourceFile {
    fn drop(self) {
        let SourceFile { path: _, bytes: _ } = self;
    }
}

impl SourceFile {
    /// Its bytes.
    pub fn into_bytes(self) -> Row<u8>
        ensures { result ≡ self.bytes }
    {
        let SourceFile { path: _, bytes } = self;
        bytes
    }
}
