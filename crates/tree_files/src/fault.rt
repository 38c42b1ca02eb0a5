//! The refusals of the files of a tree, before any rule is checked.

use aidl_base::{Limit, OutOfMemory, Row};
use aidl_lexer::LexFault;

/// A file without tokens: its 0-based number, and the fault with its place in bytes from the start of the file.
#[derive(Clone, Copy, PartialEq, Eq)]
pub struct LexBreach {
    pub file: u32,
    pub fault: LexFault,
}

/// Why the files of a tree aren't parsed, in the order in which it is looked for (own): the limits `files` and
/// `file-bytes`, files without tokens, the limits on tokens, files without a tree.
#[derive(Drop)]
pub enum FilesFault {
    /// a limit is passed: `files` or `file-bytes`; or `nesting` or `run-length`, by the first file that passes one
    Limit(Limit),
    /// every file without tokens, in order
    Lex(Row<LexBreach>),
    /// the 0-based number of every file for whose tokens no tree stands, in order
    Syntax(Row<u32>),
    /// memory was wanted and was not there
    OutOfMemory,
}

impl From<OutOfMemory> for FilesFault {
    ghost use Rattle.std.specs.Prelude.{◌≡◌};
    ghost use Rattle.tree_files.specs.declared.fault.FilesFault.TheVariants as fault;

    ghost from_gives = { λ _ e. e ≡ fault.OutOfMemory };

    fn from(_fault: OutOfMemory) -> FilesFault {
        FilesFault::OutOfMemory
    }
}
