//! The refusals of a tree of files that is checked.

use aidl_base::{Breach, Limit, OutOfMemory, Row};
use tree_files::LexBreach;

/// Why a tree is refused, in the order in which it is looked for (own): the limits `files` and `file-bytes`, files without tokens, the
/// limits on tokens, files without a tree, the limits on declarations, the check rules.
#[derive(Drop)]
pub enum CheckFault {
    /// a limit is passed
    Limit(Limit),
    /// every file without tokens, in order
    Lex(Row<LexBreach>),
    /// the 0-based number of every file for whose tokens no tree stands, in order
    Syntax(Row<u32>),
    /// all breaches of the first failing one of three stages, names (E1 to E5), constants (E6 to E12) and types (E13 to E24): each once,
    /// sorted by file, offset and rule
    Breaches(Row<Breach>),
    /// memory was wanted and was not there
    OutOfMemory,
}

impl From<OutOfMemory> for CheckFault {
    ghost use Rattle.std.specs.Prelude.{◌≡◌};
    ghost use Rattle.type_check.specs.declared.fault.CheckFault.TheVariants as fault;

    ghost from_gives = { λ _ e. e ≡ fault.OutOfMemory };

    fn from(_fault: OutOfMemory) -> CheckFault {
        CheckFault::OutOfMemory
    }
}
