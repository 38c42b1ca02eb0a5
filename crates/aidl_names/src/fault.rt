//! Why the names of a tree are refused.
use aidl_base::{Breach, Limit, OutOfMemory, Row};

/// Why the names of a tree are refused.
#[derive(Drop)]
pub enum NameFault {
    /// a limit on declarations, members or arguments is passed
    Limit(Limit),
    /// rules among E1 to E5 are broken: each breach once, sorted by file, offset and rule
    Breaches(Row<Breach>),
    /// memory was wanted and was not there
    OutOfMemory,
}

impl From<OutOfMemory> for NameFault {
    ghost use Rattle.std.specs.Prelude.{◌≡◌};
    ghost use Rattle.aidl_names.specs.declared.fault.NameFault.TheVariants as fault;

    ghost from_gives = { λ _ e. e ≡ fault.OutOfMemory };

    fn from(_fault: OutOfMemory) -> NameFault {
        NameFault::OutOfMemory
    }
}
