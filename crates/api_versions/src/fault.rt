//! Why the versions of an API aren't read.
ghost use Rattle.std.specs.Prelude.{◌≡◌};
ghost use Rattle.api_versions.specs.Answers.{ReadAs};
ghost use Rattle.api_versions.specs.Versions.{passed};

use aidl_base::{Limit, LimitName, OutOfMemory};
use aidl_outside::StoreFault;

/// Why versions aren't read. A want of memory may come at any place.
#[derive(Drop)]
pub enum VersionsFault {
    /// the version numbers aren't 1 to n; the least that is missing
    BadVersions { missing: u32 },
    /// a limit is passed
    Limit(Limit),
    /// a listing or a reading of the store failed
    ReadFault,
    /// memory was wanted and was not there
    OutOfMemory,
}

impl From<OutOfMemory> for VersionsFault {
    ghost use Rattle.std.specs.Prelude.{◌≡◌};
    ghost use Rattle.api_versions.specs.declared.fault.VersionsFault.TheVariants as fault;

    ghost from_gives = { λ _ e. e ≡ fault.OutOfMemory };

    fn from(_fault: OutOfMemory) -> VersionsFault {
        VersionsFault::OutOfMemory
    }
}

/// What a listing or a reading of the store that gave nothing is answered by.
pub fn read_fault(fault: StoreFault) -> VersionsFault
    ensures { ReadAs fault result }
{
    match fault {
        StoreFault::Failed => VersionsFault::ReadFault,
        StoreFault::OutOfMemory => VersionsFault::OutOfMemory,
    }
}

/// A limit that is passed.
pub fn limit_passed(which: LimitName) -> VersionsFault
    ensures { result ≡ passed which }
{
    VersionsFault::Limit(Limit { which })
}
