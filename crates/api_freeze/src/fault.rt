//! Why a version isn't frozen, and why hashes aren't written again.

use aidl_base::{Limit, OutOfMemory, Row, SourceFile};
use aidl_outside::StoreFault;
use api_versions::{Torn, VersionsFault};
use compat_judge::Broken;
use type_check::CheckFault;

/// Why a version isn't frozen.
#[derive(Drop)]
pub enum FreezeFault {
    /// the versions aren't read
    Versions(VersionsFault),
    /// the least version that isn't whole
    Torn(Torn),
    /// the latest version's files aren't a checked tree, for another cause than a limit; the file numbers in `fault` refer to `files`
    Unreadable {
        version: u32,
        files: Row<SourceFile>,
        fault: CheckFault,
    },
    /// the latest version gives the same dump
    Unchanged {
        version: u32,
    },
    /// the evolution rules that are broken from the latest version on, as `judge` lists them
    Incompatible(Row<Broken>),
    /// a limit that the latest version's files, the new number or the dump passes
    Limit(Limit),
    /// a write of the store gave nothing
    Write(StoreFault),
    /// memory was wanted and was not there, before any write
    OutOfMemory,
}

impl From<OutOfMemory> for FreezeFault {
    ghost use Rattle.std.specs.Prelude.{◌≡◌};
    ghost use Rattle.api_freeze.specs.declared.fault.FreezeFault.TheVariants as fault;

    ghost from_gives = { λ _ e. e ≡ fault.OutOfMemory };

    fn from(_fault: OutOfMemory) -> FreezeFault {
        FreezeFault::OutOfMemory
    }
}

/// Why hashes aren't written again.
#[derive(Drop)]
pub enum RehashFault {
    /// the versions aren't read
    Versions(VersionsFault),
    /// the least version that isn't whole
    Torn(Torn),
    /// a write of the store gave nothing
    Write(StoreFault),
    /// memory was wanted and was not there, before any write
    OutOfMemory,
}

impl From<OutOfMemory> for RehashFault {
    ghost use Rattle.std.specs.Prelude.{◌≡◌};
    ghost use Rattle.api_freeze.specs.declared.fault.RehashFault.TheVariants as fault;

    ghost from_gives = { λ _ e. e ≡ fault.OutOfMemory };

    fn from(_fault: OutOfMemory) -> RehashFault {
        RehashFault::OutOfMemory
    }
}
