//! Why a walk over files ends without their declarations.
use aidl_base::OutOfMemory;
use std::alloc::AllocFailed;

/// Why a walk over declarations stops.
#[derive(Clone, Copy)]
pub enum WalkFault {
    /// there are more than 16,384 declarations
    Full,
    /// memory was wanted and was not there
    OutOfMemory,
}

impl From<OutOfMemory> for WalkFault {
    ghost use Rattle.std.specs.Prelude.{◌≡◌};
    ghost use Rattle.declared_names.specs.declared.walk_fault.WalkFault.TheVariants as fault;

    ghost from_gives = { λ _ e. e ≡ fault.OutOfMemory };

    fn from(_fault: OutOfMemory) -> WalkFault {
        WalkFault::OutOfMemory
    }
}

impl<T: Drop> From<AllocFailed<T>> for WalkFault {
    ghost use Rattle.std.specs.Prelude.{◌≡◌};
    ghost use Rattle.declared_names.specs.declared.walk_fault.WalkFault.TheVariants as fault;

    ghost from_gives = { λ _ e. e ≡ fault.OutOfMemory };

    fn from(_fault: AllocFailed<T>) -> WalkFault {
        WalkFault::OutOfMemory
    }
}
