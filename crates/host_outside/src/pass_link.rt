//! The link that delivers each parcel as it was sent.
ghost use Rattle.std.specs.Prelude.{◌≡◌, ◌≤◌, None, true, IfErr, IfOk};
ghost use Rattle.aidl_outside.specs.Carries.{Carries};
ghost use Rattle.aidl_outside.specs.Causes.{CarryCause};
ghost use Rattle.aidl_outside.specs.Faults.{FailedIn, IfCarryFailed, untold};
ghost use Rattle.aidl_outside.specs.Parcel.{parcel};
ghost use Rattle.aidl_outside.specs.declared.link.CarryFault.TheVariants.{OutOfMemory};

use aidl_outside::{CarryFault, Link, Way};
use std::alloc::Global;

/// A faithful link that keeps no log. Want of memory is its one refusal.
#[derive(Drop)]
pub struct PassLink {
    // so that the struct isn't empty
    faults: u64,
}

impl PassLink {
    /// The link, with no fault counted.
    pub fn new() -> PassLink
        ensures { result.faults ≡ 0 }
    {
        PassLink { faults: 0 }
    }
}

impl Link for PassLink {
    ghost log = { λ _. None };

    ghost is_faithful = { λ _. true };

    ghost fault_record = { λ link. untold link.faults };

    fn carry(
        &mut self,
        alloc: Global,
        way: Way,
        code: u32,
        bytes: &[u8],
    ) -> Result<Vec<u8>, CarryFault>
        ensures carried { Carries None None way code bytes.now result }
        ensures faithful { IfOk result (λ delivered. delivered.items ≡ bytes.now) }
        ensures never_failed { IfErr result (λ fault. fault ≡ OutOfMemory) }
        ensures cause { CarryCause (untold self.old.faults) (untold self.new.faults) result }
        ensures failed_call { IfCarryFailed result
            (FailedIn (untold self.new.faults) (λ sent. sent ≡ parcel way code bytes.now)) }
        ensures never_falls { self.old.faults ≤ self.new.faults }
        ensures unchanged { self.new ≡ self.old }
    {
        match Vec::from_slice(alloc, bytes) {
            Ok(delivered) => Ok(delivered),
            Err(_) => Err(CarryFault::OutOfMemory),
        }
    }

    fn faults(&self) -> u64 {
        self.faults
    }
}
