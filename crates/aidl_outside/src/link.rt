//! The trait of links, which carry parcels between a client and a server.
ghost use Rattle.std.specs.Prelude.{◌≡◌, ◌≤◌, ℕ, List, Option, Bool, true, IfOk};
ghost use Rattle.aidl_outside.specs.Causes.{CarryCause};
ghost use Rattle.aidl_outside.specs.Carries.{Carries};
ghost use Rattle.aidl_outside.specs.Faults.{FailedIn, IfCarryFailed, LinkFaults};
ghost use Rattle.aidl_outside.specs.Parcel.{parcel};
ghost use Rattle.aidl_outside.specs.declared.link.Carried.{Carried};

use aidl_base::Row;
use std::alloc::Global;

/// Which way a parcel goes.
#[derive(Clone, Copy)]
pub enum Way {
    Request,
    Reply,
}

/// A parcel that was carried, with the transaction code of its request: the bytes that were sent and those that
/// were delivered.
#[derive(Drop)]
pub struct Carried {
    pub way: Way,
    pub code: u32,
    pub sent: Row<u8>,
    pub delivered: Row<u8>,
}

/// Why a parcel was not carried.
#[derive(Clone, Copy, Debug, PartialEq, Eq)]
pub enum CarryFault {
    Failed,
    OutOfMemory,
}

/// What carries parcels between a client and a server. A link may tell the parcels that it carried. A faithful one
/// delivers what was sent. It counts its faults as a store does, and may tell the parcel that failed last.
pub trait Link {
    /// the parcels so far, in order, where it tells
    ghost log: { Self → Option (List Carried) };
    /// whether it delivers what was sent
    ghost is_faithful: { Self → Bool };
    /// how often it has failed, and the parcel that failed last, where it tells it
    ghost fault_record: { Self → LinkFaults };

    /// Carries one parcel, and answers the delivered bytes. On a fault nothing was carried.
    fn carry(
        &mut self,
        alloc: Global,
        way: Way,
        code: u32,
        bytes: &[u8],
    ) -> Result<Vec<u8>, CarryFault>
        ensures carried { Carries (log self.old) (log self.new) way code bytes.now result }
        ensures faithful { is_faithful self.old ≡ true
            → IfOk result (λ delivered. delivered.items ≡ bytes.now) }
        ensures nature { is_faithful self.new ≡ is_faithful self.old }
        ensures cause { CarryCause (fault_record self.old) (fault_record self.new) result }
        ensures failed_call { IfCarryFailed result
            (FailedIn (fault_record self.new) (λ sent. sent ≡ parcel way code bytes.now)) }
        ensures never_falls { (fault_record self.old).count ≤ (fault_record self.new).count };

    /// The number of faults so far.
    fn faults(&self) -> u64
        ensures { result ≡ (fault_record self.now).count };
}
