//! The link in memory that delivers what is sent unaltered, and keeps a log of it.
ghost use Rattle.std.specs.Prelude.{◌≡◌, ◌≤◌, ◌++◌, ◌∷◌, [], Some, true, IfOk, IsOk, OnErr, OnOk};
ghost use Rattle.aidl_outside.specs.Carries.{Carries, entry};
ghost use Rattle.aidl_outside.specs.Causes.{CarryCause};
ghost use Rattle.aidl_outside.specs.Faults.{FailedIn, IfCarryFailed};
ghost use Rattle.aidl_outside.specs.Parcel.{parcel};
ghost use Rattle.memory_outside.specs.Failing.{CarryFails, carry_failed, counted, fails_next, uncounted};
ghost use Rattle.memory_outside.specs.Last.{record_faults};
ghost use Rattle.memory_outside.specs.Mem.{recorded, record_failures};
ghost use Rattle.memory_outside.specs.declared.failures.Failing.TheVariants.{Numbers};

use crate::carry_log::record;
use crate::failures::{Failing, Failures};
use crate::last_call::{FailedParcel, sent};
use aidl_base::{OutOfMemory, Row};
use aidl_outside::{Carried, CarryFault, Link, Way};
use std::alloc::Global;

/// A faithful link in memory, which tells its log and which parcel failed last. Where memory is wanted to keep that, it isn't a fault:
/// want of memory is answered.
#[derive(Drop)]
pub struct RecordLink {
    log: Vec<Carried>,
    failures: Failures,
    last: Option<FailedParcel>,
}

impl RecordLink {
    /// The link with an empty log, whose calls with the 0-based numbers in `failing` fail. With none its count never
    /// rises.
    pub fn new(alloc: Global, failing: Row<u64>) -> Result<RecordLink, OutOfMemory>
        ensures made { IsOk result }
        ensures log { IfOk result (λ link. recorded link ≡ []) }
        ensures failures { IfOk result (λ link. record_failures link
            ≡ uncounted (Numbers failing)) }
    {
        Ok(RecordLink {
            log: Vec::new(alloc),
            failures: Failures::new(Failing::Numbers(failing)),
            last: None,
        })
    }

    /// The parcels so far, in order.
    pub fn log(&self) -> &[Carried]
        ensures { result.now ≡ recorded self.now }
    {
        self.log.as_slice()
    }
}

impl Link for RecordLink {
    ghost log = { λ link. Some (recorded link) };

    ghost is_faithful = { λ _. true };

    ghost fault_record = { λ link. record_faults link };

    fn carry(
        &mut self,
        alloc: Global,
        way: Way,
        code: u32,
        bytes: &[u8],
    ) -> Result<Vec<u8>, CarryFault>
        ensures carried { Carries (Some (recorded self.old))
            (Some (recorded self.new)) way code bytes.now result }
        ensures faithful { IfOk result (λ delivered. delivered.items ≡ bytes.now) }
        ensures cause { CarryCause (record_faults self.old) (record_faults self.new) result }
        ensures failed_call { IfCarryFailed result
            (FailedIn (record_faults self.new) (λ sent. sent ≡ parcel way code bytes.now)) }
        ensures never_falls { (record_failures self.old).faults
            ≤ (record_failures self.new).faults }
        ensures told { IfCarryFailed result
            ((record_faults self.new).last ≡ Some (parcel way code bytes.now)) }
        ensures failed { CarryFails (fails_next (record_failures self.old)) result }
        ensures counts { record_failures self.new
            ≡ counted (carry_failed result) (record_failures self.old) }
    {
        if self.failures.fails_now() {
            return match sent(alloc, way, code, bytes) {
                Ok(parcel) => {
                    self.failures.add_fault();
                    self.last = Some(parcel);
                    Err(CarryFault::Failed)
                }
                Err(_) => Err(CarryFault::OutOfMemory),
            };
        }
        match self.deliver(alloc, way, code, bytes) {
            Ok(delivered) => Ok(delivered),
            Err(_) => Err(CarryFault::OutOfMemory),
        }
    }

    fn faults(&self) -> u64 {
        self.failures.faults
    }
}

impl RecordLink {
    // Records the bytes as they are sent.
    fn deliver(
        &mut self,
        alloc: Global,
        way: Way,
        code: u32,
        bytes: &[u8],
    ) -> Result<Vec<u8>, OutOfMemory>
        ensures ok { OnOk result (recorded self.new
            ≡ recorded self.old ++ entry way code bytes.now bytes.now ∷ []) }
        ensures err { OnErr result (recorded self.new ≡ recorded self.old) }
        ensures delivered { IfOk result (λ delivered. delivered.items ≡ bytes.now) }
        ensures failures { record_failures self.new ≡ record_failures self.old }
        ensures faults { record_faults self.new ≡ record_faults self.old }
    {
        let delivered = Vec::from_slice(alloc, bytes)?;
        record(alloc, &mut self.log, way, code, bytes, delivered)
    }
}
