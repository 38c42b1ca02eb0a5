//! The link in memory that delivers edited bytes, and keeps a log of what was sent and delivered.
ghost use Rattle.std.specs.Prelude.{◌≡◌, ◌≤◌, ◌++◌, ◌∷◌, [], Some, false, IfOk, IsOk, OnErr, OnOk};
ghost use Rattle.aidl_outside.specs.Carries.{Carries, entry};
ghost use Rattle.aidl_outside.specs.Causes.{CarryCause};
ghost use Rattle.aidl_outside.specs.Faults.{FailedIn, IfCarryFailed};
ghost use Rattle.aidl_outside.specs.Parcel.{parcel};
ghost use Rattle.memory_outside.specs.Edits.{delivered};
ghost use Rattle.memory_outside.specs.Failing.{CarryFails, carry_failed, counted, fails_next, uncounted};
ghost use Rattle.memory_outside.specs.Last.{tamper_faults};
ghost use Rattle.memory_outside.specs.Mem.{tampered, tamper_edits, tamper_failures};
ghost use Rattle.memory_outside.specs.declared.failures.Failing.TheVariants.{Numbers};

use crate::carry_log::record;
use crate::edits::{Edit, edit_all};
use crate::failures::{Failing, Failures};
use crate::last_call::{FailedParcel, sent};
use aidl_base::{OutOfMemory, Row};
use aidl_outside::{Carried, CarryFault, Link, Way};
use std::alloc::Global;

/// A link in memory that edits what it carries, and tells its log and which parcel failed last. It isn't faithful. Where memory is
/// wanted to keep what failed, it isn't a fault: want of memory is answered.
#[derive(Drop)]
pub struct TamperLink {
    log: Vec<Carried>,
    edits: Row<Edit>,
    failures: Failures,
    last: Option<FailedParcel>,
}

impl TamperLink {
    /// The link with an empty log, which applies the edits of each carry in their order, and whose calls with the
    /// 0-based numbers in `failing` fail. A carry has the number of its call.
    pub fn new(
        alloc: Global,
        edits: Row<Edit>,
        failing: Row<u64>,
    ) -> Result<TamperLink, OutOfMemory>
        ensures made { IsOk result }
        ensures log { IfOk result (λ link. tampered link ≡ []) }
        ensures edits { IfOk result (λ link. tamper_edits link ≡ edits) }
        ensures failures { IfOk result (λ link. tamper_failures link
            ≡ uncounted (Numbers failing)) }
    {
        Ok(TamperLink {
            log: Vec::new(alloc),
            edits,
            failures: Failures::new(Failing::Numbers(failing)),
            last: None,
        })
    }

    /// The parcels so far, in order.
    pub fn log(&self) -> &[Carried]
        ensures { result.now ≡ tampered self.now }
    {
        self.log.as_slice()
    }
}

impl Link for TamperLink {
    ghost log = { λ link. Some (tampered link) };

    ghost is_faithful = { λ _. false };

    ghost fault_record = { λ link. tamper_faults link };

    fn carry(
        &mut self,
        alloc: Global,
        way: Way,
        code: u32,
        bytes: &[u8],
    ) -> Result<Vec<u8>, CarryFault>
        ensures carried { Carries (Some (tampered self.old))
            (Some (tampered self.new)) way code bytes.now result }
        ensures edited { IfOk result (λ bytes'. bytes'.items
            ≡ delivered (tamper_edits self.old) (tamper_failures self.old).calls bytes.now) }
        ensures edits { tamper_edits self.new ≡ tamper_edits self.old }
        ensures cause { CarryCause (tamper_faults self.old) (tamper_faults self.new) result }
        ensures failed_call { IfCarryFailed result
            (FailedIn (tamper_faults self.new) (λ sent. sent ≡ parcel way code bytes.now)) }
        ensures never_falls { (tamper_failures self.old).faults
            ≤ (tamper_failures self.new).faults }
        ensures told { IfCarryFailed result
            ((tamper_faults self.new).last ≡ Some (parcel way code bytes.now)) }
        ensures failed { CarryFails (fails_next (tamper_failures self.old)) result }
        ensures counts { tamper_failures self.new
            ≡ counted (carry_failed result) (tamper_failures self.old) }
    {
        let carry = self.failures.calls;
        if self.failures.fails_now() {
            return match sent(alloc, way, code, bytes) {
                Ok(parcel) => {
                    self.failures.add_fault();
                    self.last = Some(parcel);
                    Err(CarryFault::Failed)
                }
                Err(_) => Err(CarryFault::OutOfMemory),
            };
        }
        match self.deliver(alloc, carry, way, code, bytes) {
            Ok(delivered) => Ok(delivered),
            Err(_) => Err(CarryFault::OutOfMemory),
        }
    }

    fn faults(&self) -> u64 {
        self.failures.faults
    }
}

impl TamperLink {
    // Records the bytes as they are sent, and as the edits of the carry leave them.
    fn deliver(
        &mut self,
        alloc: Global,
        carry: u64,
        way: Way,
        code: u32,
        bytes: &[u8],
    ) -> Result<Vec<u8>, OutOfMemory>
        ensures ok { OnOk result (tampered self.new ≡ tampered self.old ++ entry way code bytes.now
            (delivered (tamper_edits self.old) carry bytes.now) ∷ []) }
        ensures err { OnErr result (tampered self.new ≡ tampered self.old) }
        ensures delivered { IfOk result (λ edited. edited.items
            ≡ delivered (tamper_edits self.old) carry bytes.now) }
        ensures edits { tamper_edits self.new ≡ tamper_edits self.old }
        ensures failures { tamper_failures self.new ≡ tamper_failures self.old }
        ensures faults { tamper_faults self.new ≡ tamper_faults self.old }
    {
        let mut delivered = Vec::from_slice(alloc, bytes)?;
        edit_all(self.edits.as_slice(), carry, &mut delivered)?;
        record(alloc, &mut self.log, way, code, bytes, delivered)
    }
}
