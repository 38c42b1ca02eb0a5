//! The trait of sinks, which take printed bytes.
ghost use Rattle.std.specs.Prelude.{◌≡◌, ◌≤◌, ℕ, List, Option};
ghost use Rattle.aidl_outside.specs.Causes.{SinkCause};
ghost use Rattle.aidl_outside.specs.Faults.{FailedIn, IfSinkFailed, SinkFaults};
ghost use Rattle.aidl_outside.specs.Told.{Puts};

use std::alloc::Global;

/// Why a call of a sink failed. After `Failed` a front of its bytes was put, maybe all of them.
#[derive(Clone, Copy, Debug, PartialEq, Eq)]
pub enum SinkFault {
    Failed,
    OutOfMemory,
}

/// Where printed bytes go. A sink may tell the bytes so far. It counts its faults as a store does, and may tell the
/// bytes of the put that failed last.
pub trait Sink {
    /// the bytes so far, where it tells
    ghost told: { Self → Option (List ℕ) };
    /// how often it has failed, and the bytes of the put that failed last, where it tells them
    ghost fault_record: { Self → SinkFaults };

    /// Adds all the bytes. `Failed` adds a front of them, `OutOfMemory` none.
    fn put(&mut self, alloc: Global, bytes: &[u8]) -> Result<(), SinkFault>
        ensures bytes { Puts (told self.old) (told self.new) bytes.now result }
        ensures cause { SinkCause (fault_record self.old) (fault_record self.new) result }
        ensures failed_call { IfSinkFailed result
            (FailedIn (fault_record self.new) (λ piece. piece ≡ bytes.now)) }
        ensures never_falls { (fault_record self.old).count ≤ (fault_record self.new).count };

    /// The number of faults so far.
    fn faults(&self) -> u64
        ensures { result ≡ (fault_record self.now).count };
}
