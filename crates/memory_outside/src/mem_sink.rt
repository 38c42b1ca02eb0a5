//! The sink in memory: it keeps the bytes that are put, and fails at given calls.
ghost use Rattle.std.specs.Prelude.{◌≡◌, ◌≤◌, ◌++◌, Some, [], IfErr, IfOk, IsOk};
ghost use Rattle.aidl_outside.specs.Causes.{SinkCause};
ghost use Rattle.aidl_outside.specs.Faults.{FailedIn, IfSinkFailed};
ghost use Rattle.memory_outside.specs.Failing.{SinkFails, counted, fails_next, half_of, sink_failed, uncounted};
ghost use Rattle.aidl_outside.specs.Told.{Puts};
ghost use Rattle.memory_outside.specs.declared.failures.Failing.TheVariants.{Numbers};

use crate::failures::{Failing, Failures};
use crate::last_call::piece;
use aidl_base::{OutOfMemory, Row};
use aidl_outside::{Sink, SinkFault};
use std::alloc::Global;

/// A sink in memory, which tells its bytes and which piece failed last. A failing call adds the first half of its bytes, rounded down.
/// Where memory is wanted to keep these or the piece, it isn't a fault: that is answered, and all is as it was.
#[derive(Drop)]
pub struct MemSink {
    bytes: Vec<u8>,
    failures: Failures,
    last: Option<Row<u8>>,
}

impl MemSink {
    ghost use Rattle.memory_outside.specs.Mem.{sink_bytes, sink_failures};

    /// The empty sink, whose calls with the 0-based numbers in `failing` fail. With none its count never rises.
    pub fn new(alloc: Global, failing: Row<u64>) -> Result<MemSink, OutOfMemory>
        ensures made { IsOk result }
        ensures bytes { IfOk result (λ sink. sink_bytes sink ≡ []) }
        ensures failures { IfOk result (λ sink. sink_failures sink ≡ uncounted (Numbers failing)) }
    {
        Ok(MemSink {
            bytes: Vec::new(alloc),
            failures: Failures::new(Failing::Numbers(failing)),
            last: None,
        })
    }

    /// The bytes so far.
    pub fn bytes(&self) -> &[u8]
        ensures { result.now ≡ sink_bytes self.now }
    {
        self.bytes.as_slice()
    }
}

impl Sink for MemSink {
    ghost use Rattle.memory_outside.specs.Last.{sink_faults};
    ghost use Rattle.memory_outside.specs.Mem.{sink_bytes, sink_failures};

    ghost told = { λ sink. Some (sink_bytes sink) };

    ghost fault_record = { λ sink. sink_faults sink };

    fn put(&mut self, alloc: Global, bytes: &[u8]) -> Result<(), SinkFault>
        ensures bytes { Puts (Some (sink_bytes self.old))
            (Some (sink_bytes self.new)) bytes.now result }
        ensures cause { SinkCause (sink_faults self.old) (sink_faults self.new) result }
        ensures failed_call { IfSinkFailed result
            (FailedIn (sink_faults self.new) (λ piece. piece ≡ bytes.now)) }
        ensures never_falls { (sink_failures self.old).faults ≤ (sink_failures self.new).faults }
        ensures told { IfSinkFailed result ((sink_faults self.new).last ≡ Some bytes.now) }
        ensures failed { SinkFails (fails_next (sink_failures self.old)) result }
        ensures counts { sink_failures self.new
            ≡ counted (sink_failed result) (sink_failures self.old) }
        ensures half { IfSinkFailed result
            (sink_bytes self.new ≡ sink_bytes self.old ++ half_of bytes.now) }
    {
        if self.failures.fails_now() {
            return match self.add_half(alloc, bytes) {
                Ok(piece) => {
                    self.failures.add_fault();
                    self.last = Some(piece);
                    Err(SinkFault::Failed)
                }
                Err(_) => Err(SinkFault::OutOfMemory),
            };
        }
        match self.bytes.extend_from_slice(bytes) {
            Ok(()) => Ok(()),
            Err(_) => Err(SinkFault::OutOfMemory),
        }
    }

    fn faults(&self) -> u64 {
        self.failures.faults
    }
}

impl MemSink {
    ghost use Rattle.memory_outside.specs.Last.{sink_faults};
    ghost use Rattle.memory_outside.specs.Mem.{sink_bytes, sink_failures};

    // Adds the first half of a piece, rounded down, and answers the piece. On a refusal the sink is as it was.
    fn add_half(&mut self, alloc: Global, bytes: &[u8]) -> Result<Row<u8>, OutOfMemory>
        ensures piece { IfOk result (λ piece. piece ≡ bytes.now) }
        ensures half { IfOk result
            (λ _. sink_bytes self.new ≡ sink_bytes self.old ++ half_of bytes.now) }
        ensures err { IfErr result (λ _. sink_bytes self.new ≡ sink_bytes self.old) }
        ensures failures { sink_failures self.new ≡ sink_failures self.old }
        ensures faults { sink_faults self.new ≡ sink_faults self.old }
    {
        let piece = piece(alloc, bytes)?;
        let (half, _) = bytes.split_at(bytes.len() / 2);
        self.bytes.extend_from_slice(half)?;
        Ok(piece)
    }
}
