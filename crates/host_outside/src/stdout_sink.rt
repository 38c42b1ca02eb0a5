//! The host's standard output as a sink.
ghost use Rattle.std.specs.Prelude.{◌≡◌, None};
ghost use Rattle.aidl_outside.specs.Faults.{untold};

use aidl_outside::{Sink, SinkFault};
use std::alloc::Global;

/// Standard output. It is a trusted edge and tells nothing. A piece is handed to the system until all of it is taken.
#[derive(Drop)]
pub struct StdoutSink<'a, R: Print> {
    runtime: &'a R,
    faults: u64,
}

impl<'a, R: Print> StdoutSink<'a, R> {
    /// The standard output of the runtime, with no fault counted.
    pub fn new(runtime: &'a R) -> StdoutSink<'a, R>
        ensures { result.faults ≡ 0 }
    {
        StdoutSink { runtime, faults: 0 }
    }
}

impl<'a, R: Print> Sink for StdoutSink<'a, R> {
    ghost told = { λ _. None };

    ghost fault_record = { λ sink. untold sink.faults };

    fn put(&mut self, _alloc: Global, bytes: &[u8]) -> Result<(), SinkFault> {
        match self.runtime.write_all(bytes) {
            Ok(()) => Ok(()),
            Err(_) => {
                self.faults = self.faults.saturating_add(1);
                Err(SinkFault::Failed)
            }
        }
    }

    fn faults(&self) -> u64 {
        self.faults
    }
}
