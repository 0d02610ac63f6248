// A sink in memory.
ghost use Rattle.std.specs.Prelude.{◌≡◌, ◌≤◌, ◌++◌, [], Contains, IsErrOf, Some, take};
ghost use Rattle.cr_outside.specs.Faults.{Rose, raised};
ghost use Rattle.cr_outside.specs.Sink.{Puts};

use crate::fault_plan::FaultPlan;
use crate::{Sink, SinkFault};
use std::alloc::Global;

/// A sink that keeps what was put, and fails at the calls that it is told to fail at.
#[derive(Debug, Drop)]
pub struct MemSink {
    bytes: Vec<u8>,
    plan: FaultPlan,
    kept: usize,
}

impl MemSink {
    ghost use Rattle.cr_outside.specs.MemSink.{bytes_of, failing_of, calls_of, kept_of};

    /// An empty sink. `failing` has the numbers of the calls, from 1, that fail. A failing put keeps nothing.
    pub fn new(alloc: Global, failing: Vec<u64>) -> MemSink
        ensures empty { bytes_of result ≡ [] }
        ensures failing { failing_of result ≡ failing.items }
        ensures first { calls_of result ≡ 0 }
        ensures none { kept_of result ≡ 0 }
    {
        MemSink::part(alloc, failing, 0)
    }

    /// As `new`, but a failing put keeps the first `kept` bytes of its piece, or all of a shorter one.
    pub fn part(alloc: Global, failing: Vec<u64>, kept: usize) -> MemSink
        ensures empty { bytes_of result ≡ [] }
        ensures failing { failing_of result ≡ failing.items }
        ensures first { calls_of result ≡ 0 }
        ensures kept { kept_of result ≡ kept }
    {
        MemSink {
            bytes: Vec::new(alloc),
            plan: FaultPlan::new(failing),
            kept,
        }
    }

    /// All that was put.
    pub fn bytes(&self) -> &[u8]
        ensures { result.now ≡ bytes_of self.now }
    {
        self.bytes.as_slice()
    }

    // The fault of a failing put: want of memory where what is kept of the piece takes some.
    fn refuse(&mut self, bytes: &[u8]) -> SinkFault
        ensures failed { result ≡ SinkFault.Failed → bytes_of self.new ≡ bytes_of self.old ++ take (kept_of self.old) bytes.now }
        ensures wanting { result ≡ SinkFault.NoMemory → bytes_of self.new ≡ bytes_of self.old }
        ensures some { result ≡ SinkFault.NoMemory → 1 ≤ kept_of self.old }
        ensures plan { self.new.plan ≡ self.old.plan }
        ensures same { kept_of self.new ≡ kept_of self.old }
    {
        if self.kept == 0 {
            return SinkFault::Failed;
        }
        match self
            .bytes
            .extend_from_slice(&bytes[..self.kept.min(bytes.len())])
        {
            Ok(()) => SinkFault::Failed,
            Err(_) => SinkFault::NoMemory,
        }
    }
}

impl Sink for MemSink {
    ghost use Rattle.cr_outside.specs.MemSink.{bytes_of, failing_of, calls_of, kept_of, FailsBy};

    ghost told = { λ s. Some (bytes_of s) };

    ghost faults = { λ s. s.plan.faults };

    fn put(&mut self, bytes: &[u8]) -> Result<(), SinkFault>
        ensures put { Puts (Some (bytes_of self.old)) (Some (bytes_of self.new)) bytes.now result }
        ensures later { self.old.plan.faults ≤ self.new.plan.faults }
        ensures failed { IsErrOf result SinkFault.Failed → Rose self.old.plan.faults self.new.plan.faults }
        ensures listed { IsErrOf result SinkFault.Failed → Contains (failing_of self.old) (calls_of self.new) }
        ensures fails { Contains (failing_of self.old) (calls_of self.new) → FailsBy (kept_of self.old) result }
        ensures counted { calls_of self.new ≡ raised (calls_of self.old) }
        ensures left { IsErrOf result SinkFault.Failed → bytes_of self.new ≡ bytes_of self.old ++ take (kept_of self.old) bytes.now }
        ensures unput { IsErrOf result SinkFault.NoMemory → bytes_of self.new ≡ bytes_of self.old }
        ensures kept { kept_of self.new ≡ kept_of self.old }
    {
        if self.plan.next_fails() {
            return Err(self.refuse(bytes));
        }
        match self.bytes.extend_from_slice(bytes) {
            Ok(()) => Ok(()),
            Err(_) => Err(SinkFault::NoMemory),
        }
    }
}
