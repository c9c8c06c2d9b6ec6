// Bytes in memory that were written.
ghost use Rattle.std.specs.Prelude.{◌≡◌, ◌<◌, ◌≤◌, ◌+◌, ◌⊎◌, [], length, Some, IfOk, OnOk, OnErr, IsErr, Contains};
ghost use Rattle.std.specs.Io.KnownBytes.{WriteAppends};
ghost use Rattle.gno_num.specs.Faults.{Rose};
ghost use Rattle.gno_io.specs.Memory.{SinkState, one_more};

use crate::Sink;
use gno_num::Failed;
use std::alloc::Global;
use std::marker::Model;

/// A sink in memory, some calls of which fail as planned. A call that finds no memory fails too.
#[derive(Debug, Drop)]
pub struct MemSink {
    bytes: Vec<u8>,
    calls: u64,
    planned: Vec<u64>,
    faults: u64,
}

impl Model for MemSink {
    ghost use Rattle.std.specs.Prelude.{vec_capacity};
    ghost use Rattle.gno_io.specs.Memory.{SinkState};

    ghost Value = { SinkState };

    ghost view = { λ s. record { taken = s.bytes.items; capacity = vec_capacity s.bytes; calls = s.calls; planned = s.planned.items; faults = s.faults } };
}

impl MemSink {
    /// An empty sink. `fail` are the numbers, from 0, of the calls of `put` that fail.
    pub fn new(alloc: Global, fail: Vec<u64>) -> MemSink
        ensures taken { result.taken ≡ [] }
        ensures planned { result.planned ≡ fail.items }
        ensures calls { result.calls ≡ 0 }
        ensures faults { result.faults ≡ 0 }
    {
        MemSink {
            bytes: Vec::new(alloc),
            calls: 0,
            planned: fail,
            faults: 0,
        }
    }

    /// The bytes that it has taken, in order.
    pub fn bytes(&self) -> &[u8]
        ensures { result.now ≡ self.now.taken }
    {
        self.bytes.as_slice()
    }
}

impl Sink for MemSink {
    ghost faults = { λ s. s.faults };

    ghost taken = { λ s. Some s.taken };

    fn put(&mut self, bytes: &[u8]) -> Result<usize, Failed>
        ensures some { 0 < length bytes.now → IfOk result (λ n. 0 < n) }
        ensures count { IfOk result (λ n. n ≤ length bytes.now) }
        ensures bytes { WriteAppends (Some self.old.taken) (Some self.new.taken) result bytes.now }
        ensures later { self.old.faults ≤ self.new.faults }
        ensures cause { OnErr result (Rose self.old.faults self.new.faults) }

        // It fails as planned, or where the bytes need more memory, and takes all else.
        ensures fails { Contains self.old.planned self.old.calls → IsErr result }
        ensures only { OnErr result (Contains self.old.planned self.old.calls
            ⊎ (self.old.capacity < length self.old.taken + length bytes.now)) }
        ensures all { IfOk result (λ n. n ≡ length bytes.now) }

        // What is counted.
        ensures calls { self.new.calls ≡ one_more self.old.calls }
        ensures planned { self.new.planned ≡ self.old.planned }
        ensures quiet { OnOk result (self.new.faults ≡ self.old.faults) }
        ensures fault { OnErr result (self.new.faults ≡ one_more self.old.faults) }
    {
        let is_planned = self.planned.contains(&self.calls);
        self.calls = self.calls.saturating_add(1);
        if is_planned || self.bytes.extend_from_slice(bytes).is_err() {
            self.faults = self.faults.saturating_add(1);
            return Err(Failed);
        }
        Ok(bytes.len())
    }
}
