// Bytes in memory to read.
ghost use Rattle.std.specs.Prelude.{◌≡◌, ◌≤◌, ◌↔◌, ◌++◌, min, length, take, drop, Some, IfOk, OnOk, OnErr, IsErr, Contains};
ghost use Rattle.std.specs.Io.KnownBytes.{ReadConsumes};
ghost use Rattle.gno_num.specs.Faults.{Rose};
ghost use Rattle.gno_io.specs.Memory.{SourceState, one_more};

use crate::Source;
use gno_num::Failed;
use std::marker::Model;

/// A source in memory, some calls of which fail as planned. It takes no memory.
#[derive(Debug, Drop)]
pub struct MemSource {
    bytes: Vec<u8>,
    at: usize,
    calls: u64,
    planned: Vec<u64>,
    faults: u64,
}

impl Model for MemSource {
    ghost use Rattle.std.specs.Prelude.{◌≤◌, length, drop};
    ghost use Rattle.gno_io.specs.Memory.{SourceState};

    ghost Value = { SourceState };

    ghost view = { λ s. record { left = drop s.at s.bytes.items; calls = s.calls; planned = s.planned.items; faults = s.faults } };

    ghost invariant = { λ s. s.at ≤ length s.bytes.items };
}

impl MemSource {
    /// A source of these bytes. `fail` are the numbers, from 0, of the calls of `take` that fail.
    pub fn new(bytes: Vec<u8>, fail: Vec<u64>) -> MemSource
        ensures left { result.left ≡ bytes.items }
        ensures planned { result.planned ≡ fail.items }
        ensures calls { result.calls ≡ 0 }
        ensures faults { result.faults ≡ 0 }
    {
        MemSource {
            bytes,
            at: 0,
            calls: 0,
            planned: fail,
            faults: 0,
        }
    }
}

impl Source for MemSource {
    ghost faults = { λ s. s.faults };

    ghost left = { λ s. Some s.left };

    fn take(&mut self, out: &mut [u8]) -> Result<usize, Failed>
        ensures count { IfOk result (λ n. n ≤ length out.old) }
        ensures bytes { ReadConsumes (Some self.old.left) (Some self.new.left) result out.new }
        ensures later { self.old.faults ≤ self.new.faults }
        ensures cause { OnErr result (Rose self.old.faults self.new.faults) }

        // It fails as planned, and gives as much as fits.
        ensures fails { IsErr result ↔ Contains self.old.planned self.old.calls }
        ensures most { IfOk result (λ n. n ≡ min (length out.old) (length self.old.left)) }
        ensures given { IfOk result (λ n. out.new ≡ take n self.old.left ++ drop n out.old) }
        ensures kept { OnErr result (out.new ≡ out.old) }

        // What is counted.
        ensures calls { self.new.calls ≡ one_more self.old.calls }
        ensures planned { self.new.planned ≡ self.old.planned }
        ensures quiet { OnOk result (self.new.faults ≡ self.old.faults) }
        ensures fault { OnErr result (self.new.faults ≡ one_more self.old.faults) }
    {
        let is_planned = self.planned.contains(&self.calls);
        self.calls = self.calls.saturating_add(1);
        if is_planned {
            self.faults = self.faults.saturating_add(1);
            return Err(Failed);
        }
        let left = &self.bytes[self.at..];
        let n = out.len().min(left.len());
        out[..n].copy_from_slice(&left[..n]);
        self.at += n;
        Ok(n)
    }
}
