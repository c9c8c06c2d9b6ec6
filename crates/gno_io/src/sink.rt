// Where bytes go.
ghost use Rattle.std.specs.Prelude.{ℕ, List, Option, ◌<◌, ◌≤◌, ◌≡◌, ◌++◌, take, length, OnOk, OnErr, IfOk};
ghost use Rattle.std.specs.Io.KnownBytes.{WriteAppends, Appends};
ghost use Rattle.gno_num.specs.Faults.{Rose};

use gno_num::Failed;

/// A stream of bytes to write to, which can fail.
pub trait Sink {
    /// How often it has failed: a number that doesn't fall.
    ghost faults: { Self → ℕ };

    /// The bytes that it has taken, where it tells them. An object in memory does.
    ghost taken: { Self → Option (List ℕ) };

    /// Takes the first bytes, at least one where there is one. After `Failed` it has taken none of
    /// this call.
    fn put(&mut self, bytes: &[u8]) -> Result<usize, Failed>
        ensures some { 0 < length bytes.now → IfOk result (λ n. 0 < n) }
        ensures count { IfOk result (λ n. n ≤ length bytes.now) }
        ensures bytes { WriteAppends (taken self.old) (taken self.new) result bytes.now }
        ensures later { faults self.old ≤ faults self.new }
        ensures cause { OnErr result (Rose (faults self.old) (faults self.new)) };
}

/// Writes all the bytes, or some first ones of them and then `Failed`.
pub fn put_all<K: Sink>(sink: &mut K, bytes: &[u8]) -> Result<(), Failed>
    ensures ok { OnOk result (Appends (K.taken sink.old) (K.taken sink.new) bytes.now) }
    ensures err { OnErr result ((n : ℕ) × (n ≤ length bytes.now)
        × Appends (K.taken sink.old) (K.taken sink.new) (take n bytes.now)) }
    ensures later { K.faults sink.old ≤ K.faults sink.new }
    ensures cause { OnErr result (Rose (K.faults sink.old) (K.faults sink.new)) }
{
    let mut rest = bytes;
    while !rest.is_empty() {
        let n = sink.put(rest)?;
        rest = &rest[n..];
    }
    Ok(())
}
