// Where bytes come from.
ghost use Rattle.std.specs.Prelude.{ℕ, List, Option, ◌≤◌, length, IfOk, OnErr};
ghost use Rattle.std.specs.Io.KnownBytes.{ReadConsumes};
ghost use Rattle.gno_num.specs.Faults.{Rose};

use gno_num::Failed;

/// A stream of bytes that can fail.
pub trait Source {
    /// How often it has failed: a number that doesn't fall.
    ghost faults: { Self → ℕ };

    /// The bytes that it has left, where it tells them. An object in memory does.
    ghost left: { Self → Option (List ℕ) };

    /// Gives the first bytes that are left, as many as it likes. 0 into a buffer that isn't empty
    /// is the end. After `Failed` what is left is as before.
    fn take(&mut self, out: &mut [u8]) -> Result<usize, Failed>
        ensures count { IfOk result (λ n. n ≤ length out.old) }
        ensures bytes { ReadConsumes (left self.old) (left self.new) result out.new }
        ensures later { faults self.old ≤ faults self.new }
        ensures cause { OnErr result (Rose (faults self.old) (faults self.new)) };
}
