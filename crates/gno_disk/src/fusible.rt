// Disks that can be made to fail.
ghost use Rattle.std.specs.Prelude.{ℕ, List, Option, Some, None, ◌≡◌, ◌⊎◌, ◌+◌, ◌≤◌};
ghost use Rattle.gno_num.specs.Faults.{Rose};
ghost use Rattle.gno_disk.specs.Disk.{SameImages};

use crate::Disk;

/// A disk whose calls can be made to fail, and that counts its want of memory.
pub trait Fusible: Disk {
    /// How many calls have failed for want of memory: a number that doesn't fall, and stands still
    /// at 2^64 - 1.
    ghost starved: { Self → ℕ };

    /// How many writes, cuts and syncs are let pass, where there is a fuse.
    ghost fused: { Self → Option ℕ };

    /// Some of its calls are listed to fail.
    ghost listed: { Self → Type 0 };

    /// Lets that many writes, cuts and syncs pass, and then fails every call. A later fuse takes
    /// the place of an earlier one.
    fn fuse(&mut self, calls: u64)
        ensures set { fused self.new ≡ Some calls }
        ensures told { Self.told self.new ≡ Self.told self.old }
        ensures size { Self.size self.new ≡ Self.size self.old }
        ensures images { SameImages (Self.may_leave self.old) (Self.may_leave self.new) }
        ensures moment { Self.moment self.new ≡ Self.moment self.old }
        ensures past { (since : ℕ) → SameImages (Self.left_since self.old since) (Self.left_since self.new since) }
        ensures faults { Self.faults self.new ≡ Self.faults self.old }
        ensures starved { starved self.new ≡ starved self.old }
        ensures listed { listed self.new → listed self.old };

    /// How many calls have failed for want of memory.
    fn starved(&self) -> u64
        ensures { result ≡ starved self.now };

    /// Each write, cut and sync uses the fuse at most once, and nothing else does. So it still lets
    /// pass what is left.
    ghost came_fused: { (n : ℕ) (old new : Self) (calls : ℕ) → Self.came n old new → fused old ≡ Some calls
        → (left : ℕ) × (fused new ≡ Some left) × (left ≤ calls) × (calls ≤ left + n) };

    /// No call sets a fuse.
    ghost came_unfused: { (n : ℕ) (old new : Self) → Self.came n old new → fused old ≡ None → fused new ≡ None };

    /// Nor does one list calls that are to fail.
    ghost came_listed: { (n : ℕ) (old new : Self) → Self.came n old new → listed new → listed old };

    /// The calls that have failed for want of memory don't become fewer.
    ghost came_starved: { (n : ℕ) (old new : Self) → Self.came n old new → starved old ≤ starved new };

    /// A call fails only where it is listed, where the fuse lets nothing pass, or for want of memory.
    ghost came_failed: { (n : ℕ) (old new : Self) → Self.came n old new
        → (Self.faults new ≡ Self.faults old) ⊎ listed old ⊎ (fused new ≡ Some 0) ⊎ Rose (starved old) (starved new) };
}
