// What a disk does.
ghost use Rattle.std.specs.Prelude.{ℕ, List, Option, ◌≡◌, ◌+◌, ◌^◌, ◌≤◌, max, length, take, drop, is_some, IfSome, OnOk, OnErr};
ghost use Rattle.gno_num.specs.Faults.{Rose};
ghost use Rattle.gno_disk.specs.Disk.{Overwrites, Torn, PartCut, LooseCut, Told, Follows, NoMore, Only, Elapses, TimeGoesOn};

use gno_num::Failed;

/// Bytes that outlive the program, at most 2^60 of them. Each call but `len` and `faults` can fail.
/// A stop leaves one of the images that stand at that moment; after it the disk has this one image.
pub trait Disk {
    /// The bytes that a read gives, where the disk tells them. A disk in memory does.
    ghost told: { Self → Option (List ℕ) };

    /// The length.
    ghost size: { Self → ℕ };

    /// How often it has failed: a number that doesn't fall, and stands still at 2^64 - 1.
    ghost faults: { Self → ℕ };

    /// The images that a stop now may leave.
    ghost may_leave: { Self → List ℕ → Type 0 };

    /// The moment, as a number that doesn't fall.
    ghost moment: { Self → ℕ };

    /// The images that a stop at some moment from that one on might have left, in a call or
    /// between two.
    ghost left_since: { Self → ℕ → List ℕ → Type 0 };

    /// The second disk came from the first by at most so many writes, cuts and syncs, and by any
    /// number of reads.
    ghost came: { ℕ → Self → Self → Type 0 };

    /// The length in bytes.
    fn len(&self) -> u64
        ensures value { result ≡ size self.now }
        ensures limit { result ≤ 2 ^ 60 }
        ensures told { IfSome (told self.now) (λ bytes. length bytes ≡ size self.now) };

    /// How often it has failed.
    fn faults(&self) -> u64
        ensures { result ≡ faults self.now };

    /// Reads as many bytes as `out` has, from the place `at` on.
    fn read(&mut self, at: u64, out: &mut [u8]) -> Result<(), Failed>
        requires { at + length out.old ≤ size self.old }
        ensures bytes { OnOk result (IfSome (told self.old) (λ bytes. out.new ≡ take (length out.old) (drop at bytes))) }
        ensures told { told self.new ≡ told self.old }
        ensures size { size self.new ≡ size self.old }
        ensures crash { NoMore (may_leave self.old) (may_leave self.new) }
        ensures time { Elapses (moment self.old) (moment self.new)
            (left_since self.old) (left_since self.new) (may_leave self.new) }
        ensures later { faults self.old ≤ faults self.new }
        ensures cause { OnErr result (Rose (faults self.old) (faults self.new)) }
        ensures came { came 0 self.old self.new };

    /// Writes from the place `at` on, over what is there and past the end. A write that fails may
    /// have done any part. One whose end lies past 2^60 fails.
    fn write_at(&mut self, at: u64, bytes: &[u8]) -> Result<(), Failed>
        requires { at ≤ size self.old }
        ensures written { OnOk result (Told (Overwrites at bytes.now) (told self.old) (told self.new)) }
        ensures size { OnOk result (size self.new ≡ max (size self.old) (at + length bytes.now)) }
        ensures limit { OnOk result (at + length bytes.now ≤ 2 ^ 60) }
        ensures torn { OnErr result (Told (Torn at (length bytes.now)) (told self.old) (told self.new)) }
        ensures crash { Follows (Torn at (length bytes.now)) (may_leave self.old) (may_leave self.new) }
        ensures time { Elapses (moment self.old) (moment self.new)
            (left_since self.old) (left_since self.new) (may_leave self.new) }
        ensures later { faults self.old ≤ faults self.new }
        ensures cause { OnErr result (Rose (faults self.old) (faults self.new)) }
        ensures came { came 1 self.old self.new };

    /// Cuts the disk to a length. A cut that fails may have done any part.
    fn cut(&mut self, to: u64) -> Result<(), Failed>
        requires { to ≤ size self.old }
        ensures cut { OnOk result (Told (λ old new. new ≡ take to old) (told self.old) (told self.new)) }
        ensures size { OnOk result (size self.new ≡ to) }
        ensures part { OnErr result (Told (PartCut to) (told self.old) (told self.new)) }
        ensures crash { Follows (LooseCut to) (may_leave self.old) (may_leave self.new) }
        ensures time { Elapses (moment self.old) (moment self.new)
            (left_since self.old) (left_since self.new) (may_leave self.new) }
        ensures later { faults self.old ≤ faults self.new }
        ensures cause { OnErr result (Rose (faults self.old) (faults self.new)) }
        ensures came { came 1 self.old self.new };

    /// After it, what was written stays: a stop leaves what a read gives.
    fn sync(&mut self) -> Result<(), Failed>
        ensures told { told self.new ≡ told self.old }
        ensures size { size self.new ≡ size self.old }
        ensures durable { OnOk result (IfSome (told self.old) (λ bytes. Only bytes (may_leave self.new))) }
        ensures crash { NoMore (may_leave self.old) (may_leave self.new) }
        ensures time { Elapses (moment self.old) (moment self.new)
            (left_since self.old) (left_since self.new) (may_leave self.new) }
        ensures later { faults self.old ≤ faults self.new }
        ensures cause { OnErr result (Rose (faults self.old) (faults self.new)) }
        ensures came { came 1 self.old self.new };

    /// The bytes that are told are all of them.
    ghost whole: { (disk : Self) → IfSome (told disk) (λ bytes. length bytes ≡ size disk) };

    /// The disk as it reads is one of its images.
    ghost reads: { (disk : Self) → IfSome (told disk) (may_leave disk) };

    /// This moment is one of those since an earlier one.
    ghost counts_now: { (disk : Self) (since : ℕ) (image : List ℕ) → since ≤ moment disk → may_leave disk image → left_since disk since image };

    /// Since this moment there is no other.
    ghost only_now: { (disk : Self) (image : List ℕ) → left_since disk (moment disk) image → may_leave disk image };

    /// A disk came from itself by no call.
    ghost came_none: { (disk : Self) → came 0 disk disk };

    /// Calls that follow one another add up.
    ghost came_then: { (m n : ℕ) (old mid new : Self) → came m old mid → came n mid new → came (m + n) old new };

    /// At most so many are at most more.
    ghost came_more: { (m n : ℕ) (old new : Self) → m ≤ n → came m old new → came n old new };

    /// The faults don't become fewer.
    ghost came_later: { (n : ℕ) (old new : Self) → came n old new → faults old ≤ faults new };

    /// Time goes on.
    ghost came_goes_on: { (n : ℕ) (old new : Self) → came n old new → TimeGoesOn (moment old) (moment new) (left_since old) (left_since new) };

    /// Whether the bytes are told stays.
    ghost came_tells: { (n : ℕ) (old new : Self) → came n old new → is_some (told new) ≡ is_some (told old) };
}
