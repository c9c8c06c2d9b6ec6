// Laws of what two disks hold.
ghost use Rattle.std.specs.Prelude.{◌≡◌, ℕ, ◌≤◌, ◌^◌, List, [], length, Option};
ghost use Rattle.log_pair.specs.declared.place.Place.{Place};
ghost use Rattle.log_pair.specs.Pair.{HoldsPair};
ghost use Rattle.incoming.specs.Posts.{HoldsIncoming, IsIncomingLog, Post, incoming_place};

/// Records spell at most one start number and one list of posts, and two images, each of at most 2^60
/// bytes, hold at most one list of posts and one next number.
pub fn one_content()
    ensures log { (records : List (List ℕ)) (start other : Option ℕ) (posts others : List Post)
        → IsIncomingLog records start posts → IsIncomingLog records other others → (start ≡ other) × (posts ≡ others) }
    ensures held { (place : Place) (posts others : List Post) (next other : ℕ) (a b : List ℕ)
        → length a ≤ 2 ^ 60 → length b ≤ 2 ^ 60 → HoldsIncoming place posts next a b → HoldsIncoming place others other a b → (posts ≡ others) × (next ≡ other) }
{}

/// A log without records has no posts, and its next number is 1.
pub fn empty_log()
    ensures { (place : Place) (epoch : ℕ) (a b : List ℕ) → HoldsPair (incoming_place place) epoch [] a b → HoldsIncoming place [] 1 a b }
{}
