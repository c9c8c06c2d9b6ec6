// Slots that are taken and given back.
ghost use Rattle.std.specs.Prelude.{◌≡◌, ◌+◌, ◌%◌, ◌^◌, ◌<◌, ◌≤◌, ◌∷◌, ◌++◌, ℕ, List, All, Contains, IfOk, length, map, take, true, false, []};
ghost use Rattle.std.specs.Bool.{OnTrue, OnFalse};
ghost use Rattle.shelf_records.specs.Slots.{AreFirstFree, AreHeld, IsFirstFree, IsWithin};

use extent_map::Extents;
use gno_codec::Block;
use gno_num::Memory;

/// The length of a slot.
pub(crate) const SLOT: u32 = 98_304;

/// The greatest place at which a slot of a disk can begin.
const LAST: u64 = (1 << 60) - 98_304;

/// A slot that isn't held yet, and whether it was taken: it isn't where no disk reaches its end.
#[derive(Clone, Copy)]
struct Next {
    at: u64,
    taken: bool,
}

/// Takes the first free slot, if a disk can reach its end.
fn take_slot(used: &mut Extents) -> Next
    requires { (slots : List ℕ) × AreHeld slots used.old }
    ensures first { (slots : List ℕ) → AreHeld slots used.old → IsFirstFree slots result.at }
    ensures taken { result.taken ≡ true → (slots : List ℕ) → AreHeld slots used.old → AreHeld (result.at ∷ slots) used.new }
    ensures full { result.taken ≡ false → (used.new ≡ used.old) × (2 ^ 60 < result.at + 98304) }
    ensures spare { used.old.spare ≤ used.new.spare }
{
    if is_full(used) {
        return Next {
            at: used.end(),
            taken: false,
        };
    }
    Next {
        at: used.take(SLOT),
        taken: true,
    }
}

/// Whether no slot is free, and no disk reaches the end of another one.
fn is_full(used: &Extents) -> bool
    ensures full { result ≡ true → (used.now.free ≡ []) × (2 ^ 60 < used.now.end + 98304) }
    ensures room { result ≡ false → used.now.free ≡ [] → used.now.end + 98304 ≤ 2 ^ 60 }
{
    if used.free().is_empty() {
        LAST < used.end()
    } else {
        false
    }
}

/// Takes as many slots as there are places, and tells their places; answers how many were taken: all, if
/// a disk can reach their ends.
pub(crate) fn take_slots(used: &mut Extents, places: &mut [u64]) -> usize
    requires { (slots : List ℕ) × AreHeld slots used.old }
    ensures held { (slots : List ℕ) → AreHeld slots used.old → AreHeld (take result places.new ++ slots) used.new }
    ensures first { (slots : List ℕ) → AreHeld slots used.old → AreFirstFree slots places.new }
    ensures within { result ≤ length places.new }
    ensures all { All IsWithin places.new → result ≡ length places.new }
    ensures spare { used.old.spare ≤ used.new.spare }
{
    for i in 0..places.len() {
        let next = take_slot(used);
        places[i] = next.at;
        if !next.taken {
            return i;
        }
    }
    places.len()
}

/// Gives a slot back, without memory.
pub(crate) fn give_slot(used: &mut Extents, at: u64)
    requires held { (slots : List ℕ) × AreHeld (at ∷ slots) used.old }
    requires sure { 1 ≤ used.old.spare }
    ensures held { (slots : List ℕ) → AreHeld (at ∷ slots) used.old → AreHeld slots used.new }
    ensures spare { used.old.spare ≤ used.new.spare + 1 }
{
    used.give(at, SLOT);
}

/// Gives slots back, without memory.
pub(crate) fn give_slots(used: &mut Extents, places: &[u64])
    requires held { (slots : List ℕ) × AreHeld (places.now ++ slots) used.old }
    requires sure { length places.now ≤ used.old.spare }
    ensures held { (slots : List ℕ) → AreHeld (places.now ++ slots) used.old → AreHeld slots used.new }
    ensures spare { used.old.spare ≤ used.new.spare + length places.now }
{
    for at in places {
        give_slot(used, *at);
    }
}

/// Gives the slots of blocks back, without memory.
pub(crate) fn give_blocks(used: &mut Extents, blocks: &[Block])
    requires held { (slots : List ℕ) × AreHeld (map (λ b. b.at) blocks.now ++ slots) used.old }
    requires sure { length blocks.now ≤ used.old.spare }
    ensures held { (slots : List ℕ) → AreHeld (map (λ b. b.at) blocks.now ++ slots) used.old → AreHeld slots used.new }
    ensures spare { used.old.spare ≤ used.new.spare + length blocks.now }
{
    for block in blocks {
        give_slot(used, block.at);
    }
}

/// Takes a slot where it stands, unless it is held.
pub(crate) fn claim_slot(used: &mut Extents, at: u64) -> Result<bool, Memory>
    requires aligned { at % 98304 ≡ 0 }
    requires within { at + 98304 ≤ 2 ^ 60 }
    ensures claimed { IfOk result (λ claimed. OnTrue claimed ((slots : List ℕ) → AreHeld slots used.old → AreHeld (at ∷ slots) used.new)) }
    ensures refused { IfOk result (λ claimed. OnFalse claimed ((slots : List ℕ) → AreHeld slots used.old → Contains slots at)) }
{
    let claimed = used.claim(at, SLOT)?;
    Ok(claimed)
}
