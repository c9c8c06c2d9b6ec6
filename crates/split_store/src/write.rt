// Writing a turn: its blocks first, then its record.
ghost use Rattle.std.specs.Prelude.{◌≡◌, ◌+◌, ◌≤◌, ◌^◌, false, All, AllPairs, IfSome, OnOk, OnErr, length, take, vec_capacity};
ghost use Rattle.gno_num.specs.Faults.{Rose};
ghost use Rattle.gno_disk.specs.Disk.{Only, Told};
ghost use Rattle.gno_disk.specs.Moments.{LeavesOnly};
ghost use Rattle.shelf_records.specs.Shelved.{slot};
ghost use Rattle.shelf_records.specs.Slots.{IsWithin};
ghost use Rattle.block_slots.specs.Slots.{AreBeside, FillsSlot, FitsSlot, FollowOn, IsSpared, Spares, places_of, size_with};
ghost use Rattle.gate_log.specs.LogView.{Adds};
ghost use Rattle.log_pair.specs.PairView.{IsLastingPair};
ghost use Rattle.split_store.specs.ShelfView.{all_faults};
ghost use Rattle.split_store.specs.Writing.{IsWritten, reaches_end, tried_of};

use crate::registering::write_record;
use crate::turn::Turn;
use block_slots::{Piece, SLOT, write_pieces};
use gno_disk::Disk;
use gno_num::Failed;
use log_pair::LogPair;

/// The greatest place of a disk.
const LIMIT: u64 = 1 << 60;

/// Writes what a commit is ready to write: its pieces first, then, once the blocks are synced, its record. What
/// stands beside the slots stays.
pub(crate) fn write_turn<D: Disk>(
    blocks: &mut D,
    pair: &mut LogPair<D>,
    turn: &mut Turn,
) -> Result<(), Failed>
    requires whole { pair.old.broken ≡ false }
    requires room { slot ≤ vec_capacity turn.old.buffer }
    requires fit { All FitsSlot turn.old.pieces.items }
    requires placed { FollowOn (D.size blocks.old) (tried_of turn.old.pieces.items) }
    requires apart { AllPairs AreBeside (tried_of turn.old.pieces.items) }
    requires sure { (length turn.old.body.items ≤ pair.old.spare) × (1 ≤ pair.old.spare) }
    ensures turn { (turn.new.item ≡ turn.old.item) × (turn.new.series ≡ turn.old.series) }
    ensures stand { OnOk result (IfSome (D.told blocks.new) (λ bytes. All (FillsSlot bytes) turn.old.pieces.items)) }
    ensures durable { OnOk result (IfSome (D.told blocks.new) (λ bytes. Only bytes (D.may_leave blocks.new))) }
    ensures size { OnOk result (D.size blocks.new ≡ size_with (D.size blocks.old) turn.old.pieces.items) }
    ensures within { OnOk result (All (λ p. IsWithin p.at) turn.old.pieces.items × (D.size blocks.new ≤ 2 ^ 60)) }
    ensures spared { Told (Spares (places_of (tried_of turn.old.pieces.items))) (D.told blocks.old) (D.told blocks.new) }
    ensures added { OnOk result (Adds pair.old.records pair.new.records turn.old.body.items) }
    ensures whole { OnOk result (pair.new.broken ≡ false) }
    ensures kept { OnErr result (pair.new.records ≡ pair.old.records) }
    ensures same { (pair.new.place ≡ pair.old.place) × (pair.new.epoch ≡ pair.old.epoch) }
    ensures cause { OnErr result (Rose (all_faults D.Disk pair.old.first pair.old.second blocks.old) (all_faults D.Disk pair.new.first pair.new.second blocks.new)) }
    ensures came { D.came 4 pair.old.first pair.new.first × D.came 4 pair.old.second pair.new.second × D.came (length turn.old.pieces.items + 1) blocks.old blocks.new }
    ensures lasting { OnOk result (IsLastingPair D.Disk pair.new) }
    ensures moments { IsWritten D.Disk turn.old.pieces.items turn.old.body.items blocks.old blocks.new pair.old pair.new }
{
    // what a stop leaves of a log that isn't touched
    let _broken = pair.is_broken();
    write_blocks(blocks, &turn.pieces, &mut turn.buffer)?;
    write_record(pair, &turn.body)
}

/// Writes the pieces to their slots, and syncs the disk. Where no disk reaches the end of a slot, the first such is
/// the last one that is tried, and fails.
pub(crate) fn write_blocks<D: Disk>(
    disk: &mut D,
    pieces: &[Piece],
    buffer: &mut Vec<u8>,
) -> Result<(), Failed>
    requires room { slot ≤ vec_capacity buffer.old }
    requires fit { All FitsSlot pieces.now }
    requires placed { FollowOn (D.size disk.old) (tried_of pieces.now) }
    requires apart { AllPairs AreBeside (tried_of pieces.now) }
    ensures stand { OnOk result (IfSome (D.told disk.new) (λ bytes. All (FillsSlot bytes) pieces.now)) }
    ensures durable { OnOk result (IfSome (D.told disk.new) (λ bytes. Only bytes (D.may_leave disk.new))) }
    ensures size { OnOk result (D.size disk.new ≡ size_with (D.size disk.old) pieces.now) }
    ensures within { OnOk result (All (λ p. IsWithin p.at) pieces.now × (D.size disk.new ≤ 2 ^ 60)) }
    ensures spared { Told (Spares (places_of (tried_of pieces.now))) (D.told disk.old) (D.told disk.new) }
    ensures any_moment { LeavesOnly D.Disk disk.old disk.new (IsSpared D.Disk (places_of (tried_of pieces.now)) disk.old) }
    ensures cause { OnErr result (Rose (D.faults disk.old) (D.faults disk.new)) }
    ensures came { D.came (length pieces.now + 1) disk.old disk.new }
{
    let count = tried(pieces);
    write_pieces(disk, &pieces[..count], buffer)?;
    disk.sync()?;
    let _size = disk.len();
    Ok(())
}

/// How many pieces are tried: all, or those up to the first whose slot no disk reaches.
fn tried(pieces: &[Piece]) -> usize
    ensures within { result ≤ length pieces.now }
    ensures tried { take result pieces.now ≡ tried_of pieces.now }
{
    for i in 0..pieces.len() {
        if !is_within(&pieces[i]) {
            return i + 1;
        }
    }
    pieces.len()
}

/// Whether a disk can reach the end of a piece's slot.
fn is_within(piece: &Piece) -> bool
    ensures { result ≡ reaches_end piece.now }
{
    match piece.at.checked_add(SLOT as u64) {
        Some(end) => end <= LIMIT,
        None => false,
    }
}
