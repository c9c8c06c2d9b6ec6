// Slots of a disk of blocks.
ghost use Rattle.std.specs.Prelude.{◌≡◌, ◌≤◌, ◌+◌, ◌^◌, ◌∷◌, [], max, take, drop, length, vec_capacity, All, AllPairs, IfOk, IfErr, IfSome, OnOk, OnErr};
ghost use Rattle.gno_num.specs.Faults.{Rose};
ghost use Rattle.gno_disk.specs.Disk.{NoMore, Told};
ghost use Rattle.gno_disk.specs.Moments.{LeavesOnly};
ghost use Rattle.shelf_records.specs.Shelved.{slot};
ghost use Rattle.block_slots.specs.Slots.{AreBeside, FillsSlot, FitsSlot, FollowOn, IsSpared, Spares, Stands, padded, places_of, size_with};
ghost use Rattle.block_slots.specs.Reads.{IsReadOnly, MatchReadFault};

use gno_codec::Block;
use gno_disk::Disk;
use gno_num::{Failed, Memory};
use std::alloc::Global;

/// The length of a slot in bytes.
pub const SLOT: usize = 98_304;

/// What is to be written to the slot at a place.
#[derive(Debug, Drop)]
pub struct Piece {
    pub at: u64,
    pub bytes: Vec<u8>,
}

/// Writes each piece to its slot, in order, with zeros up to the slot's end: one write a piece. `buffer`
/// has room for a slot. What stands beside these slots stays, whatever fails.
pub fn write_pieces<D: Disk>(
    disk: &mut D,
    pieces: &[Piece],
    buffer: &mut Vec<u8>,
) -> Result<(), Failed>
    requires room { slot ≤ vec_capacity buffer.old }
    requires fit { All FitsSlot pieces.now }
    requires placed { FollowOn (D.size disk.old) pieces.now }
    requires apart { AllPairs AreBeside pieces.now }
    ensures stand { OnOk result (IfSome (D.told disk.new) (λ bytes. All (FillsSlot bytes) pieces.now)) }
    ensures size { OnOk result (D.size disk.new ≡ size_with (D.size disk.old) pieces.now) }
    ensures spared { Told (Spares (places_of pieces.now)) (D.told disk.old) (D.told disk.new) }
    ensures any_moment { LeavesOnly D.Disk disk.old disk.new (IsSpared D.Disk (places_of pieces.now) disk.old) }
    ensures cause { OnErr result (Rose (D.faults disk.old) (D.faults disk.new)) }
    ensures came { D.came (length pieces.now) disk.old disk.new }
{
    for i in 0..pieces.len() {
        write_piece(disk, &pieces[i], buffer)?;
    }
    Ok(())
}

/// Writes one piece to its slot.
fn write_piece<D: Disk>(disk: &mut D, piece: &Piece, buffer: &mut Vec<u8>) -> Result<(), Failed>
    requires room { slot ≤ vec_capacity buffer.old }
    requires fits { FitsSlot piece.now }
    requires placed { piece.now.at ≤ D.size disk.old }
    ensures stands { OnOk result (IfSome (D.told disk.new) (λ bytes. FillsSlot bytes piece.now)) }
    ensures size { OnOk result (D.size disk.new ≡ max (D.size disk.old) (piece.now.at + slot)) }
    ensures spared { Told (Spares (piece.now.at ∷ [])) (D.told disk.old) (D.told disk.new) }
    ensures any_moment { LeavesOnly D.Disk disk.old disk.new (IsSpared D.Disk (piece.now.at ∷ []) disk.old) }
    ensures room { slot ≤ vec_capacity buffer.new }
    ensures cause { OnErr result (Rose (D.faults disk.old) (D.faults disk.new)) }
    ensures came { D.came 1 disk.old disk.new }
{
    fill(buffer, &piece.bytes);
    disk.write_at(piece.at, buffer)
}

/// Fills the buffer with these bytes, and zeros up to the length of a slot.
fn fill(buffer: &mut Vec<u8>, bytes: &[u8])
    requires room { slot ≤ vec_capacity buffer.old }
    requires fits { length bytes.now ≤ slot }
    ensures items { buffer.new.items ≡ padded bytes.now }
    ensures room { slot ≤ vec_capacity buffer.new }
{
    buffer.clear();
    if buffer.extend_from_slice(bytes).is_err() {
        unreachable!();
    }
    if buffer.resize(SLOT, 0).is_err() {
        unreachable!();
    }
}

/// Why a block wasn't read.
#[derive(Clone, Copy, Debug, PartialEq, Eq)]
pub enum ReadFault {
    Failed,
    Memory,
}

/// The bytes of a block within the disk.
pub fn read_block<D: Disk>(alloc: Global, disk: &mut D, block: Block) -> Result<Vec<u8>, ReadFault>
    requires within { block.at + block.len ≤ D.size disk.old }
    ensures bytes { IfOk result (λ bytes. IfSome (D.told disk.old) (λ told. Stands told block bytes.items)) }
    ensures long { IfOk result (λ bytes. length bytes.items ≡ block.len) }
    ensures reads { IsReadOnly D.Disk disk.old disk.new }
    ensures cause { IfErr result (λ e. MatchReadFault e (Rose (D.faults disk.old) (D.faults disk.new)) (disk.new ≡ disk.old)) }
{
    let Ok(mut bytes) = zeros(alloc, block.len as usize) else {
        return Err(ReadFault::Memory);
    };
    match disk.read(block.at, &mut bytes) {
        Ok(()) => Ok(bytes),
        Err(Failed) => Err(ReadFault::Failed),
    }
}

/// So many zeros.
fn zeros(alloc: Global, count: usize) -> Result<Vec<u8>, Memory>
    ensures { IfOk result (λ bytes. length bytes.items ≡ count) }
{
    let mut bytes = Vec::with_capacity(alloc, count)?;
    bytes.resize(count, 0)?;
    Ok(bytes)
}
