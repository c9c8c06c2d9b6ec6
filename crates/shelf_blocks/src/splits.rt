// Splits and chunks in blocks.
ghost use Rattle.std.specs.Prelude.{◌≡◌, ◌≤◌, ◌<◌, ◌+◌, ⊤, ℕ, length, IfOk, IfErr, IfSome, OnOk};
ghost use Rattle.gno_num.specs.Faults.{Rose};
ghost use Rattle.series_model.specs.declared.point.Split.{Split};
ghost use Rattle.gno_codec.specs.Blocks.{IsChunk, IsRising, IsSplit, raw_bytes, split_bytes};
ghost use Rattle.split_update.specs.Update.{IsWellFormed};
ghost use Rattle.block_slots.specs.Reads.{IsReadOnly};
ghost use Rattle.block_slots.specs.Slots.{FitsSlot};
ghost use Rattle.shelf_blocks.specs.BlockFaults.{MatchBlockFault};
ghost use Rattle.shelf_blocks.specs.Blocks.{HoldsSplit};

use crate::fault::BlockFault;
use block_slots::{Piece, ReadFault, read_block};
use gno_codec::{Block, read_split, write_raw, write_split};
use gno_disk::Disk;
use gno_num::{Memory, Span, Stamp};
use series_model::{Measure, Split};
use std::alloc::Global;

/// The split with this key in a block, whose points begin buckets of this granularity.
pub fn read_split_in<D: Disk>(
    alloc: Global,
    disk: &mut D,
    block: Block,
    key: Stamp,
    granularity: Span,
) -> Result<Split, BlockFault>
    requires within { block.at + block.len ≤ D.size disk.old }
    ensures split { IfOk result (λ split. IfSome (D.told disk.old)
        (λ z. HoldsSplit z granularity (record { key = key; block = block }) split)) }
    ensures is { IfOk result (λ split. IsSplit granularity split × (split.key ≡ key)) }
    ensures exact { IfOk result (λ found. IfSome (D.told disk.old) (λ z. (split : Split)
        → HoldsSplit z granularity (record { key = key; block = block }) split → found ≡ split)) }
    ensures reads { IsReadOnly D.Disk disk.old disk.new }
    ensures cause { IfErr result (λ e. MatchBlockFault e (Rose (D.faults disk.old) (D.faults disk.new))
        (λ at. (at ≡ block.at) × IfSome (D.told disk.old)
        (λ z. (split : Split) → HoldsSplit z granularity (record { key = key; block = block }) split → ⊥)) ⊤) }
{
    let bytes = match read_block(alloc, disk, block) {
        Ok(bytes) => bytes,
        Err(ReadFault::Failed) => return Err(BlockFault::Failed),
        Err(ReadFault::Memory) => return Err(BlockFault::Memory),
    };
    match read_split(alloc, &bytes, key, granularity) {
        Ok(split) => Ok(split),
        Err(gno_codec::ReadFault::Bad { at: _ }) => Err(BlockFault::Damaged { at: block.at }),
        Err(gno_codec::ReadFault::Memory) => Err(BlockFault::Memory),
    }
}

/// What is to be written for a split at a place.
pub fn split_piece(
    alloc: Global,
    split: &Split,
    granularity: Span,
    at: u64,
) -> Result<Piece, Memory>
    requires granularity { 0 < granularity }
    requires formed { IsWellFormed granularity split.now }
    ensures at { IfOk result (λ piece. piece.at ≡ at) }
    ensures bytes { IfOk result (λ piece. piece.bytes.items ≡ split_bytes granularity split.now) }
    ensures is { OnOk result (IsSplit granularity split.now) }
    ensures fits { IfOk result FitsSlot }
    ensures some { IfOk result (λ piece. 0 < length piece.bytes.items) }
{
    let bytes = write_split(alloc, split, granularity)?;
    Ok(Piece { at, bytes })
}

/// What is to be written for a chunk at a place.
pub fn chunk_piece(alloc: Global, chunk: &[Measure], at: u64) -> Result<Piece, Memory>
    requires { IsRising chunk.now }
    ensures at { IfOk result (λ piece. piece.at ≡ at) }
    ensures bytes { IfOk result (λ piece. piece.bytes.items ≡ raw_bytes chunk.now) }
    ensures is { OnOk result (IsChunk chunk.now) }
    ensures fits { IfOk result FitsSlot }
    ensures some { IfOk result (λ piece. 0 < length piece.bytes.items) }
{
    let bytes = write_raw(alloc, chunk)?;
    Ok(Piece { at, bytes })
}
