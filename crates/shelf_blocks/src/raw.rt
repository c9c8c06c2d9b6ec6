// Reading the raw series of a metric.
ghost use Rattle.std.specs.Prelude.{◌≡◌, ◌≢◌, ◌↔◌, ◌≤◌, ◌<◌, ◌+◌, ◌++◌, ◌⊎◌, ⊤, true, false, ℕ, List, [], All, IsSome, IfOk, IfErr, IfSome, OnOk, take, length, map, option_to_list};
ghost use Rattle.std.specs.Bool.{IsTrue};
ghost use Rattle.std.specs.List.Sorted.{IsStrictlyIncreasing};
ghost use Rattle.gno_num.specs.Faults.{Rose};
ghost use Rattle.series_model.specs.declared.measure.Measure.{Measure};
ghost use Rattle.series_model.specs.Tail.{last_onto, last_time};
ghost use Rattle.gno_codec.specs.Blocks.{IsChunk};
ghost use Rattle.block_slots.specs.Reads.{IsReadOnly};
ghost use Rattle.shelf_blocks.specs.BlockFaults.{MatchBlockFault};
ghost use Rattle.shelf_blocks.specs.Blocks.{HoldsChunk, HoldsRaw};
ghost use Rattle.shelf_blocks.specs.Chunks.{AreRead, behind};
ghost use Rattle.shelf_blocks.specs.Damage.{IsDamagedRaw};

use crate::fault::BlockFault;
use block_slots::{ReadFault, read_block};
use bound_series::Raw;
use gno_codec::{Block, read_raw};
use gno_disk::Disk;
use gno_num::Stamp;
use series_model::Measure;
use std::alloc::Global;

/// How many measures a full chunk has.
const FULL: usize = 3_600;

/// The raw series whose chunks stand in these blocks, with this anchor and this last timestamp.
pub fn read_series<D: Disk>(
    alloc: Global,
    disk: &mut D,
    blocks: &[Block],
    anchor: Option<Measure>,
    last: Option<Stamp>,
) -> Result<Raw, BlockFault>
    requires within { All (λ b. b.at + b.len ≤ D.size disk.old) blocks.now }
    requires some { IsSome last ↔ (blocks.now ≢ []) }
    ensures raw { IfOk result (λ raw. IfSome (D.told disk.old) (λ z. HoldsRaw z blocks.now anchor last raw)) }
    ensures reads { IsReadOnly D.Disk disk.old disk.new }
    ensures cause { IfErr result (λ e. MatchBlockFault e (Rose (D.faults disk.old) (D.faults disk.new))
        (λ at. IfSome (D.told disk.old) (λ z. IsDamagedRaw z blocks.now anchor last at)) ⊤) }
{
    let Ok(mut points) = Vec::with_capacity(alloc, blocks.len().saturating_mul(FULL)) else {
        return Err(BlockFault::Memory);
    };
    for i in 0..blocks.len() {
        let chunk = match read_chunk(alloc, disk, blocks[i]) {
            Ok(chunk) => chunk,
            Err(fault) => return Err(fault),
        };
        let before = last_of(&anchor, &points);
        if !is_next(&before, &chunk, i + 1 == blocks.len(), &last) {
            return Err(BlockFault::Damaged { at: blocks[i].at });
        }
        if points.extend_from_slice(&chunk).is_err() {
            return Err(BlockFault::Memory);
        }
    }
    match Raw::of(anchor, points, last) {
        Some(raw) => Ok(raw),
        None => unreachable!(),
    }
}

/// The chunk in a block.
fn read_chunk<D: Disk>(
    alloc: Global,
    disk: &mut D,
    block: Block,
) -> Result<Vec<Measure>, BlockFault>
    requires within { block.at + block.len ≤ D.size disk.old }
    ensures chunk { IfOk result (λ chunk. IfSome (D.told disk.old) (λ z. HoldsChunk z block chunk.items)) }
    ensures is { IfOk result (λ chunk. IsChunk chunk.items) }
    ensures reads { IsReadOnly D.Disk disk.old disk.new }
    ensures cause { IfErr result (λ e. MatchBlockFault e (Rose (D.faults disk.old) (D.faults disk.new))
        (λ at. (at ≡ block.at) × IfSome (D.told disk.old) (λ z. (chunk : List Measure) → HoldsChunk z block chunk → ⊥)) ⊤) }
{
    let bytes = match read_block(alloc, disk, block) {
        Ok(bytes) => bytes,
        Err(ReadFault::Failed) => return Err(BlockFault::Failed),
        Err(ReadFault::Memory) => return Err(BlockFault::Memory),
    };
    match read_raw(alloc, &bytes) {
        Ok(chunk) => Ok(chunk),
        Err(gno_codec::ReadFault::Bad { at: _ }) => Err(BlockFault::Damaged { at: block.at }),
        Err(gno_codec::ReadFault::Memory) => Err(BlockFault::Memory),
    }
}

/// The last of the points, the anchor where there is none.
fn last_of(anchor: &Option<Measure>, points: &[Measure]) -> Option<Measure>
    ensures { result ≡ last_onto anchor.now points.now }
{
    match points {
        [] => *anchor,
        [.., last] => Some(*last),
    }
}

/// Whether a chunk may stand behind a measure, as the last one or before others.
fn is_next(before: &Option<Measure>, chunk: &[Measure], is_last: bool, last: &Option<Stamp>) -> bool
    requires { IsChunk chunk.now }
    ensures rising { result ≡ true → IsStrictlyIncreasing (behind before.now chunk.now) }
    ensures full { result ≡ true → is_last ≡ false → length chunk.now ≡ 3600 }
    ensures end { result ≡ true → is_last ≡ true → last.now ≡ last_time chunk.now }
    ensures not { result ≡ false → (IsStrictlyIncreasing (behind before.now chunk.now) → ⊥)
        ⊎ (((is_last ≡ false) × (length chunk.now ≢ 3600)) ⊎ ((is_last ≡ true) × (last.now ≢ last_time chunk.now))) }
{
    if !is_behind(before, chunk) {
        return false;
    }
    if is_last {
        ends_at(chunk, last)
    } else {
        chunk.len() == FULL
    }
}

/// Whether the times of a chunk are behind a measure.
fn is_behind(before: &Option<Measure>, chunk: &[Measure]) -> bool
    requires { IsChunk chunk.now }
    ensures { IsTrue result ↔ IsStrictlyIncreasing (behind before.now chunk.now) }
{
    match (before, chunk) {
        (Some(before), [first, ..]) => before.at.nanos() < first.at.nanos(),
        _ => true,
    }
}

/// Whether a chunk's last time is this one.
fn ends_at(chunk: &[Measure], last: &Option<Stamp>) -> bool
    ensures { IsTrue result ↔ (last.now ≡ last_time chunk.now) }
{
    match (last_of(&None, chunk), last) {
        (Some(end), Some(last)) => end.at.nanos() == last.nanos(),
        (None, None) => true,
        _ => false,
    }
}
