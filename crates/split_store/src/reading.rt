// Reading the blocks of a shelf.
ghost use Rattle.std.specs.Prelude.{◌≡◌, ◌<◌, ⊤, true, false, [], All, IfOk, IfErr, IfSome, IsSome, MatchOption, Some, length, position};
ghost use Rattle.gno_num.specs.Faults.{Rose};
ghost use Rattle.log_pair.specs.PairView.{IsLastingPair};
ghost use Rattle.block_slots.specs.Reads.{IsReadOnly};
ghost use Rattle.shelf_blocks.specs.BlockFaults.{MatchBlockFault};
ghost use Rattle.shelf_blocks.specs.Blocks.{HoldsRaw};
ghost use Rattle.shelf_records.specs.Filed.{is_series_of, place_in, splits_of};
ghost use Rattle.shelf_records.specs.Shelved.{AreBlocks, Shelved, metric_of};
ghost use Rattle.split_store.specs.Damage.{HasOddChunk, HasOddSplit};
ghost use Rattle.split_store.specs.Loading.{IsFoundSplit, IsPlacedIn, IsSound};
ghost use Rattle.split_store.specs.ShelfView.{all_faults, keys_in};

use archive_policy::Kind;
use bound_series::Raw;
use gno_disk::Disk;
use gno_num::{Damaged, DiskFault, Stamp};
use log_pair::{LogPair, MountFault};
use series_model::{MetricId, Split};
use shelf_blocks::{BlockFault, read_series, read_split_in};
use shelf_records::{Book, Filed, Series};
use std::alloc::Global;

/// How often the disks of a pair and one of blocks have failed, at most 2^64 - 1.
pub(crate) fn faults_of<D: Disk>(pair: &LogPair<D>, blocks: &D) -> u64
    ensures count { result ≡ all_faults D.Disk pair.now.first pair.now.second blocks.now }
    ensures lasting { pair.now.broken ≡ false → IsLastingPair D.Disk pair.now }
{
    let _broken = pair.is_broken();
    pair.faults().saturating_add(blocks.faults())
}

/// Whether blocks are to be mounted again after a fault.
pub(crate) fn breaks(fault: &BlockFault) -> bool
    ensures { MatchBlockFault fault.now (result ≡ true) (λ at. result ≡ true) (result ≡ false) }
{
    match fault {
        BlockFault::Failed | BlockFault::Damaged { at: _ } => true,
        BlockFault::Memory => false,
    }
}

/// The number of the disk of blocks.
const BLOCKS: u16 = 2;

/// A fault of blocks, in a call that began and ended when the disks had failed so often.
pub(crate) fn fault_of(fault: BlockFault, before: u64, after: u64) -> MountFault
    ensures { MatchBlockFault fault
        (result ≡ MountFault.DiskFault (record { before = before; after = after }))
        (λ at. result ≡ MountFault.Damaged (record { disk = 2; at = at }))
        (result ≡ MountFault.Memory) }
{
    match fault {
        BlockFault::Failed => MountFault::DiskFault(DiskFault { before, after }),
        BlockFault::Damaged { at } => MountFault::Damaged(Damaged { disk: BLOCKS, at }),
        BlockFault::Memory => MountFault::Memory,
    }
}

/// The series of a definition and kind, if the policy has both.
fn series_for(filed: &Filed, definition: u8, kind: Kind) -> Option<&Series>
    ensures placed { place_in filed.now.policy definition kind ≡ position (is_series_of definition kind) filed.now.kept }
    ensures series { MatchOption result (splits_of definition kind filed.now.kept ≡ [])
        (λ series. (series.now ≡ splits_of definition kind filed.now.kept) × (definition < length filed.now.policy.definitions)) }
{
    let place = filed.place_of(definition, kind)?;
    Some(filed.series(place))
}

/// The keys of the stored splits of a definition and kind, by rising key; none where the policy hasn't these.
pub(crate) fn keys_of(filed: &Filed, definition: u8, kind: Kind) -> &[Stamp]
    ensures { result.now ≡ keys_in definition kind filed.now }
{
    match series_for(filed, definition, kind) {
        Some(series) => series.keys(),
        None => &[],
    }
}

/// The raw series of a live metric.
pub(crate) fn raw_in<D: Disk>(
    alloc: Global,
    blocks: &mut D,
    book: &Book,
    metric: MetricId,
) -> Result<Raw, BlockFault>
    requires live { IsSome (metric_of metric book.now.metrics) }
    requires blocks { AreBlocks (D.size blocks.old) book.now.metrics }
    requires sound { All IsSound book.now.metrics }
    ensures raw { IfOk result (λ raw. IfSome (D.told blocks.old) (λ z. (m : Shelved)
        → metric_of metric book.now.metrics ≡ Some m → HoldsRaw z m.chunks m.anchor m.last raw)) }
    ensures reads { IsReadOnly D.Disk blocks.old blocks.new }
    ensures cause { IfErr result (λ e. MatchBlockFault e (Rose (D.faults blocks.old) (D.faults blocks.new))
        (λ at. IfSome (D.told blocks.old) (λ z. HasOddChunk book.now.metrics metric z at)) ⊤) }
{
    let Some(filed) = book.get(metric) else {
        unreachable!();
    };
    read_series(alloc, blocks, filed.chunks(), filed.anchor(), filed.last())
}

/// The stored split of a live metric with this key, if it is stored.
pub(crate) fn split_in<D: Disk>(
    alloc: Global,
    blocks: &mut D,
    book: &Book,
    metric: MetricId,
    definition: u8,
    kind: Kind,
    key: Stamp,
) -> Result<Option<Split>, BlockFault>
    requires live { IsSome (metric_of metric book.now.metrics) }
    requires blocks { AreBlocks (D.size blocks.old) book.now.metrics }
    ensures split { IfOk result (λ split. IfSome (D.told blocks.old) (λ z. (m : Shelved)
        → metric_of metric book.now.metrics ≡ Some m → IsFoundSplit z definition kind key m split)) }
    ensures placed { (m : Shelved) → metric_of metric book.now.metrics ≡ Some m → IsPlacedIn definition kind m }
    ensures reads { IsReadOnly D.Disk blocks.old blocks.new }
    ensures cause { IfErr result (λ e. MatchBlockFault e (Rose (D.faults blocks.old) (D.faults blocks.new))
        (λ at. IfSome (D.told blocks.old) (λ z. HasOddSplit book.now.metrics metric definition kind key z at)) ⊤) }
{
    let Some(filed) = book.get(metric) else {
        unreachable!();
    };
    // it is filed, with a series for each definition and kind
    let _id = filed.id();
    let Some(series) = series_for(filed, definition, kind) else {
        return Ok(None);
    };
    let Some(block) = series.block_of(key) else {
        return Ok(None);
    };
    let granularity = filed.policy().definitions()[usize::from(definition)].granularity;
    match read_split_in(alloc, blocks, block, key, granularity) {
        Ok(split) => Ok(Some(split)),
        Err(fault) => Err(fault),
    }
}
