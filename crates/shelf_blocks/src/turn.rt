// What a turn leaves of one series of splits.
ghost use Rattle.std.specs.Prelude.{◌≡◌, ◌≤◌, ◌<◌, ◌+◌, ◌++◌, ◌*◌, ◌%◌, ⊤, ℕ, List, [], All, IfOk, IfErr, IfSome, OnOk, take, drop, length, map};
ghost use Rattle.std.specs.List.{AllZip};
ghost use Rattle.std.specs.List.Sorted.{IsStrictlyIncreasing};
ghost use Rattle.gno_num.specs.Faults.{Rose};
ghost use Rattle.gno_num.specs.Floor.{split_key_of};
ghost use Rattle.archive_policy.specs.Policies.{IsDefinition, IsGranularity};
ghost use Rattle.series_model.specs.declared.point.Split.{Split};
ghost use Rattle.series_model.specs.Stored.{split_span};
ghost use Rattle.bound_series.specs.Jobs.{AreNew};
ghost use Rattle.split_update.specs.Update.{AreSplits, IsInStretch, oldest_by, points_touched, splits_after};
ghost use Rattle.block_slots.specs.Reads.{IsReadOnly};
ghost use Rattle.shelf_blocks.specs.BlockFaults.{MatchBlockFault};
ghost use Rattle.shelf_blocks.specs.Blocks.{HoldsSplit};
ghost use Rattle.shelf_blocks.specs.Turns.{AreMade, AreWithin, HasKeys, IsDamagedSplit, IsDamagedSplitOf, IsMadeAt, points_found};

use crate::fault::BlockFault;
use crate::splits::read_split_in;
use archive_policy::Definition;
use bound_series::Prepared;
use gno_disk::Disk;
use gno_num::{Memory, Span, Stamp, split_key};
use retention_cut::oldest_key;
use series_model::{Point, Split};
use shelf_records::{Filed, Series};
use split_update::{Kept, kept_places, made_splits};
use std::alloc::Global;

/// What a turn leaves of a series: which of the old splits stay, and the new ones behind them.
#[derive(Debug, Drop)]
pub struct Made {
    pub kept: Kept,
    pub splits: Vec<Split>,
}

/// What a turn leaves of a series, by its greatest and its least accepted timestamp and its new points. It
/// reads the split that holds the least timestamp, and no other.
pub fn made_of<D: Disk>(
    alloc: Global,
    disk: &mut D,
    series: &Series,
    definition: &Definition,
    last: Option<Stamp>,
    from: Option<Stamp>,
    points: &[Point],
) -> Result<Made, BlockFault>
    requires definition { IsDefinition definition.now }
    requires new { AreNew definition.now.granularity from points.now }
    requires keys { All (λ s. s.key % split_span definition.now.granularity ≡ 0) series.now }
    requires within { All (λ s. s.block.at + s.block.len ≤ D.size disk.old) series.now }
    ensures within { IfOk result (λ made. (made.kept.first ≤ made.kept.until) × (made.kept.until ≤ length series.now)) }
    ensures formed { IfOk result (λ made. AreSplits definition.now.granularity made.splits.items) }
    ensures rising { IfOk result (λ made. IsStrictlyIncreasing
        (map (λ s. s.key) (drop made.kept.first (take made.kept.until series.now)) ++ map (λ s. s.key) made.splits.items)) }
    ensures after { IfOk result (λ made. IfSome (D.told disk.old) (λ z. (old : List Split)
        → AllZip (HoldsSplit z definition.now.granularity) series.now old
        → drop made.kept.first (take made.kept.until old) ++ made.splits.items
        ≡ splits_after definition.now.granularity (oldest_by definition.now last) from points.now old)) }
    ensures reads { IsReadOnly D.Disk disk.old disk.new }
    ensures cause { IfErr result (λ e. MatchBlockFault e (Rose (D.faults disk.old) (D.faults disk.new))
        (λ at. IfSome (D.told disk.old) (λ z. IsDamagedSplit z definition.now.granularity series.now at)) ⊤) }
{
    let granularity = definition.granularity;
    let oldest = oldest_of(last, definition);
    let kept = kept_places(series.keys(), granularity, same(&oldest), same(&from));
    let touched = touched_split(alloc, disk, series, granularity, &from)?;
    match made_splits(
        alloc,
        granularity,
        oldest,
        from,
        points,
        points_in(&touched),
    ) {
        Ok(splits) => Ok(Made { kept, splits }),
        Err(Memory) => Err(BlockFault::Memory),
    }
}

/// The same time, if there is one.
fn same(at: &Option<Stamp>) -> Option<Stamp>
    ensures { result ≡ at.now }
{
    *at
}

/// The oldest key, where a measure was accepted.
fn oldest_of(last: Option<Stamp>, definition: &Definition) -> Option<Stamp>
    requires { IsDefinition definition.now }
    ensures value { result ≡ oldest_by definition.now last }
    ensures multiple { IfSome result (λ key. key % split_span definition.now.granularity ≡ 0) }
{
    match last {
        None => None,
        Some(at) => Some(oldest_key(at, definition)),
    }
}

/// The split that holds the least timestamp that a turn accepted, if it accepted one and the split is stored.
fn touched_split<D: Disk>(
    alloc: Global,
    disk: &mut D,
    series: &Series,
    granularity: Span,
    from: &Option<Stamp>,
) -> Result<Option<Split>, BlockFault>
    requires granularity { IsGranularity granularity }
    requires rising { IsStrictlyIncreasing (map (λ s. s.key) series.now) }
    requires keys { All (λ s. s.key % split_span granularity ≡ 0) series.now }
    requires within { All (λ s. s.block.at + s.block.len ≤ D.size disk.old) series.now }
    ensures rising { IfOk result (λ touched. IsStrictlyIncreasing (map (λ p. p.at) (points_found touched))) }
    ensures placed { IfOk result (λ touched. IfSome from.now (λ at. All (IsInStretch granularity (split_key_of at granularity)) (points_found touched))) }
    ensures touched { IfOk result (λ touched. IfSome (D.told disk.old) (λ z. (old : List Split)
        → AllZip (HoldsSplit z granularity) series.now old → points_touched granularity from.now old ≡ points_found touched)) }
    ensures reads { IsReadOnly D.Disk disk.old disk.new }
    ensures cause { IfErr result (λ e. MatchBlockFault e (Rose (D.faults disk.old) (D.faults disk.new))
        (λ at. IfSome (D.told disk.old) (λ z. IsDamagedSplit z granularity series.now at)) ⊤) }
{
    let Some(from) = from else {
        return Ok(None);
    };
    let key = split_key(*from, granularity);
    let Some(block) = series.block_of(key) else {
        return Ok(None);
    };
    match read_split_in(alloc, disk, block, key, granularity) {
        Ok(split) => Ok(Some(split)),
        Err(fault) => Err(fault),
    }
}

/// The points of a split that was found, none where none was.
fn points_in(touched: &Option<Split>) -> &[Point]
    ensures { result.now ≡ points_found touched.now }
{
    match touched {
        Some(split) => split.points(),
        None => &[],
    }
}

/// What a turn leaves of each series of a metric, by the prepared work of a job: for each definition of the
/// policy and, within it, each kind.
pub fn make_all<D: Disk>(
    alloc: Global,
    disk: &mut D,
    filed: &Filed,
    prepared: &Prepared,
) -> Result<Vec<Made>, BlockFault>
    requires policy { prepared.now.job.policy ≡ filed.now.policy }
    requires keys { All (HasKeys filed.now.policy) filed.now.kept }
    requires within { All (AreWithin (D.size disk.old)) filed.now.kept }
    ensures count { IfOk result (λ all. length all.items ≡ length filed.now.policy.definitions * length filed.now.policy.kinds) }
    ensures made { IfOk result (λ all. AreMade (D.told disk.old) filed.now prepared.now all.items) }
    ensures reads { IsReadOnly D.Disk disk.old disk.new }
    ensures cause { IfErr result (λ e. MatchBlockFault e (Rose (D.faults disk.old) (D.faults disk.new))
        (λ at. IfSome (D.told disk.old) (λ z. IsDamagedSplitOf z filed.now at)) ⊤) }
{
    let definitions = filed.policy().definitions().len();
    let kinds = filed.policy().kinds().len();
    let Ok(mut all) = Vec::with_capacity(alloc, definitions.saturating_mul(kinds)) else {
        return Err(BlockFault::Memory);
    };
    for definition in 0..definitions {
        match make_kinds(alloc, disk, filed, prepared, definition, &mut all) {
            Ok(()) => {}
            Err(fault) => return Err(fault),
        }
    }
    Ok(all)
}

/// What a turn leaves of the series of a definition, behind those of the definitions before it.
fn make_kinds<D: Disk>(
    alloc: Global,
    disk: &mut D,
    filed: &Filed,
    prepared: &Prepared,
    definition: usize,
    all: &mut Vec<Made>,
) -> Result<(), BlockFault>
    requires policy { prepared.now.job.policy ≡ filed.now.policy }
    requires keys { All (HasKeys filed.now.policy) filed.now.kept }
    requires within { All (AreWithin (D.size disk.old)) filed.now.kept }
    requires definition { definition < length filed.now.policy.definitions }
    requires count { length all.old.items ≡ definition * length filed.now.policy.kinds }
    requires made { AreMade (D.told disk.old) filed.now prepared.now all.old.items }
    ensures count { OnOk result (length all.new.items ≡ (definition + 1) * length filed.now.policy.kinds) }
    ensures made { OnOk result (AreMade (D.told disk.old) filed.now prepared.now all.new.items) }
    ensures reads { IsReadOnly D.Disk disk.old disk.new }
    ensures cause { IfErr result (λ e. MatchBlockFault e (Rose (D.faults disk.old) (D.faults disk.new))
        (λ at. IfSome (D.told disk.old) (λ z. IsDamagedSplitOf z filed.now at)) ⊤) }
{
    let kinds = filed.policy().kinds().len();
    for kind in 0..kinds {
        let made = match make_one(alloc, disk, filed, prepared, definition, kind, all.len()) {
            Ok(made) => made,
            Err(fault) => return Err(fault),
        };
        if all.push(made).is_err() {
            return Err(BlockFault::Memory);
        }
    }
    Ok(())
}

/// What a turn leaves of the series of the definition and the kind at these places in the policy, which is
/// at that place among all of them.
fn make_one<D: Disk>(
    alloc: Global,
    disk: &mut D,
    filed: &Filed,
    prepared: &Prepared,
    definition: usize,
    kind: usize,
    place: usize,
) -> Result<Made, BlockFault>
    requires policy { prepared.now.job.policy ≡ filed.now.policy }
    requires keys { All (HasKeys filed.now.policy) filed.now.kept }
    requires within { All (AreWithin (D.size disk.old)) filed.now.kept }
    requires definition { definition < length filed.now.policy.definitions }
    requires kind { kind < length filed.now.policy.kinds }
    requires place { place ≡ definition * length filed.now.policy.kinds + kind }
    ensures made { IfOk result (IsMadeAt (D.told disk.old) filed.now prepared.now place) }
    ensures reads { IsReadOnly D.Disk disk.old disk.new }
    ensures cause { IfErr result (λ e. MatchBlockFault e (Rose (D.faults disk.old) (D.faults disk.new))
        (λ at. IfSome (D.told disk.old) (λ z. IsDamagedSplitOf z filed.now at)) ⊤) }
{
    let _id = filed.id();
    let policy = filed.policy();
    let kinds = policy.kinds();
    let series = filed.series(place);
    let points = prepared.points(definition as u8, kinds[kind]);
    let last = prepared.raw().last();
    made_of(
        alloc,
        disk,
        series,
        &policy.definitions()[definition],
        last,
        prepared.from(),
        points,
    )
}
