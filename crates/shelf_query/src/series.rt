// Reading the splits of a series that a query may want.
ghost use Rattle.std.specs.Prelude.{◌≡◌, ◌++◌, List, IfErr, IsSome, OnOk, false};
ghost use Rattle.archive_policy.specs.Policies.{IsDefinition};
ghost use Rattle.series_model.specs.declared.point.Point.{Point};
ghost use Rattle.series_model.specs.Answer.{oldest_point_of};
ghost use Rattle.series_model.specs.Query.{rows_wanted};
ghost use Rattle.shelf_records.specs.Shelved.{metric_of};
ghost use Rattle.split_store.specs.ShelfView.{IsLastingShelf, IsOnlySeen};
ghost use Rattle.shelf_query.specs.Reading.{HasOddSplitOf, IsReadCause, KeepsPoints, rows_asked};

use crate::points::{end_wanted, first_wanted, is_named, stretch_count};
use crate::split::{SeriesAt, add_split};
use gno_disk::Disk;
use gno_num::{GROUPS_PER_SPLIT, Stamp};
use log_pair::MountFault;
use retention_cut::oldest_point;
use series_model::{Answer, Query};
use split_store::Shelf;
use std::alloc::Global;

/// Adds the rows that a query wants of a series, by time. It reads the splits whose stretch may hold a point that is
/// wanted, and holds one at a time.
fn add_series<D: Disk>(
    alloc: Global,
    shelf: &mut Shelf<D>,
    series: &SeriesAt,
    last: Stamp,
    query: &Query,
    rows: &mut Answer,
) -> Result<(), MountFault>
    requires whole { shelf.old.broken ≡ false }
    requires live { IsSome (metric_of series.now.metric shelf.old.metrics) }
    requires definition { IsDefinition series.now.definition }
    requires left { IsLastingShelf D.Disk shelf.old }
    ensures rows { OnOk result ((points : List Point) → KeepsPoints D.Disk shelf.old series.now last points
        → rows.new ≡ rows.old ++ rows_wanted query.now series.now.definition.granularity (oldest_point_of last series.now.definition) points) }
    ensures whole { OnOk result (shelf.new.broken ≡ false) }
    ensures seen { IsOnlySeen D.Disk shelf.old shelf.new }
    ensures left { IsLastingShelf D.Disk shelf.new }
    ensures cause { IfErr result (IsReadCause D.Disk (HasOddSplitOf shelf.old.metrics series.now.metric series.now.kind) shelf.old shelf.new) }
{
    let granularity = series.definition.granularity;
    let oldest = oldest_point(last, &series.definition);
    let length = GROUPS_PER_SPLIT * granularity.nanos();
    let begin = first_wanted(granularity, oldest, query) / length * length;
    let count = stretch_count(begin, end_wanted(last, query), length);
    for i in 0..count {
        let key = Stamp::of_nanos(begin + i * length).unwrap();
        match add_split(alloc, shelf, series, key, oldest, query, rows) {
            Ok(()) => {}
            Err(fault) => return Err(fault),
        }
    }
    Ok(())
}

/// Adds the rows that a query wants of a series; none where its granularity isn't asked for.
pub(crate) fn add_asked<D: Disk>(
    alloc: Global,
    shelf: &mut Shelf<D>,
    series: &SeriesAt,
    last: Stamp,
    query: &Query,
    rows: &mut Answer,
) -> Result<(), MountFault>
    requires whole { shelf.old.broken ≡ false }
    requires live { IsSome (metric_of series.now.metric shelf.old.metrics) }
    requires definition { IsDefinition series.now.definition }
    requires left { IsLastingShelf D.Disk shelf.old }
    ensures rows { OnOk result ((points : List Point) → KeepsPoints D.Disk shelf.old series.now last points
        → rows.new ≡ rows.old ++ rows_asked query.now series.now.definition last points) }
    ensures whole { OnOk result (shelf.new.broken ≡ false) }
    ensures seen { IsOnlySeen D.Disk shelf.old shelf.new }
    ensures left { IsLastingShelf D.Disk shelf.new }
    ensures cause { IfErr result (IsReadCause D.Disk (HasOddSplitOf shelf.old.metrics series.now.metric series.now.kind) shelf.old shelf.new) }
{
    if is_named(query, series.definition.granularity) {
        add_series(alloc, shelf, series, last, query, rows)
    } else {
        Ok(())
    }
}
