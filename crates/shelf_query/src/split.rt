// Reading one split of a series.
ghost use Rattle.std.specs.Prelude.{◌≡◌, ◌++◌, List, IfErr, IsSome, OnOk, false};
ghost use Rattle.series_model.specs.Query.{rows_wanted};
ghost use Rattle.split_update.specs.Live.{Live};
ghost use Rattle.shelf_records.specs.Shelved.{metric_of};
ghost use Rattle.shelf_blocks.specs.Turns.{points_found};
ghost use Rattle.split_store.specs.ShelfView.{IsLastingShelf, IsOnlySeen, Keeps, stored_split};
ghost use Rattle.shelf_query.specs.Reading.{HasOddSplitOf, IsReadCause};

use crate::points::add_points;
use archive_policy::{Definition, Kind};
use gno_disk::Disk;
use gno_num::{Memory, Stamp};
use log_pair::MountFault;
use series_model::{Answer, MetricId, Query};
use split_store::Shelf;
use std::alloc::Global;

/// A series of a live metric: its kind, and its definition, which stands at this place of the policy.
#[derive(Clone, Copy)]
pub(crate) struct SeriesAt {
    pub metric: MetricId,
    pub kind: Kind,
    pub place: u8,
    pub definition: Definition,
}

/// Adds the rows that a query wants of the split with a key, if it is stored.
pub(crate) fn add_split<D: Disk>(
    alloc: Global,
    shelf: &mut Shelf<D>,
    series: &SeriesAt,
    key: Stamp,
    oldest: Stamp,
    query: &Query,
    rows: &mut Answer,
) -> Result<(), MountFault>
    requires whole { shelf.old.broken ≡ false }
    requires live { IsSome (metric_of series.now.metric shelf.old.metrics) }
    ensures rows { OnOk result ((lives : List Live) → Keeps D.Disk shelf.old lives
        → rows.new ≡ rows.old ++ rows_wanted query.now series.now.definition.granularity oldest
        (points_found (stored_split series.now.metric series.now.place series.now.kind key lives))) }
    ensures whole { OnOk result (shelf.new.broken ≡ false) }
    ensures seen { IsOnlySeen D.Disk shelf.old shelf.new }
    ensures left { IsLastingShelf D.Disk shelf.new }
    ensures cause { IfErr result (IsReadCause D.Disk (HasOddSplitOf shelf.old.metrics series.now.metric series.now.kind) shelf.old shelf.new) }
{
    let found = shelf.read_split(alloc, series.metric, series.place, series.kind, key);
    match found {
        Ok(Some(split)) => {
            let granularity = series.definition.granularity;
            match add_points(split.points(), granularity, oldest, query, rows) {
                Ok(()) => Ok(()),
                Err(Memory) => Err(MountFault::Memory),
            }
        }
        Ok(None) => Ok(()),
        Err(fault) => Err(fault),
    }
}
