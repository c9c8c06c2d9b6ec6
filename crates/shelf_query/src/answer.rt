// The answer of a query by a shelf.
ghost use Rattle.std.specs.Prelude.{◌≡◌, ◌++◌, List, IfErr, IfOk, IsSome, OnOk, Some, false};
ghost use Rattle.gate_log.specs.LogView.{MatchMountFault};
ghost use Rattle.archive_policy.specs.Policies.{ArchivePolicy};
ghost use Rattle.series_model.specs.declared.measure.Measure.{Measure};
ghost use Rattle.series_model.specs.Query.{answer_under};
ghost use Rattle.shelf_records.specs.Shelved.{metric_of};
ghost use Rattle.split_store.specs.ShelfView.{IsCause, IsLastingShelf, IsOnlySeen, last_in};
ghost use Rattle.shelf_query.specs.Reading.{HasOddSplitOf, IsReadCause, KeepsAccepted};

use crate::series::add_asked;
use crate::split::SeriesAt;
use archive_policy::Kind;
use gno_disk::Disk;
use gno_num::{DiskFault, Memory, Stamp};
use log_pair::MountFault;
use series_model::{Answer, MetricId, Query};
use split_store::Shelf;
use std::alloc::Global;

/// A fault of a call that began and ended when the disks had failed so often.
fn counted(fault: MountFault, before: u64, after: u64) -> MountFault
    ensures { MatchMountFault fault
        (λ f. result ≡ MountFault.DiskFault (record { before = before; after = after }))
        (λ d. result ≡ MountFault.Damaged d)
        (result ≡ MountFault.Memory) }
{
    match fault {
        MountFault::DiskFault(_) => MountFault::DiskFault(DiskFault { before, after }),
        MountFault::Damaged(damaged) => MountFault::Damaged(damaged),
        MountFault::Memory => MountFault::Memory,
    }
}

/// Adds the rows of each definition of the metric's policy that is asked for, the coarsest first.
fn add_all<D: Disk>(
    alloc: Global,
    shelf: &mut Shelf<D>,
    metric: MetricId,
    kind: Kind,
    last: Stamp,
    query: &Query,
    rows: &mut Answer,
) -> Result<(), MountFault>
    requires whole { shelf.old.broken ≡ false }
    requires last { last_in (metric_of metric shelf.old.metrics) ≡ Some last }
    requires left { IsLastingShelf D.Disk shelf.old }
    ensures rows { OnOk result ((policy : ArchivePolicy) (accepted : List Measure) → KeepsAccepted D.Disk shelf.old metric kind policy accepted
        → rows.new ≡ rows.old ++ answer_under policy query.now kind accepted) }
    ensures whole { OnOk result (shelf.new.broken ≡ false) }
    ensures seen { IsOnlySeen D.Disk shelf.old shelf.new }
    ensures left { IsLastingShelf D.Disk shelf.new }
    ensures cause { IfErr result (IsReadCause D.Disk (HasOddSplitOf shelf.old.metrics metric kind) shelf.old shelf.new) }
{
    let Some(policy) = shelf.policy_of(metric) else {
        unreachable!();
    };
    let policy = match policy.copy() {
        Ok(policy) => policy,
        Err(Memory) => return Err(MountFault::Memory),
    };
    let _kinds = policy.kinds();
    let definitions = policy.definitions();
    let count = definitions.len();
    for i in 0..count {
        let place = count - 1 - i;
        let series = SeriesAt {
            metric,
            kind,
            place: place as u8,
            definition: definitions[place],
        };
        match add_asked(alloc, shelf, &series, last, query, rows) {
            Ok(()) => {}
            Err(fault) => return Err(fault),
        }
    }
    Ok(())
}

/// What a query is answered with for a kind of a live metric: for each definition that is asked for, the coarsest
/// first, the rows of the points that it wants, by time. It reads no split that can't hold such a point. After
/// `Memory` all is as before.
pub fn answer_of<D: Disk>(
    alloc: Global,
    shelf: &mut Shelf<D>,
    metric: MetricId,
    kind: Kind,
    query: &Query,
) -> Result<Answer, MountFault>
    requires whole { shelf.old.broken ≡ false }
    requires live { IsSome (metric_of metric shelf.old.metrics) }
    ensures rows { IfOk result (λ rows. (policy : ArchivePolicy) (accepted : List Measure) → KeepsAccepted D.Disk shelf.old metric kind policy accepted
        → rows ≡ answer_under policy query.now kind accepted) }
    ensures whole { OnOk result (shelf.new.broken ≡ false) }
    ensures seen { IsOnlySeen D.Disk shelf.old shelf.new }
    ensures left { IsLastingShelf D.Disk shelf.new }
    ensures cause { IfErr result (IsCause D.Disk (HasOddSplitOf shelf.old.metrics metric kind) shelf.old shelf.new) }
{
    let _broken = shelf.is_broken();
    let before = shelf.faults();
    let mut rows = Answer::new(alloc);
    let Some(last) = shelf.last_of(metric) else {
        return Ok(rows);
    };
    match add_all(alloc, shelf, metric, kind, last, query, &mut rows) {
        Ok(()) => Ok(rows),
        Err(fault) => Err(counted(fault, before, shelf.faults())),
    }
}
