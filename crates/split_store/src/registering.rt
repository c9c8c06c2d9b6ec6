// Metrics that come and go.
ghost use Rattle.std.specs.Prelude.{◌≡◌, ◌≤◌, ℕ, List, [], false, true, IfOk, IsSome, OnOk, OnErr, Some, length, map};
ghost use Rattle.std.specs.List.Sorted.{IsStrictlyIncreasing};
ghost use Rattle.gno_disk.specs.Phases.{AtExit, EachMoment};
ghost use Rattle.gno_num.specs.Faults.{Rose};
ghost use Rattle.gno_codec.specs.declared.item.ShelfItem.TheVariants as items;
ghost use Rattle.gno_codec.specs.Shelf.{IsShelf, shelf_bytes};
ghost use Rattle.gate_log.specs.LogView.{Adds};
ghost use Rattle.log_pair.specs.PairView.{AreOldOrAdded, IsLastingPair, OfTwo, both_faults, pair_phases};
ghost use Rattle.shelf_records.specs.Shelved.{Shelved, blocks_of_metric, metric_of, registered};

use archive_policy::Policy;
use gno_codec::{ShelfItem, write_shelf};
use gno_disk::Disk;
use gno_num::{Failed, Memory};
use log_pair::{LogFault, LogPair};
use series_model::MetricId;
use shelf_records::{Book, Filed};
use std::alloc::Global;

/// Adds a record to the log of a shelf, whose memory is sure.
pub(crate) fn write_record<D: Disk>(pair: &mut LogPair<D>, body: &[u8]) -> Result<(), Failed>
    requires whole { pair.old.broken ≡ false }
    requires sure { (length body.now ≤ pair.old.spare) × (1 ≤ pair.old.spare) }
    ensures added { OnOk result (Adds pair.old.records pair.new.records body.now) }
    ensures whole { OnOk result (pair.new.broken ≡ false) }
    ensures kept { OnErr result (pair.new.records ≡ pair.old.records) }
    ensures broken { OnErr result (pair.new.broken ≡ true) }
    ensures cause { OnErr result (Rose (both_faults D.Disk pair.old.first pair.old.second) (both_faults D.Disk pair.new.first pair.new.second)) }
    ensures same { (pair.new.place ≡ pair.old.place) × (pair.new.epoch ≡ pair.old.epoch) }
    ensures came { D.came 4 pair.old.first pair.new.first × D.came 4 pair.old.second pair.new.second }
    ensures any_moment { EachMoment D.Disk (pair_phases pair.old pair.new) (OfTwo (AreOldOrAdded pair.old body.now)) }
    ensures left { (images : List (List ℕ)) → AtExit D.Disk (pair_phases pair.old pair.new) images → OfTwo (AreOldOrAdded pair.old body.now) images }
    ensures durable { OnOk result (IsLastingPair D.Disk pair.new) }
{
    match pair.append(body) {
        Ok(_) => Ok(()),
        Err(LogFault::DiskFault(_)) => Err(Failed),
        Err(LogFault::Memory) => unreachable!(),
    }
}

/// The record of a metric that is registered, whose memory is made sure, and the metric as it is filed.
pub(crate) fn prepare_register<D: Disk>(
    alloc: Global,
    pair: &mut LogPair<D>,
    book: &mut Book,
    metric: MetricId,
    policy: &Policy,
    done: u64,
) -> Result<(Vec<u8>, Filed), Memory>
    requires whole { pair.old.broken ≡ false }
    ensures body { IfOk result (λ ready. (ready.0.items ≡ shelf_bytes (items.Register metric done policy.now))
        × IsShelf (items.Register metric done policy.now)) }
    ensures filed { IfOk result (λ ready. ready.1 ≡ registered metric done policy.now) }
    ensures room { OnOk result (1 ≤ book.new.room) }
    ensures sure { IfOk result (λ ready. (length ready.0.items ≤ pair.new.spare) × (1 ≤ pair.new.spare)) }
    ensures pair { pair.new ≡ record pair.old { spare = pair.new.spare } }
    ensures book { (book.new.metrics ≡ book.old.metrics) × (book.new.taken ≡ book.old.taken) }
    ensures rising { IsStrictlyIncreasing (map (λ m. m.id.0) book.old.metrics) }
{
    let _ids = book.metrics();
    let filed = Filed::new(alloc, metric, done, policy.copy()?)?;
    let body = register_body(alloc, metric, policy, done)?;
    book.reserve_metric()?;
    pair.reserve(body.len() as u64)?;
    Ok((body, filed))
}

/// The record of a metric that is registered.
fn register_body(
    alloc: Global,
    metric: MetricId,
    policy: &Policy,
    done: u64,
) -> Result<Vec<u8>, Memory>
    ensures { IfOk result (λ body. (body.items ≡ shelf_bytes (items.Register metric done policy.now)) × IsShelf (items.Register metric done policy.now)) }
{
    let item = ShelfItem::Register {
        metric,
        done,
        policy: policy.copy()?,
    };
    write_shelf(alloc, &item)
}

/// The record of a metric that is dropped, whose memory is made sure.
pub(crate) fn prepare_drop<D: Disk>(
    alloc: Global,
    pair: &mut LogPair<D>,
    book: &mut Book,
    metric: MetricId,
) -> Result<Vec<u8>, Memory>
    requires whole { pair.old.broken ≡ false }
    requires live { IsSome (metric_of metric book.old.metrics) }
    ensures body { IfOk result (λ body. (body.items ≡ shelf_bytes (items.Drop metric)) × IsShelf (items.Drop metric)) }
    ensures gives { OnOk result ((m : Shelved) → metric_of metric book.old.metrics ≡ Some m → length (blocks_of_metric m) ≤ book.new.spare) }
    ensures sure { IfOk result (λ body. (length body.items ≤ pair.new.spare) × (1 ≤ pair.new.spare)) }
    ensures pair { pair.new ≡ record pair.old { spare = pair.new.spare } }
    ensures book { (book.new.metrics ≡ book.old.metrics) × (book.new.taken ≡ book.old.taken) }
    ensures rising { IsStrictlyIncreasing (map (λ m. m.id.0) book.old.metrics) }
{
    let _ids = book.metrics();
    let body = write_shelf(alloc, &ShelfItem::Drop { metric })?;
    book.reserve_drop(metric)?;
    pair.reserve(body.len() as u64)?;
    Ok(body)
}
