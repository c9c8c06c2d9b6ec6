// Reading the records of a pair.
ghost use Rattle.std.specs.Prelude.{◌≡◌, ◌<◌, ⊤, ℕ, List, IfOk, IfErr, IfSome, IfNone, OnOk, Some, slice_get, true, false, ◌+◌, length, map, take, slice_index_or, All};
ghost use Rattle.series_model.specs.declared.measure.Measure.{Measure};
ghost use Rattle.gate_log.specs.LogView.{IsFault, MatchMountFault};
ghost use Rattle.gno_codec.specs.Incoming.{IsIncoming, IsPost, post_bytes};
ghost use Rattle.log_pair.specs.PairView.{both_faults};
ghost use Rattle.incoming.specs.Contents.{AreOf, IsKept};
ghost use Rattle.incoming.specs.Lists.{number_at};
ghost use Rattle.incoming.specs.Posts.{Post, numbers_above, posts_above};
ghost use Rattle.incoming.specs.Reading.{IsFoundIn, IsOnlyRead, StandsAs, answer_at, answer_of, is_damage};

use crate::Mark;
use crate::contents::Contents;
use gno_codec::{IncomingItem, ReadFault, read_incoming};
use gno_disk::Disk;
use gno_num::DiskFault;
use log_pair::{LogFault, LogPair, MountFault};
use series_model::{Batch, MetricId};
use std::alloc::Global;

/// The body of a record, where a fault of a disk is one of a mounting.
fn read_body<D: Disk>(
    alloc: Global,
    pair: &mut LogPair<D>,
    index: u64,
) -> Result<Vec<u8>, MountFault>
    requires known { index < pair.old.count }
    requires whole { pair.old.broken ≡ false }
    ensures asked { IfOk result (λ body. IfSome pair.old.records (λ records. slice_get records index ≡ Some body.items)) }
    ensures reads { IsOnlyRead D.Disk pair.old pair.new }
    ensures whole { OnOk result (pair.new.broken ≡ false) }
    ensures cause { IfErr result (λ e. MatchMountFault e
        (λ f. IsFault (both_faults D.Disk pair.old.first pair.old.second) (both_faults D.Disk pair.new.first pair.new.second) f
        × (pair.new.broken ≡ true)) (λ _. ⊥) (pair.new ≡ pair.old)) }
{
    match pair.read(alloc, index) {
        Ok(body) => Ok(body),
        Err(LogFault::DiskFault(fault)) => Err(MountFault::DiskFault(fault)),
        Err(LogFault::Memory) => Err(MountFault::Memory),
    }
}

/// The record at an index, or none where its bytes spell none.
pub fn read_item<D: Disk>(
    alloc: Global,
    pair: &mut LogPair<D>,
    index: u64,
) -> Result<Option<IncomingItem>, MountFault>
    requires known { index < pair.old.count }
    requires whole { pair.old.broken ≡ false }
    ensures stands { IfOk result (λ item. IfSome pair.old.records (λ records. StandsAs records index item)) }
    ensures fits { IfOk result (λ item. IfSome item IsIncoming) }
    ensures reads { IsOnlyRead D.Disk pair.old pair.new }
    ensures whole { OnOk result (pair.new.broken ≡ false) }
    ensures cause { IfErr result (λ e. MatchMountFault e
        (λ f. IsFault (both_faults D.Disk pair.old.first pair.old.second) (both_faults D.Disk pair.new.first pair.new.second) f
        × (pair.new.broken ≡ true)) (λ _. ⊥) (pair.new.broken ≡ false)) }
{
    let body = read_body(alloc, pair, index)?;
    match read_incoming(alloc, &body) {
        Ok(item) => Ok(Some(item)),
        Err(ReadFault::Bad { at: _ }) => Ok(None),
        Err(ReadFault::Memory) => Err(MountFault::Memory),
    }
}

/// The measures of the post of this mark, whose record stands at this index. `Damaged` comes where
/// another record stands there.
fn read_batch<D: Disk>(
    alloc: Global,
    pair: &mut LogPair<D>,
    index: u64,
    mark: Mark,
) -> Result<Batch, MountFault>
    requires known { index < pair.old.count }
    requires whole { pair.old.broken ≡ false }
    ensures found { IfOk result (λ batch. IfSome pair.old.records (λ records.
        (slice_get records index ≡ Some (post_bytes mark.number mark.metric.0 batch)) × IsPost mark.number mark.metric.0 batch)) }
    ensures reads { IsOnlyRead D.Disk pair.old pair.new }
    ensures whole { OnOk result (pair.new.broken ≡ false) }
    ensures cause { IfErr result (λ e. MatchMountFault e
        (λ f. IsFault (both_faults D.Disk pair.old.first pair.old.second) (both_faults D.Disk pair.new.first pair.new.second) f
        × (pair.new.broken ≡ true))
        (λ d. (pair.new.broken ≡ false) × (d.disk < 2) × IfSome pair.old.records (λ records. (measures : List Measure) → IsPost mark.number mark.metric.0 measures
        → slice_get records index ≡ Some (post_bytes mark.number mark.metric.0 measures) → ⊥))
        (pair.new.broken ≡ false)) }
{
    let item = read_item(alloc, pair, index)?;
    match batch_of(item, mark) {
        Some(batch) => Ok(batch),
        None => Err(MountFault::Damaged(pair.place_of(index))),
    }
}

/// The measures of a record, if it is the post of this mark.
fn batch_of(item: Option<IncomingItem>, mark: Mark) -> Option<Batch>
    ensures found { IfSome result (λ batch. item ≡ Some (IncomingItem.Post mark.number mark.metric batch)) }
    ensures none { IfNone result ((measures : List Measure) → item ≡ Some (IncomingItem.Post mark.number mark.metric measures) → ⊥) }
{
    match item {
        Some(
            IncomingItem::Post {
                number,
                metric,
                batch,
            },
        ) => {
            if number == mark.number && metric == mark.metric {
                Some(batch)
            } else {
                None
            }
        }
        Some(IncomingItem::Next { number: _ }) => None,
        None => None,
    }
}

/// The mark at a place.
fn mark_at(marks: &[Mark], at: usize) -> Mark
    requires { at < length marks.now }
    ensures { result ≡ slice_index_or marks.now at (record { number = 0; metric = record { 0 = 0 } }) }
{
    marks[at]
}

/// The number and the measures of the post whose mark stands at a place. The record of the first mark has
/// the index `first`.
fn read_at<D: Disk>(
    alloc: Global,
    pair: &mut LogPair<D>,
    marks: &[Mark],
    first: u64,
    at: usize,
) -> Result<(u64, Batch), MountFault>
    requires known { at < length marks.now }
    requires counted { pair.old.count ≡ first + length marks.now }
    requires whole { pair.old.broken ≡ false }
    ensures number { IfOk result (λ post. post.0 ≡ number_at marks.now at) }
    ensures found { IfOk result (λ post. IfSome pair.old.records (λ records. (posts : List Post) → IsFoundIn records first marks.now posts
        → post ≡ answer_at posts at)) }
    ensures reads { IsOnlyRead D.Disk pair.old pair.new }
    ensures whole { OnOk result (pair.new.broken ≡ false) }
    ensures cause { IfErr result (λ e. MatchMountFault e
        (λ f. IsFault (both_faults D.Disk pair.old.first pair.old.second) (both_faults D.Disk pair.new.first pair.new.second) f
        × (pair.new.broken ≡ true))
        (λ d. (pair.new.broken ≡ false) × (d.disk < 2) × IfSome pair.old.records (λ records. (posts : List Post) → IsFoundIn records first marks.now posts → ⊥))
        (pair.new.broken ≡ false)) }
{
    // the sum below fits, since there are so many records
    let _count = pair.count();
    let mark = mark_at(marks, at);
    match read_batch(alloc, pair, first + at as u64, mark) {
        Ok(batch) => Ok((mark.number, batch)),
        Err(fault) => Err(fault),
    }
}

/// The posts whose marks stand at these places, in order. The record of the first mark has the index
/// `first`.
pub fn read_posts<D: Disk>(
    alloc: Global,
    pair: &mut LogPair<D>,
    marks: &[Mark],
    first: u64,
    places: &[usize],
) -> Result<Vec<(u64, Batch)>, MountFault>
    requires known { All (λ at. at < length marks.now) places.now }
    requires counted { pair.old.count ≡ first + length marks.now }
    requires whole { pair.old.broken ≡ false }
    ensures numbers { IfOk result (λ found. map (λ post. post.0) found.items ≡ map (number_at marks.now) places.now) }
    ensures found { IfOk result (λ found. IfSome pair.old.records (λ records. (posts : List Post) → IsFoundIn records first marks.now posts
        → found.items ≡ map (answer_at posts) places.now)) }
    ensures reads { IsOnlyRead D.Disk pair.old pair.new }
    ensures whole { OnOk result (pair.new.broken ≡ false) }
    ensures cause { IfErr result (λ e. MatchMountFault e
        (λ f. IsFault (both_faults D.Disk pair.old.first pair.old.second) (both_faults D.Disk pair.new.first pair.new.second) f
        × (pair.new.broken ≡ true))
        (λ d. (pair.new.broken ≡ false) × (d.disk < 2) × IfSome pair.old.records (λ records. (posts : List Post) → IsFoundIn records first marks.now posts → ⊥))
        (pair.new.broken ≡ false)) }
{
    let before = pair.faults();
    let mut found = Vec::new(alloc);
    if found.reserve(places.len()).is_err() {
        return Err(MountFault::Memory);
    }
    for at in places {
        match read_at(alloc, pair, marks, first, *at) {
            Ok(post) => found.push_reserved(post),
            Err(fault) => return Err(since(fault, before)),
        }
    }
    Ok(found)
}

/// The first `most` posts of a metric above a number: their numbers and measures, in order.
pub fn read_above<D: Disk>(
    alloc: Global,
    pair: &mut LogPair<D>,
    contents: &Contents,
    metric: MetricId,
    above: u64,
    most: u64,
) -> Result<Vec<(u64, Batch)>, MountFault>
    requires kept { IsKept contents.now }
    requires counted { pair.old.count ≡ contents.now.first + length contents.now.marks.items }
    requires whole { pair.old.broken ≡ false }
    ensures numbers { IfOk result (λ found. map (λ post. post.0) found.items ≡ take most (numbers_above metric above contents.now.marks.items)) }
    ensures found { IfOk result (λ found. IfSome pair.old.records (λ records. (of : AreOf contents.now records)
        → found.items ≡ map answer_of (take most (posts_above metric above of.posts)))) }
    ensures reads { IsOnlyRead D.Disk pair.old pair.new }
    ensures whole { OnOk result (pair.new.broken ≡ false) }
    ensures cause { IfErr result (λ e. MatchMountFault e
        (λ f. IsFault (both_faults D.Disk pair.old.first pair.old.second) (both_faults D.Disk pair.new.first pair.new.second) f
        × (pair.new.broken ≡ true))
        (λ d. (pair.new.broken ≡ false) × (d.disk < 2) × IfSome pair.old.records (λ records. AreOf contents.now records → ⊥))
        (pair.new.broken ≡ false)) }
{
    let places = first_of(contents.places_above(metric, above), most);
    let marks = contents.marks.as_slice();
    read_posts(alloc, pair, marks, contents.first, places)
}

/// A fault of a call that began when the disks had failed so often.
pub fn since(fault: MountFault, before: u64) -> MountFault
    ensures { MatchMountFault fault
        (λ f. result ≡ MountFault.DiskFault (record { before = before; after = f.after }))
        (λ d. result ≡ MountFault.Damaged d)
        (result ≡ MountFault.Memory) }
{
    match fault {
        MountFault::DiskFault(fault) => MountFault::DiskFault(DiskFault {
            before,
            after: fault.after,
        }),
        MountFault::Damaged(damaged) => MountFault::Damaged(damaged),
        MountFault::Memory => MountFault::Memory,
    }
}

/// Whether a call found damage.
pub fn is_damage(found: &Result<Vec<(u64, Batch)>, MountFault>) -> bool
    ensures { result ≡ is_damage found.now }
{
    match found {
        Err(MountFault::Damaged(_)) => true,
        _ => false,
    }
}

/// The first so many places.
fn first_of(places: &[usize], most: u64) -> &[usize]
    ensures { result.now ≡ take most places.now }
{
    let most = most.min(places.len() as u64) as usize;
    &places[..most]
}
