// Tallies of buckets.
ghost use Rattle.std.specs.Prelude.{◌≡◌, ◌<◌, ◌≤◌, ◌++◌, ◌^◌, Some, IfOk, length, map, slice_get, take, ℕ, List};
ghost use Rattle.std.specs.List.{filter_map};
ghost use Rattle.std.specs.List.Sorted.{IsStrictlyIncreasing};
ghost use Rattle.std.specs.Option.{option_to_list};
ghost use Rattle.bucket_agg.specs.Tally.{summary_of};
ghost use Rattle.gno_num.specs.Floor.{floor_of};
ghost use Rattle.series_model.specs.declared.measure.Measure.{Measure};
ghost use Rattle.series_model.specs.Bucket.{value_at};
ghost use Rattle.series_model.specs.Points.{point_at};
ghost use Rattle.series_model.specs.Tail.{last_onto};
ghost use Rattle.regroup.specs.Tallies.{bucket_tally, changes_behind, tallies_behind};

use crate::runs::{changes_of, run_end, values_of};
use archive_policy::Kind;
use bucket_agg::Tally;
use gno_num::{Frac, Memory, Span, Stamp, floor};
use series_model::{Measure, Point};
use std::alloc::Global;

/// The tallies of a bucket's values and of its changes.
#[derive(Clone, Copy, Debug)]
pub struct BucketTally {
    pub start: Stamp,
    pub values: Tally,
    pub changes: Tally,
}

/// The tallies of all buckets that members are in, by time. The member before them, where there is
/// one, is before the first of these buckets.
pub fn tallies_behind(
    alloc: Global,
    before: Option<Measure>,
    members: &[Measure],
    granularity: Span,
) -> Result<Vec<BucketTally>, Memory>
    requires rising { IsStrictlyIncreasing (map (λ m. m.at) (option_to_list before ++ members.now)) }
    requires apart { (b m : Measure) → 0 < granularity → before ≡ Some b
        → slice_get members.now 0 ≡ Some m → b.at < floor_of m.at granularity }
    ensures { IfOk result (λ tallies. tallies.items ≡ tallies_behind granularity before members.now) }
{
    let mut tallies = Vec::new(alloc);
    let mut place = 0;
    while place < members.len() {
        let start = floor(members[place].at, granularity);
        let end = run_end(members, place, start.nanos() + granularity.nanos());
        let previous = previous_of(before, members, place);
        tallies.push(run_tally(alloc, previous, &members[place..end], start)?)?;
        place = end;
    }
    Ok(tallies)
}

/// The member before a place, where there is one.
pub fn previous_of(before: Option<Measure>, members: &[Measure], place: usize) -> Option<Measure>
    requires { place ≤ length members.now }
    ensures { result ≡ last_onto before (take place members.now) }
{
    if place == 0 {
        return before;
    }
    Some(members[place - 1])
}

/// The tally of the members of one bucket, behind another member where there is one.
fn run_tally(
    alloc: Global,
    before: Option<Measure>,
    run: &[Measure],
    start: Stamp,
) -> Result<BucketTally, Memory>
    ensures { IfOk result (λ tally. tally ≡ record {
      start = start;
      values = summary_of (map (λ m. m.value) run.now);
      changes = summary_of (map (λ m. m.value) (changes_behind before run.now));
    }) }
{
    let values = values_of(alloc, run)?;
    let changes = changes_of(alloc, before, run)?;
    Ok(BucketTally {
        start,
        values: Tally::of(alloc, values.as_slice())?,
        changes: Tally::of(alloc, changes.as_slice())?,
    })
}

/// The points of a kind, by the tallies of their buckets.
pub fn points_by(alloc: Global, kind: Kind, tallies: &[BucketTally]) -> Result<Vec<Point>, Memory>
    ensures { IfOk result (λ points. (granularity : ℕ) (members : List Measure) (starts : List ℕ)
        → tallies.now ≡ map (bucket_tally granularity members) starts
        → points.items ≡ filter_map (point_at kind granularity members) starts) }
{
    let mut points = Vec::with_capacity(alloc, tallies.len())?;
    for tally in tallies {
        let value = value_by(kind, tally);
        if let Some(value) = value {
            points.push(Point {
                at: tally.start,
                value,
            })?;
        }
    }
    Ok(points)
}

/// The value of a bucket for a kind, by its tally.
fn value_by(kind: Kind, tally: &BucketTally) -> Option<Frac>
    ensures { (granularity : ℕ) (members : List Measure) (start : ℕ)
        → tally.now ≡ bucket_tally granularity members start
        → result ≡ value_at kind granularity members start }
{
    if kind.is_rate() {
        tally.changes.value(kind)
    } else {
        tally.values.value(kind)
    }
}
