// Points of the buckets that a change may have touched.
ghost use Rattle.std.specs.Prelude.{◌≡◌, ◌≤◌, ◌<◌, ◌++◌, ◌%◌, ℕ, List, None, true, false, IfOk, IfSome, IsSomeAnd, map};
ghost use Rattle.std.specs.List.Sorted.{IsStrictlyIncreasing};
ghost use Rattle.std.specs.Option.{option_to_list};
ghost use Rattle.gno_num.specs.Floor.{floor_of};
ghost use Rattle.series_model.specs.declared.measure.Measure.{Measure};
ghost use Rattle.series_model.specs.Points.{points_from, points_of};
ghost use Rattle.series_model.specs.Series.{series_of_measures};
ghost use Rattle.series_model.specs.Tail.{last_onto, members_before, members_from, members_of, tail_of};
ghost use Rattle.regroup.specs.Tallies.{tallies_behind};

use crate::runs::run_end;
use crate::tallies::{BucketTally, points_by, previous_of, tallies_behind};
use archive_policy::{Definition, Kind};
use bound_series::Raw;
use gno_num::{Memory, Span, Stamp, floor};
use series_model::{Measure, Point};
use std::alloc::Global;

/// The points of a definition and kind from the bucket of `from` on, by the kept values alone: those
/// of all buckets that have a value among the members that are kept. Where the kept values are the
/// tail of a series from some time on that isn't after that bucket, these are the points of the whole
/// series.
pub fn changed(
    alloc: Global,
    raw: &Raw,
    from: Stamp,
    definition: &Definition,
    kind: Kind,
) -> Result<Vec<Point>, Memory>
    ensures points { IfOk result (λ points. let first = floor_of from definition.now.granularity in
        points.items ≡ points_from first (points_of kind definition.now.granularity (members_of raw.now))) }
    ensures from_scratch { IfOk result (λ points. let first = floor_of from definition.now.granularity in
        (cut : ℕ) (accepted : List Measure) → cut ≤ first → raw.now ≡ tail_of cut accepted
        → points.items ≡ points_from first (points_of kind definition.now.granularity (series_of_measures accepted))) }
{
    let first = floor(from, definition.granularity);
    let tallies = tallies_from(alloc, raw, first, definition.granularity)?;
    points_by(alloc, kind, tallies.as_slice())
}

/// The tallies of all buckets from a start on, by the kept values.
pub fn tallies_from(
    alloc: Global,
    raw: &Raw,
    first: Stamp,
    granularity: Span,
) -> Result<Vec<BucketTally>, Memory>
    requires { first % granularity ≡ 0 }
    ensures tallies { IfOk result (λ tallies. tallies.items ≡ tallies_behind granularity
        (last_onto None (members_before first (members_of raw.now))) (members_from first (members_of raw.now))) }
    ensures rising { IsStrictlyIncreasing (map (λ m. m.at) (members_of raw.now)) }
{
    let points = raw.points();
    let anchor = raw.anchor();
    if is_late(&anchor, first) {
        let members = members_of(alloc, &anchor, points)?;
        return tallies_behind(alloc, None, members.as_slice(), granularity);
    }
    let place = run_end(points, 0, first.nanos());
    let before = previous_of(anchor, points, place);
    tallies_behind(alloc, before, &points[place..], granularity)
}

/// Whether there is an anchor that isn't before a time.
fn is_late(anchor: &Option<Measure>, first: Stamp) -> bool
    ensures late { result ≡ true → IsSomeAnd anchor.now (λ m. first ≤ m.at) }
    ensures early { result ≡ false → IfSome anchor.now (λ m. m.at < first) }
{
    match anchor {
        None => false,
        Some(m) => first.nanos() <= m.at.nanos(),
    }
}

/// The anchor and the points.
fn members_of(
    alloc: Global,
    anchor: &Option<Measure>,
    points: &[Measure],
) -> Result<Vec<Measure>, Memory>
    ensures { IfOk result (λ members. members.items ≡ option_to_list anchor.now ++ points.now) }
{
    let mut members = Vec::with_capacity(alloc, points.len().saturating_add(1))?;
    if let Some(anchor) = anchor {
        members.push(*anchor)?;
    }
    members.extend_from_slice(points)?;
    Ok(members)
}
