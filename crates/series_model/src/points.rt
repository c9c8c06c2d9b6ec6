// The points of a series.
ghost use Rattle.std.specs.Prelude.{◌≡◌, ◌++◌, [], ◌∷◌, ℕ, List, IfOk, OnOk, map};
ghost use Rattle.gno_num.specs.Floor.{floor_of};
ghost use Rattle.series_model.specs.Points.{point_at, points_of, starts_of};

use crate::bucket::bucket_value;
use crate::{Measure, Point};
use archive_policy::Kind;
use gno_num::{Memory, Span, Stamp, floor};
use std::alloc::Global;

/// The points of a kind and granularity of a series, by time.
pub fn points_of(
    alloc: Global,
    kind: Kind,
    granularity: Span,
    series: &[Measure],
) -> Result<Vec<Point>, Memory>
    ensures { IfOk result (λ points. points.items ≡ points_of kind granularity series.now) }
{
    let starts = starts_of(alloc, granularity, series)?;
    let mut points = Vec::new(alloc);
    for start in starts.as_slice() {
        let point = point_at(alloc, kind, granularity, series, *start)?;
        if let Some(point) = point {
            points.push(point)?;
        }
    }
    Ok(points)
}

/// The starts of the buckets that have a member.
fn starts_of(alloc: Global, granularity: Span, series: &[Measure]) -> Result<Vec<Stamp>, Memory>
    ensures { IfOk result (λ starts. starts.items ≡ starts_of granularity (map (λ m. m.at) series.now)) }
{
    let mut starts = Vec::new(alloc);
    for m in series {
        push_start(&mut starts, floor(m.at, granularity))?;
    }
    Ok(starts)
}

/// Puts a start behind others, unless it is the last of them.
pub fn push_start(starts: &mut Vec<Stamp>, start: Stamp) -> Result<(), Memory>
    ensures { OnOk result ((g : ℕ) (ts : List ℕ) (t : ℕ) → starts_of g ts ≡ starts.old.items
        → floor_of t g ≡ start → starts_of g (ts ++ t ∷ []) ≡ starts.new.items) }
{
    let count = starts.len();
    if count == 0 || starts[count - 1].nanos() != start.nanos() {
        starts.push(start)?;
    }
    Ok(())
}

/// The point of the bucket that begins at this time, where it has a value.
fn point_at(
    alloc: Global,
    kind: Kind,
    granularity: Span,
    series: &[Measure],
    start: Stamp,
) -> Result<Option<Point>, Memory>
    ensures { IfOk result (λ point. point ≡ point_at kind granularity series.now start) }
{
    match bucket_value(alloc, kind, granularity, series, start.nanos())? {
        None => Ok(None),
        Some(value) => Ok(Some(Point { at: start, value })),
    }
}
