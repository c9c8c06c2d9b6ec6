// The rows of stored points that a query wants.
ghost use Rattle.std.specs.Prelude.{◌≡◌, ℕ, ◌<◌, ◌≤◌, ◌&&◌, ◌++◌, OnOk, OnErr, All, map, take, drop, length, nat_le};
ghost use Rattle.std.specs.List.{filter};
ghost use Rattle.series_model.specs.Answer.{row_of};
ghost use Rattle.series_model.specs.Query.{is_from, is_until, rows_wanted};
ghost use Rattle.measure_query.specs.Wanted.{AddsFront, AreRising, is_between, points_in};

use gno_num::{Memory, Span, Stamp, floor};
use series_model::{Answer, Point, Query, Row, Split};

/// Adds the rows of one granularity that a query wants, by time: those of the points that aren't
/// before the oldest one that is kept, nor before the bucket of `start`, and are before `stop`.
/// After `Memory` the first so many of them are added.
pub fn select(
    splits: &[Split],
    granularity: Span,
    oldest: Stamp,
    query: &Query,
    out: &mut Answer,
) -> Result<(), Memory>
    requires { AreRising (points_in splits.now) }
    ensures ok { OnOk result (out.new
        ≡ out.old ++ rows_wanted query.now granularity oldest (points_in splits.now)) }
    ensures err { OnErr result (AddsFront
        (rows_wanted query.now granularity oldest (points_in splits.now)) out.old out.new) }
{
    let first = first_wanted(granularity, oldest, query);
    for split in splits {
        let wanted = points_between(split.points(), first, query);
        add_rows(wanted, granularity, out)?;
    }
    Ok(())
}

/// The least time that is wanted, in nanoseconds.
fn first_wanted(granularity: Span, oldest: Stamp, query: &Query) -> u64
    ensures { (at : ℕ) → nat_le result at ≡ (nat_le oldest at && is_from query.now.start granularity at) }
{
    match query.start {
        Some(start) => oldest.nanos().max(floor(start, granularity).nanos()),
        None => oldest.nanos(),
    }
}

/// The points from a time on, up to the stop. Both ends are looked for by halves.
fn points_between<'a>(points: &'a [Point], first: u64, query: &Query) -> &'a [Point]
    requires { AreRising points.now }
    ensures { result.now ≡ filter (is_between first query.now.stop) points.now }
{
    let until = match query.stop {
        Some(stop) => count_before(points, stop.nanos()),
        None => points.len(),
    };
    let front = &points[..until];
    &front[count_before(front, first)..]
}

/// How many points are before a time.
fn count_before(points: &[Point], time: u64) -> usize
    requires { AreRising points.now }
    ensures within { result ≤ length points.now }
    ensures before { All (λ p. p.at < time) (take result points.now) }
    ensures behind { All (λ p. time ≤ p.at) (drop result points.now) }
{
    points.partition_point(|p| p.at.nanos() < time)
}

/// Adds the rows of points; after `Memory` the first so many of them are added.
fn add_rows(points: &[Point], granularity: Span, out: &mut Answer) -> Result<(), Memory>
    ensures ok { OnOk result (out.new ≡ out.old ++ map (row_of granularity) points.now) }
    ensures err { OnErr result (AddsFront (map (row_of granularity) points.now) out.old out.new) }
{
    for p in points {
        out.add(Row {
            at: p.at,
            granularity,
            value: p.value,
        })?;
    }
    Ok(())
}
