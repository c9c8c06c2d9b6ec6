// The rows of stored points that a query wants.
ghost use Rattle.std.specs.Prelude.{◌≡◌, ℕ, ◌+◌, ◌*◌, ◌<◌, ◌≤◌, ◌&&◌, ◌++◌, OnOk, nat_le, true};
ghost use Rattle.series_model.specs.Query.{is_from, is_named, is_until, is_wanted, rows_wanted};

use gno_num::{Memory, Span, Stamp, floor};
use series_model::{Answer, Point, Query, Row};

/// Whether a granularity is asked for.
pub(crate) fn is_named(query: &Query, granularity: Span) -> bool
    ensures { result ≡ is_named query.now.granularity granularity }
{
    match query.granularity {
        None => true,
        Some(named) => granularity.nanos() == named.nanos(),
    }
}

/// The least time that is wanted, in nanoseconds.
pub(crate) fn first_wanted(granularity: Span, oldest: Stamp, query: &Query) -> u64
    ensures { (at : ℕ) → nat_le result at ≡ (nat_le oldest at && is_from query.now.start granularity at) }
{
    match query.start {
        Some(start) => oldest.nanos().max(floor(start, granularity).nanos()),
        None => oldest.nanos(),
    }
}

/// The time before which all points begin that are wanted, where the greatest accepted timestamp is this one.
pub(crate) fn end_wanted(last: Stamp, query: &Query) -> u64
    ensures soon { result ≤ last + 1 }
    ensures until { (at : ℕ) → at ≤ last → is_until query.now.stop at ≡ true → at < result }
{
    match query.stop {
        Some(stop) => stop.nanos().min(last.nanos() + 1),
        None => last.nanos() + 1,
    }
}

/// How many stretches of this length cover the time between these two.
pub(crate) fn stretch_count(begin: u64, end: u64, length: u64) -> u64
    requires { 0 < length }
    ensures covers { end ≤ begin + result * length }
    ensures inside { (i : ℕ) → i < result → begin + i * length < end }
{
    if end <= begin {
        0
    } else {
        (end - begin - 1) / length + 1
    }
}

/// Whether a query wants the point of a bucket that begins at this time, the first that is wanted being this one.
fn is_wanted(at: u64, first: u64, query: &Query) -> bool
    ensures { result ≡ (nat_le first at && is_until query.now.stop at) }
{
    match query.stop {
        Some(stop) => first <= at && at < stop.nanos(),
        None => first <= at,
    }
}

/// Adds the rows of the points of one split that a query wants.
pub(crate) fn add_points(
    points: &[Point],
    granularity: Span,
    oldest: Stamp,
    query: &Query,
    rows: &mut Answer,
) -> Result<(), Memory>
    ensures { OnOk result (rows.new ≡ rows.old ++ rows_wanted query.now granularity oldest points.now) }
{
    let first = first_wanted(granularity, oldest, query);
    for p in points {
        if is_wanted(p.at.nanos(), first, query) {
            rows.add(Row {
                at: p.at,
                granularity,
                value: p.value,
            })?;
        }
    }
    Ok(())
}
