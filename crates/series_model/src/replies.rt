// Answers over the definitions of a policy.
ghost use Rattle.std.specs.Prelude.{◌≡◌, ◌++◌, ◌<◌, ◌&&◌, Some, IfOk, OnOk, slice_index};
ghost use Rattle.series_model.specs.Answer.{oldest_point_of};
ghost use Rattle.series_model.specs.Points.{points_of};
ghost use Rattle.series_model.specs.Query.{answer_under, is_from, is_named, is_until, is_wanted, rows_over, rows_wanted, asked_of};

use crate::points::points_of;
use crate::rows::{oldest_point, row_of};
use crate::series::series_of;
use crate::window::latest_of;
use crate::{Answer, Measure, Point, Query};
use archive_policy::{Definition, Kind, Policy};
use gno_num::{Memory, Span, Stamp, floor};
use std::alloc::Global;

/// The answer of a query for a kind, by a policy and all measures that were accepted: for each
/// definition that is asked for, the coarsest first, the rows of the points that it wants, by time.
pub fn answer_to(
    alloc: Global,
    policy: &Policy,
    query: &Query,
    kind: Kind,
    accepted: &[Measure],
) -> Result<Answer, Memory>
    ensures { IfOk result (λ answer. answer ≡ answer_under policy.now query.now kind accepted.now) }
{
    match latest_of(accepted) {
        None => Ok(Answer::new(alloc)),
        Some(last) => {
            let series = series_of(alloc, accepted)?;
            rows_over(
                alloc,
                policy.definitions(),
                query,
                kind,
                series.as_slice(),
                last,
            )
        }
    }
}

/// The rows over the definitions that are asked for, the coarsest first.
fn rows_over(
    alloc: Global,
    definitions: &[Definition],
    query: &Query,
    kind: Kind,
    series: &[Measure],
    last: Stamp,
) -> Result<Answer, Memory>
    ensures { IfOk result (λ answer. answer
        ≡ rows_over query.now kind series.now (Some last) (asked_of query.now definitions.now)) }
{
    let mut answer = Answer::new(alloc);
    let count = definitions.len();
    for k in 0..count {
        let d = definitions[count - 1 - k];
        if is_named(&query.granularity, d.granularity) {
            let points = points_of(alloc, kind, d.granularity, series)?;
            add_rows(&mut answer, query, &d, last, points.as_slice())?;
        }
    }
    Ok(answer)
}

/// Whether a granularity is asked for.
fn is_named(named: &Option<Span>, granularity: Span) -> bool
    ensures { result ≡ is_named named.now granularity }
{
    match named {
        None => true,
        Some(named) => granularity.nanos() == named.nanos(),
    }
}

/// Adds the rows of the points that a query wants.
fn add_rows(
    answer: &mut Answer,
    query: &Query,
    definition: &Definition,
    last: Stamp,
    points: &[Point],
) -> Result<(), Memory>
    ensures { OnOk result (answer.new ≡ answer.old ++ rows_wanted query.now definition.now.granularity (oldest_point_of last definition.now) points.now) }
{
    let oldest = oldest_point(last, definition);
    for p in points {
        if is_wanted(query, definition.granularity, oldest, p) {
            answer.add(row_of(definition.granularity, p))?;
        }
    }
    Ok(())
}

/// Whether a query wants a point, where the oldest point to keep is this one.
fn is_wanted(query: &Query, granularity: Span, oldest: u64, p: &Point) -> bool
    ensures { result ≡ is_wanted query.now granularity oldest p.now }
{
    oldest <= p.at.nanos()
        && is_from(&query.start, granularity, p.at)
        && is_until(&query.stop, p.at)
}

/// Whether a bucket isn't before the one that the start is in, where a start is given.
fn is_from(start: &Option<Stamp>, granularity: Span, at: Stamp) -> bool
    ensures { result ≡ is_from start.now granularity at }
{
    match start {
        None => true,
        Some(start) => floor(*start, granularity).nanos() <= at.nanos(),
    }
}

/// Whether a bucket begins before the stop, where one is given.
fn is_until(stop: &Option<Stamp>, at: Stamp) -> bool
    ensures { result ≡ is_until stop.now at }
{
    match stop {
        None => true,
        Some(stop) => at.nanos() < stop.nanos(),
    }
}
