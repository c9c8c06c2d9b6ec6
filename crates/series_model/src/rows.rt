// What a query is answered with.
ghost use Rattle.std.specs.Prelude.{◌≡◌, ◌≤◌, Some, IfOk};
ghost use Rattle.series_model.specs.Answer.{IsAnswer, answer_of, oldest_point_of, row_of, rows_until};

use crate::points::points_of;
use crate::series::series_of;
use crate::window::latest_of;
use crate::{Answer, Measure, Point, Row};
use archive_policy::{Definition, Kind};
use gno_num::{Memory, Span, Stamp};
use std::alloc::Global;

/// The rows of one definition and kind by all measures that were accepted: those of the kept
/// buckets that have a value, by time.
pub fn answer_from(
    alloc: Global,
    kind: Kind,
    definition: Definition,
    accepted: &[Measure],
) -> Result<Answer, Memory>
    ensures value { IfOk result (λ answer. answer ≡ answer_of kind definition accepted.now) }
    ensures exact { IfOk result (IsAnswer kind definition accepted.now) }
{
    match latest_of(accepted) {
        None => Ok(Answer::new(alloc)),
        Some(last) => {
            let series = series_of(alloc, accepted)?;
            rows_of(alloc, kind, &definition, series.as_slice(), last)
        }
    }
}

/// The rows of a series whose greatest timestamp is given.
fn rows_of(
    alloc: Global,
    kind: Kind,
    definition: &Definition,
    series: &[Measure],
    last: Stamp,
) -> Result<Answer, Memory>
    ensures { IfOk result (λ answer. answer ≡ rows_until kind definition.now series.now (Some last)) }
{
    let oldest = oldest_point(last, definition);
    let points = points_of(alloc, kind, definition.granularity, series)?;
    let mut answer = Answer::new(alloc);
    for p in points.as_slice() {
        if oldest <= p.at.nanos() {
            answer.add(row_of(definition.granularity, p))?;
        }
    }
    Ok(answer)
}

/// The row of a point.
pub fn row_of(granularity: Span, p: &Point) -> Row
    ensures { result ≡ row_of granularity p.now }
{
    Row {
        at: p.at,
        granularity,
        value: p.value,
    }
}

/// The start of the oldest bucket that is kept, in nanoseconds.
pub fn oldest_point(last: Stamp, definition: &Definition) -> u64
    ensures value { result ≡ oldest_point_of last definition.now }
    ensures early { result ≤ last }
{
    let granularity = definition.granularity.nanos();
    let back = u64::from(definition.points.saturating_sub(1)).saturating_mul(granularity);
    (last.nanos() / granularity * granularity).saturating_sub(back)
}
