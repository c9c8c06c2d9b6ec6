// The accepted measures of a batch as a series.
ghost use Rattle.std.specs.Prelude.{◌≡◌, ◌↔◌, ◌<◌, IsTrue, IfOk, map};
ghost use Rattle.std.specs.List.{filter};
ghost use Rattle.std.specs.List.Sorted.{IsStrictlyIncreasing};
ghost use Rattle.series_model.specs.Accepted.{is_within};
ghost use Rattle.series_model.specs.Series.{series_of_measures};
ghost use Rattle.bound_series.specs.Turn.{earliest, earlier};

use gno_num::{Memory, Stamp};
use series_model::{Measure, series_of};
use std::alloc::Global;

/// The measures that aren't before the window, in their order.
pub fn accepted_of(
    alloc: Global,
    window: &Option<Stamp>,
    measures: &[Measure],
) -> Result<Vec<Measure>, Memory>
    ensures { IfOk result (λ accepted. accepted.items ≡ filter (is_within window.now) measures.now) }
{
    let mut accepted = Vec::with_capacity(alloc, measures.len())?;
    for m in measures {
        if is_within(window, m) {
            accepted.push(*m)?;
        }
    }
    Ok(accepted)
}

/// Whether the measure isn't before the window.
fn is_within(window: &Option<Stamp>, m: &Measure) -> bool
    ensures { result ≡ is_within window.now m.now }
{
    match window {
        None => true,
        Some(from) => from.nanos() <= m.at.nanos(),
    }
}

/// The least timestamp, where there is a measure.
pub fn earliest_of(measures: &[Measure]) -> Option<Stamp>
    ensures { result ≡ earliest measures.now }
{
    let mut first = None;
    for m in measures {
        first = earlier_of(first, Some(m.at));
    }
    first
}

/// The earlier of two times, where there are such.
pub fn earlier_of(at: Option<Stamp>, other: Option<Stamp>) -> Option<Stamp>
    ensures { result ≡ earlier at other }
{
    match (at, other) {
        (None, other) => other,
        (at, None) => at,
        (Some(at), Some(other)) => Some(if at.nanos() <= other.nanos() {
            at
        } else {
            other
        }),
    }
}

/// The series of measures: as they are where their times rise, else sorted, the later measure winning
/// among equal timestamps.
pub fn settle(alloc: Global, measures: Vec<Measure>) -> Result<Vec<Measure>, Memory>
    ensures { IfOk result (λ series. series.items ≡ series_of_measures measures.items) }
{
    if rises(measures.as_slice()) {
        return Ok(measures);
    }
    series_of(alloc, measures.as_slice())
}

/// Whether times rise strictly.
pub fn rises(measures: &[Measure]) -> bool
    ensures { IsTrue result ↔ IsStrictlyIncreasing (map (λ m. m.at) measures.now) }
{
    for i in 1..measures.len() {
        if !is_before(&measures[i - 1], &measures[i]) {
            return false;
        }
    }
    true
}

/// Whether a measure is before another.
fn is_before(m: &Measure, other: &Measure) -> bool
    ensures { IsTrue result ↔ (m.now.at < other.now.at) }
{
    m.at.nanos() < other.at.nanos()
}
