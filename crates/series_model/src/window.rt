// Which measures are accepted.
ghost use Rattle.std.specs.Prelude.{◌≡◌, IfOk};
ghost use Rattle.series_model.specs.Accepted.{accepted_of, later, latest, window};
ghost use Rattle.series_model.specs.Tail.{accepted_under};

use crate::turn::Turns;
use crate::{Batch, Measure};
use archive_policy::Policy;
use gno_num::{Memory, Span, Stamp};
use std::alloc::Global;

/// The measures that a policy accepts of these batches, in the order of acceptance. Each batch takes
/// its turn by itself, and the window that stands as its turn begins judges all its measures. The
/// window is the policy's `back_window` of its largest granularity before the bucket of the greatest
/// accepted timestamp.
pub fn accepted(alloc: Global, policy: &Policy, batches: &[Batch]) -> Result<Vec<Measure>, Memory>
    ensures { IfOk result (λ measures. measures.items ≡ accepted_under policy.now batches.now) }
{
    accepted_within(alloc, policy.largest(), policy.back_window(), batches)
}

/// The measures that are accepted of these batches, by a largest granularity and a back window.
pub fn accepted_within(
    alloc: Global,
    largest: Span,
    back_window: u16,
    batches: &[Batch],
) -> Result<Vec<Measure>, Memory>
    ensures { IfOk result (λ measures. measures.items ≡ accepted_of largest back_window batches.now) }
{
    let mut turns = Turns::new(alloc);
    for batch in batches {
        turns.take(largest, back_window, batch.measures())?;
    }
    Ok(turns.into_measures())
}

/// The later of a time and another one, where there is one.
pub fn later_of(at: Stamp, other: &Option<Stamp>) -> Stamp
    ensures { result ≡ later at other.now }
{
    match other {
        Some(other) if at.nanos() < other.nanos() => *other,
        _ => at,
    }
}

/// The greatest timestamp, where there is a measure.
pub fn latest_of(measures: &[Measure]) -> Option<Stamp>
    ensures { result ≡ latest measures.now }
{
    let mut last = None;
    for m in measures {
        last = Some(later_of(m.at, &last));
    }
    last
}

/// The earliest time that is accepted, by the greatest timestamp that was; none before there is one.
pub fn window_of(largest: Span, back_window: u16, last: &Option<Stamp>) -> Option<Stamp>
    ensures { result ≡ window largest back_window last.now }
{
    let last = last.as_ref()?;
    let span = largest.nanos();
    let back = u64::from(back_window).saturating_mul(span);
    Stamp::of_nanos((last.nanos() / span * span).saturating_sub(back))
}
