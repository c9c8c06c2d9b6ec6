// Stored splits.
ghost use Rattle.std.specs.Prelude.{◌≡◌, ◌<◌, ◌+◌, ◌&&◌, Some, IfOk, map, length, slice_get, nat_le, nat_lt};
ghost use Rattle.std.specs.List.{filter};
ghost use Rattle.archive_policy.specs.declared.definition.Definition.{Definition};
ghost use Rattle.archive_policy.specs.Policies.{IsGranularity};
ghost use Rattle.series_model.specs.Points.{points_from, starts_of};
ghost use Rattle.series_model.specs.Stored.{AreStoredSplits, oldest_key_of, split_at, split_span, splits_of, splits_until, stored_of};
ghost use Rattle.series_model.specs.Tail.{accepted_under};

use crate::points::{points_of, push_start};
use crate::rows::oldest_point;
use crate::series::series_of;
use crate::window::{accepted, latest_of};
use crate::{Batch, Measure, Point, Split};
use archive_policy::{Definition, Kind, Policy};
use gno_num::{GROUPS_PER_SPLIT, Memory, Span, Stamp, split_key};
use std::alloc::Global;

/// The stored splits of a policy's definition and kind after these batches, by key. `definition`
/// is the definition's place in the policy.
pub fn stored(
    alloc: Global,
    policy: &Policy,
    batches: &[Batch],
    definition: u8,
    kind: Kind,
) -> Result<Vec<Split>, Memory>
    requires { definition < length policy.now.definitions }
    ensures value { IfOk result (λ splits. (d : Definition) → slice_get policy.now.definitions definition ≡ Some d
        → splits.items ≡ stored_of kind d (accepted_under policy.now batches.now)) }
{
    let definitions = policy.definitions();
    let d = definitions[usize::from(definition)];
    let measures = accepted(alloc, policy, batches)?;
    stored_from(alloc, kind, d, measures.as_slice())
}

/// The stored splits of a definition and kind by all measures that were accepted.
pub fn stored_from(
    alloc: Global,
    kind: Kind,
    definition: Definition,
    accepted: &[Measure],
) -> Result<Vec<Split>, Memory>
    requires { IsGranularity definition.granularity }
    ensures value { IfOk result (λ splits. splits.items ≡ stored_of kind definition accepted.now) }
    ensures exact { IfOk result (λ splits. AreStoredSplits kind definition accepted.now splits.items) }
{
    match latest_of(accepted) {
        None => Ok(Vec::new(alloc)),
        Some(last) => {
            let series = series_of(alloc, accepted)?;
            splits_until(alloc, kind, &definition, series.as_slice(), last)
        }
    }
}

/// The splits of a series whose greatest timestamp is given, from the oldest key on.
fn splits_until(
    alloc: Global,
    kind: Kind,
    definition: &Definition,
    series: &[Measure],
    last: Stamp,
) -> Result<Vec<Split>, Memory>
    requires { IsGranularity definition.now.granularity }
    ensures { IfOk result (λ splits. splits.items ≡ splits_until kind definition.now series.now (Some last)) }
{
    let oldest = oldest_key(last, definition);
    let points = points_of(alloc, kind, definition.granularity, series)?;
    let kept = points_from(alloc, oldest, points.as_slice())?;
    splits_of(alloc, definition.granularity, kept.as_slice())
}

/// The key of the split that holds the oldest point to keep.
fn oldest_key(last: Stamp, definition: &Definition) -> Stamp
    requires { IsGranularity definition.now.granularity }
    ensures { result ≡ oldest_key_of last definition.now }
{
    let oldest = Stamp::of_nanos(oldest_point(last, definition)).unwrap();
    split_key(oldest, definition.granularity)
}

/// The points that aren't before a time.
fn points_from(alloc: Global, from: Stamp, points: &[Point]) -> Result<Vec<Point>, Memory>
    ensures { IfOk result (λ kept. kept.items ≡ points_from from points.now) }
{
    let mut kept = Vec::new(alloc);
    for p in points {
        if from.nanos() <= p.at.nanos() {
            kept.push(*p)?;
        }
    }
    Ok(kept)
}

/// The splits of points, by key.
fn splits_of(alloc: Global, granularity: Span, points: &[Point]) -> Result<Vec<Split>, Memory>
    requires { IsGranularity granularity }
    ensures { IfOk result (λ splits. splits.items ≡ splits_of granularity points.now) }
{
    let keys = keys_of(alloc, granularity, points)?;
    let mut splits = Vec::new(alloc);
    for key in keys.as_slice() {
        splits.push(split_at(alloc, granularity, points, *key)?)?;
    }
    Ok(splits)
}

/// The keys of the splits that points are in.
fn keys_of(alloc: Global, granularity: Span, points: &[Point]) -> Result<Vec<Stamp>, Memory>
    requires { IsGranularity granularity }
    ensures { IfOk result (λ keys. keys.items ≡ starts_of (split_span granularity) (map (λ p. p.at) points.now)) }
{
    let mut keys = Vec::new(alloc);
    for p in points {
        push_start(&mut keys, split_key(p.at, granularity))?;
    }
    Ok(keys)
}

/// The split with this key.
fn split_at(alloc: Global, granularity: Span, points: &[Point], key: Stamp) -> Result<Split, Memory>
    requires { IsGranularity granularity }
    ensures { IfOk result (λ split. split ≡ split_at granularity points.now key) }
{
    let mut own = Vec::new(alloc);
    for p in points {
        if is_in(p.at, key, granularity) {
            own.push(*p)?;
        }
    }
    Ok(Split::make(key, own))
}

/// Whether a time is in the stretch of the split with this key.
fn is_in(at: Stamp, key: Stamp, granularity: Span) -> bool
    requires { IsGranularity granularity }
    ensures { result ≡ (nat_le key at && nat_lt at (key + split_span granularity)) }
{
    key.nanos() <= at.nanos() && at.nanos() - key.nanos() < GROUPS_PER_SPLIT * granularity.nanos()
}
