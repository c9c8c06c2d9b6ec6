// The splits that stay, and those that are made.
ghost use Rattle.std.specs.Prelude.{◌≡◌, ◌≤◌, ◌<◌, ◌-◌, ◌++◌, ◌%◌, ◌*◌, ◌^◌, All, IfOk, IfSome, List, ℕ, length, map, take, drop};
ghost use Rattle.std.specs.List.Sorted.{IsStrictlyIncreasing};
ghost use Rattle.gno_num.specs.Floor.{split_key_of};
ghost use Rattle.archive_policy.specs.Policies.{IsGranularity};
ghost use Rattle.series_model.specs.declared.point.Split.{Split};
ghost use Rattle.series_model.specs.Stored.{split_span};
ghost use Rattle.bound_series.specs.Jobs.{AreNew};
ghost use Rattle.split_update.specs.Update.{AreSplits, IsInStretch, points_before, points_since, splits_from, splits_kept, splits_made};

use crate::cut::{count_before, cut_splits, rest_of};
use gno_num::{Memory, Span, Stamp, floor, split_key};
use series_model::{Point, Split};
use std::alloc::Global;

/// Which of the old splits stay: those from the first place on, before the other.
#[derive(Clone, Copy, Debug, PartialEq, Eq)]
pub struct Kept {
    pub first: usize,
    pub until: usize,
}

/// Which of the old splits stay, by their keys: those before the split that holds the least timestamp
/// that a turn accepted, where it accepted one, and not before the oldest key. It takes no memory.
pub fn kept_places(
    keys: &[Stamp],
    granularity: Span,
    oldest: Option<Stamp>,
    from: Option<Stamp>,
) -> Kept
    requires rising { IsStrictlyIncreasing keys.now }
    requires granularity { IsGranularity granularity }
    ensures within { (result.first ≤ result.until) × (result.until ≤ length keys.now) }
    ensures kept { (old : List Split) → keys.now ≡ map (λ s. s.key) old
        → drop result.first (take result.until old) ≡ splits_from oldest (splits_kept granularity from old) }
    ensures early { IfSome from (λ at. All (λ key. key < split_key_of at granularity) (take result.until keys.now)) }
{
    let until = match from {
        None => keys.len(),
        Some(at) => keys_before(keys, split_key(at, granularity)),
    };
    let first = match oldest {
        None => 0,
        Some(key) => keys_before(&keys[..until], key),
    };
    Kept { first, until }
}

/// How many keys are before one. They are looked for by halves.
fn keys_before(keys: &[Stamp], key: Stamp) -> usize
    requires { IsStrictlyIncreasing keys.now }
    ensures within { result ≤ length keys.now }
    ensures before { All (λ k. k < key) (take result keys.now) }
    ensures behind { All (λ k. key ≤ k) (drop result keys.now) }
{
    keys.partition_point(|k| k.nanos() < key.nanos())
}

/// The splits that a turn makes: of its new points, in front of them those points of the old split that
/// holds its least timestamp which are before the timestamp's bucket. None is before the oldest key.
pub fn made_splits(
    alloc: Global,
    granularity: Span,
    oldest: Option<Stamp>,
    from: Option<Stamp>,
    points: &[Point],
    touched: &[Point],
) -> Result<Vec<Split>, Memory>
    requires granularity { IsGranularity granularity }
    requires oldest { IfSome oldest (λ key. key % split_span granularity ≡ 0) }
    requires new { AreNew granularity from points.now }
    requires rising { IsStrictlyIncreasing (map (λ p. p.at) touched.now) }
    requires touched { IfSome from (λ at. All (IsInStretch granularity (split_key_of at granularity)) touched.now) }
    ensures made { IfOk result (λ splits. splits.items
        ≡ splits_from oldest (splits_made granularity from points.now touched.now)) }
    ensures formed { IfOk result (λ splits. AreSplits granularity splits.items) }
    ensures late { IfOk result (λ splits. IfSome from
        (λ at. All (λ s. split_key_of at granularity ≤ s.key) splits.items)) }
{
    let Some(from) = from else {
        return Ok(Vec::new(alloc));
    };
    let merged = merged_points(alloc, touched, floor(from, granularity), points)?;
    cut_splits(alloc, points_since(&merged, oldest), granularity)
}

/// The points of a split that are before a time, and the new points behind them.
fn merged_points(
    alloc: Global,
    touched: &[Point],
    until: Stamp,
    points: &[Point],
) -> Result<Vec<Point>, Memory>
    requires { IsStrictlyIncreasing (map (λ p. p.at) touched.now) }
    ensures { IfOk result (λ merged. merged.items ≡ points_before until touched.now ++ points.now) }
{
    let early = &touched[..count_before(touched, until.nanos())];
    let mut merged = Vec::with_capacity(alloc, early.len().saturating_add(points.len()))?;
    merged.extend_from_slice(early)?;
    merged.extend_from_slice(points)?;
    Ok(merged)
}

/// The points that aren't before the oldest key, where there is one.
fn points_since(points: &[Point], oldest: Option<Stamp>) -> &[Point]
    requires { IsStrictlyIncreasing (map (λ p. p.at) points.now) }
    ensures { result.now ≡ points_since oldest points.now }
{
    match oldest {
        None => points,
        Some(key) => rest_of(points, count_before(points, key.nanos())),
    }
}
