// Points cut into splits.
ghost use Rattle.std.specs.Prelude.{◌≡◌, ◌≤◌, ◌<◌, ◌+◌, ◌*◌, ◌^◌, All, IfOk, length, map, take, drop};
ghost use Rattle.std.specs.List.Sorted.{IsStrictlyIncreasing};
ghost use Rattle.archive_policy.specs.Policies.{IsGranularity};
ghost use Rattle.series_model.specs.Stored.{splits_of};

use gno_num::{GROUPS_PER_SPLIT, Memory, Span, split_key};
use series_model::{Point, Split};
use std::alloc::Global;

/// The splits of points by rising time. The points of each are copied at once.
pub fn cut_splits(alloc: Global, points: &[Point], granularity: Span) -> Result<Vec<Split>, Memory>
    requires granularity { IsGranularity granularity }
    requires rising { IsStrictlyIncreasing (map (λ p. p.at) points.now) }
    ensures { IfOk result (λ splits. splits.items ≡ splits_of granularity points.now) }
{
    let mut splits = Vec::new(alloc);
    let mut place = 0;
    while place < points.len() {
        let key = split_key(points[place].at, granularity);
        let end = key.nanos() + GROUPS_PER_SPLIT * granularity.nanos();
        let rest = rest_of(points, place);
        let count = count_before(rest, end);
        let own = Vec::from_slice(alloc, &rest[..count])?;
        splits.push(Split::make(key, own))?;
        place += count;
    }
    Ok(splits)
}

/// How many points are before a time. They are looked for by halves.
pub fn count_before(points: &[Point], time: u64) -> usize
    requires { IsStrictlyIncreasing (map (λ p. p.at) points.now) }
    ensures within { result ≤ length points.now }
    ensures before { All (λ p. p.at < time) (take result points.now) }
    ensures behind { All (λ p. time ≤ p.at) (drop result points.now) }
{
    points.partition_point(|p| p.at.nanos() < time)
}

/// The points from a place on.
pub fn rest_of(points: &[Point], place: usize) -> &[Point]
    requires { place ≤ length points.now }
    ensures { result.now ≡ drop place points.now }
{
    &points[place..]
}
