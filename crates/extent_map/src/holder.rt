// Free ranges that are looked for.
ghost use Rattle.std.specs.Prelude.{◌≡◌, ℕ, ◌+◌, ◌<◌, ◌≤◌, min, nat_le, All, IfSome, IfNone, IsSomeAnd, position, slice_get};
ghost use Rattle.extent_map.specs.Ranges.{AreFreeRanges, LiesOutside};

use crate::ranges::count_before;

/// The first range that has so many places.
pub(crate) fn first_fit(free: &[(u64, u64)], len: u64) -> Option<usize>
    ensures first { result ≡ position (λ r. nat_le len r.1) free.now }
    ensures fits { IfSome result (λ i. IsSomeAnd (slice_get free.now i) (λ r. len ≤ r.1)) }
{
    free.iter().position(|r| len <= r.1)
}

/// The free range that holds the places from one on, up to another or up to the end.
pub(crate) fn holder(free: &[(u64, u64)], end: u64, at: u64, stop: u64) -> Option<usize>
    requires form { AreFreeRanges end free.now }
    requires below { at < end }
    requires filled { at < stop }
    ensures some { IfSome result (λ i. IsSomeAnd (slice_get free.now i) (λ r. (r.0 ≤ at) × (min stop end ≤ r.0 + r.1))) }
    ensures none { IfNone result ((place : ℕ) × (at ≤ place) × (place < min stop end) × All (LiesOutside place) free.now) }
{
    let i = count_before(free, at + 1);
    let range = range_at(free, i)?;
    if at < range.0 {
        return None;
    }
    if range.0 + range.1 < stop.min(end) {
        return None;
    }
    Some(i)
}

/// The range of an index.
fn range_at(free: &[(u64, u64)], i: usize) -> Option<(u64, u64)>
    ensures { result ≡ slice_get free.now i }
{
    free.get(i).copied()
}
