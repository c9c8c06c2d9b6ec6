// Free ranges, each as its place with its length, by rising place.
ghost use Rattle.std.specs.Prelude.{◌≡◌, ◌≢◌, ℕ, ◌+◌, ◌-◌, ◌^◌, ◌<◌, ◌≤◌, ◌⊎◌, ◌∷◌, ◌++◌, All, AllPairs, OnOk, OnErr, IfSome, IfNone, IsSomeAnd, Some, length, slice_get, take, drop, vec_len, vec_capacity};
ghost use Rattle.extent_map.specs.Edits.{Cuts, Joins};
ghost use Rattle.extent_map.specs.Extents.{without_front};
ghost use Rattle.extent_map.specs.Ranges.{AreFreeRanges, EndsBefore};

use gno_num::Memory;

/// How many ranges end before a place, and don't touch it.
pub(crate) fn count_before(free: &[(u64, u64)], place: u64) -> usize
    requires { AllPairs EndsBefore free.now }
    ensures within { result ≤ length free.now }
    ensures before { All (λ r. r.0 + r.1 < place) (take result free.now) }
    ensures behind { All (λ r. place ≤ r.0 + r.1) (drop result free.now) }
{
    free.partition_point(|r| r.1 < place.saturating_sub(r.0))
}

/// Adds a range that overlaps none, joined with those that it touches.
pub(crate) fn join(free: &mut Vec<(u64, u64)>, at: u64, len: u64) -> Result<(), Memory>
    requires form { AreFreeRanges (2 ^ 64 - 1) free.old.items }
    requires filled { 0 < len }
    requires fits { at + len < 2 ^ 64 }
    requires outside { All (λ r. (r.0 + r.1 ≤ at) ⊎ (at + len ≤ r.0)) free.old.items }
    ensures ok { OnOk result (Joins (record { 0 = at; 1 = len }) free.old.items free.new.items) }
    ensures len { vec_len free.new ≤ vec_len free.old + 1 }
    ensures capacity { vec_capacity free.old ≤ vec_capacity free.new }
    ensures err { OnErr result ((free.new.items ≡ free.old.items) × (vec_capacity free.new ≡ vec_capacity free.old)) }
    ensures full { OnErr result (vec_capacity free.old ≤ vec_len free.old) }
{
    let stop = at + len;
    let i = count_before(free, at);
    match ending_at(free, i, at) {
        Some(before) => match beginning_at(free, i + 1, stop) {
            Some(behind) => put_for_two(free, i, (before.0, before.1 + len + behind.1)),
            None => put(free, i, (before.0, before.1 + len)),
        },
        None => match beginning_at(free, i, stop) {
            Some(behind) => put(free, i, (at, len + behind.1)),
            None => insert(free, i, (at, len))?,
        },
    }
    Ok(())
}

/// The range of an index, where it ends at a place.
fn ending_at(free: &[(u64, u64)], i: usize, place: u64) -> Option<(u64, u64)>
    ensures some { IfSome result (λ r. (slice_get free.now i ≡ Some r) × (r.0 + r.1 ≡ place)) }
    ensures none { IfNone result ((r : ℕ × ℕ) → slice_get free.now i ≡ Some r → r.0 + r.1 ≢ place) }
{
    let range = *free.get(i)?;
    if range.0 <= place && place - range.0 == range.1 {
        Some(range)
    } else {
        None
    }
}

/// The range of an index, where it begins at a place.
fn beginning_at(free: &[(u64, u64)], i: usize, place: u64) -> Option<(u64, u64)>
    ensures some { IfSome result (λ r. (slice_get free.now i ≡ Some r) × (r.0 ≡ place)) }
    ensures none { IfNone result ((r : ℕ × ℕ) → slice_get free.now i ≡ Some r → r.0 ≢ place) }
{
    let range = *free.get(i)?;
    if range.0 == place { Some(range) } else { None }
}

/// Takes places at the front of a range, which goes where nothing is left of it.
pub(crate) fn cut_front(free: &mut Vec<(u64, u64)>, i: usize, len: u64)
    requires { IsSomeAnd (slice_get free.old.items i) (λ r. (len ≤ r.1) × (r.0 + r.1 < 2 ^ 64)) }
    ensures items { IsSomeAnd (slice_get free.old.items i) (λ r. free.new.items ≡ take i free.old.items ++ (without_front len r ++ drop (i + 1) free.old.items)) }
    ensures len { vec_len free.new ≤ vec_len free.old }
    ensures capacity { vec_capacity free.new ≡ vec_capacity free.old }
{
    let range = free[i];
    if len < range.1 {
        put(free, i, (range.0 + len, range.1 - len));
    } else {
        free.remove(i);
    }
}

/// Takes places of a range, so that what stands before them and behind them in it stays free.
pub(crate) fn cut(free: &mut Vec<(u64, u64)>, i: usize, at: u64, len: u64) -> Result<(), Memory>
    requires there { IsSomeAnd (slice_get free.old.items i) (λ r. (r.0 ≤ at) × (at + len ≤ r.0 + r.1) × (r.0 + r.1 < 2 ^ 64)) }
    requires filled { 0 < len }
    requires apart { AllPairs EndsBefore free.old.items }
    ensures ok { OnOk result (Cuts (record { 0 = at; 1 = len }) free.old.items free.new.items) }
    ensures len { vec_len free.new ≤ vec_len free.old + 1 }
    ensures capacity { vec_capacity free.old ≤ vec_capacity free.new }
    ensures err { OnErr result ((free.new.items ≡ free.old.items) × (vec_capacity free.new ≡ vec_capacity free.old)) }
    ensures full { OnErr result (vec_capacity free.old ≤ vec_len free.old) }
{
    let range = free[i];
    if range.0 == at {
        cut_front(free, i, len);
        return Ok(());
    }
    cut_behind(free, i, range, at, len)
}

/// Takes places of a range behind its front.
fn cut_behind(
    free: &mut Vec<(u64, u64)>,
    i: usize,
    range: (u64, u64),
    at: u64,
    len: u64,
) -> Result<(), Memory>
    requires there { slice_get free.old.items i ≡ Some range }
    requires low { range.0 < at }
    requires high { at + len ≤ range.0 + range.1 }
    requires fits { range.0 + range.1 < 2 ^ 64 }
    requires filled { 0 < len }
    requires apart { AllPairs EndsBefore free.old.items }
    ensures ok { OnOk result (Cuts (record { 0 = at; 1 = len }) free.old.items free.new.items) }
    ensures len { vec_len free.new ≤ vec_len free.old + 1 }
    ensures capacity { vec_capacity free.old ≤ vec_capacity free.new }
    ensures err { OnErr result ((free.new.items ≡ free.old.items) × (vec_capacity free.new ≡ vec_capacity free.old)) }
    ensures full { OnErr result (vec_capacity free.old ≤ vec_len free.old) }
{
    let before = (range.0, at - range.0);
    let stop = at + len;
    let behind = range.0 + range.1 - stop;
    if behind == 0 {
        put(free, i, before);
        return Ok(());
    }
    put_two(free, i, before, (stop, behind))
}

/// A range in place of another.
fn put(free: &mut Vec<(u64, u64)>, i: usize, range: (u64, u64))
    requires { i < length free.old.items }
    ensures items { free.new.items ≡ take i free.old.items ++ range ∷ drop (i + 1) free.old.items }
    ensures len { vec_len free.new ≡ vec_len free.old }
    ensures capacity { vec_capacity free.new ≡ vec_capacity free.old }
{
    free[i] = range;
}

/// A range in place of two others.
fn put_for_two(free: &mut Vec<(u64, u64)>, i: usize, range: (u64, u64))
    requires { i + 1 < length free.old.items }
    ensures items { free.new.items ≡ take i free.old.items ++ range ∷ drop (i + 2) free.old.items }
    ensures len { vec_len free.new ≤ vec_len free.old }
    ensures capacity { vec_capacity free.new ≡ vec_capacity free.old }
{
    free.remove(i);
    put(free, i, range);
}

/// A range before another, or at the end.
fn insert(free: &mut Vec<(u64, u64)>, i: usize, range: (u64, u64)) -> Result<(), Memory>
    requires { i ≤ length free.old.items }
    ensures ok { OnOk result (free.new.items ≡ take i free.old.items ++ range ∷ drop i free.old.items) }
    ensures len { vec_len free.new ≤ vec_len free.old + 1 }
    ensures capacity { vec_capacity free.old ≤ vec_capacity free.new }
    ensures err { OnErr result ((free.new.items ≡ free.old.items) × (vec_capacity free.new ≡ vec_capacity free.old)) }
    ensures full { OnErr result (vec_capacity free.old ≤ vec_len free.old) }
{
    free.reserve(1)?;
    let _ = free.insert(i, range);
    Ok(())
}

/// Two ranges in place of another.
fn put_two(
    free: &mut Vec<(u64, u64)>,
    i: usize,
    first: (u64, u64),
    second: (u64, u64),
) -> Result<(), Memory>
    requires { i < length free.old.items }
    ensures ok { OnOk result (free.new.items ≡ take i free.old.items ++ first ∷ second ∷ drop (i + 1) free.old.items) }
    ensures len { vec_len free.new ≤ vec_len free.old + 1 }
    ensures capacity { vec_capacity free.old ≤ vec_capacity free.new }
    ensures err { OnErr result ((free.new.items ≡ free.old.items) × (vec_capacity free.new ≡ vec_capacity free.old)) }
    ensures full { OnErr result (vec_capacity free.old ≤ vec_len free.old) }
{
    insert(free, i + 1, second)?;
    put(free, i, first);
    Ok(())
}
