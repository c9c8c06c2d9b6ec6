// One series put into another.
ghost use Rattle.std.specs.Prelude.{◌≡◌, ◌≢◌, ◌≤◌, ◌<◌, ◌++◌, ℕ, true, false, All, IfOk, OnOk, drop, fold, length, map, slice_index_or};
ghost use Rattle.std.specs.List.Sorted.{IsStrictlyIncreasing};
ghost use Rattle.series_model.specs.declared.measure.Measure.{Measure};
ghost use Rattle.series_model.specs.Series.{put};

use gno_num::{Memory, Stamp};
use series_model::Measure;
use std::alloc::Global;

/// Each measure of a series put in its place among others, instead of one of its time, in one pass
/// over both.
pub fn put_all(alloc: Global, old: &[Measure], new: &[Measure]) -> Result<Vec<Measure>, Memory>
    requires { IsStrictlyIncreasing (map (λ m. m.at) new.now) }
    ensures { IfOk result (λ merged. merged.items ≡ fold put old.now new.now) }
{
    let mut merged = Vec::with_capacity(alloc, old.len().saturating_add(new.len()))?;
    let mut place = 0;
    for m in new {
        place = put_next(old, place, m, &mut merged)?;
    }
    merged.extend_from_slice(&old[place..])?;
    Ok(merged)
}

/// Moves the members before a measure, and then the measure itself, which takes the place of one of
/// its time. Gives the place of what is left.
fn put_next(
    old: &[Measure],
    from: usize,
    m: &Measure,
    merged: &mut Vec<Measure>,
) -> Result<usize, Memory>
    requires { from ≤ length old.now }
    ensures inside { IfOk result (λ place. place ≤ length old.now) }
    ensures moved { IfOk result (λ place. merged.new.items ++ drop place old.now
        ≡ merged.old.items ++ put (drop from old.now) m.now) }
    ensures before { OnOk result (All (λ x. x.at < m.now.at) merged.old.items
        → All (λ x. x.at ≤ m.now.at) merged.new.items) }
{
    let place = end_before(old, from, m.at.nanos());
    merged.extend_from_slice(&old[from..place])?;
    merged.push(*m)?;
    if is_at(old, place, m.at) {
        return Ok(place + 1);
    }
    Ok(place)
}

/// Where the members from a place on that are before a time end.
pub fn end_before(series: &[Measure], from: usize, at: u64) -> usize
    requires { from ≤ length series.now }
    ensures after { from ≤ result }
    ensures inside { result ≤ length series.now }
    ensures before { (k : ℕ) (d : Measure) → from ≤ k → k < result → (slice_index_or series.now k d).at < at }
    ensures next { (d : Measure) → result < length series.now → at ≤ (slice_index_or series.now result d).at }
{
    let mut place = from;
    while place < series.len() && series[place].at.nanos() < at {
        place += 1;
    }
    place
}

/// Whether the member at a place has this time.
fn is_at(series: &[Measure], place: usize, at: Stamp) -> bool
    ensures found { result ≡ true → (place < length series.now) × ((d : Measure) → (slice_index_or series.now place d).at ≡ at) }
    ensures missing { result ≡ false → (d : Measure) → place < length series.now → (slice_index_or series.now place d).at ≢ at }
{
    place < series.len() && series[place].at.nanos() == at.nanos()
}
