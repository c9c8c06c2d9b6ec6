// Values of buckets.
ghost use Rattle.std.specs.Prelude.{◌≡◌, ◌+◌, ◌<◌, ◌≤◌, ◌*◌, ◌^◌, ◌++◌, ◌&&◌, nat_le, nat_lt, ℕ, IfOk, IfSome, length, slice_get, take, unsigned_abs};
ghost use Rattle.std.specs.Option.{option_map, option_to_list};
ghost use Rattle.series_model.specs.Bucket.{members_for, value_at, values_in};
ghost use Rattle.series_model.specs.declared.measure.Measure.{Measure};

use crate::Measure;
use crate::kinds::value_of;
use archive_policy::Kind;
use gno_num::{Frac, Memory, Span};
use std::alloc::Global;

/// The value of the bucket that begins at this time, where it has one.
pub fn bucket_value(
    alloc: Global,
    kind: Kind,
    granularity: Span,
    series: &[Measure],
    start: u64,
) -> Result<Option<Frac>, Memory>
    requires { start < 9 * 10 ^ 18 }
    ensures { IfOk result (λ value. value ≡ value_at kind granularity series.now start) }
{
    let end = start + granularity.nanos();
    let mut values = Vec::new(alloc);
    for i in 0..series.len() {
        if let Some(value) = value_in(kind, series, i, start, end) {
            values.push(value)?;
        }
    }
    Ok(value_of(kind, values.as_slice()))
}

/// What the kind is taken of at a member, where it is in the bucket.
fn value_in(kind: Kind, series: &[Measure], i: usize, start: u64, end: u64) -> Option<i64>
    requires { i < length series.now }
    ensures small { IfSome result (λ value. unsigned_abs value ≤ 2 * 10 ^ 18) }
    ensures value { (granularity : ℕ) → end ≡ start + granularity
        → values_in kind granularity (take (i + 1) series.now) start
        ≡ values_in kind granularity (take i series.now) start ++ option_to_list result }
{
    let value = value_for(kind, series, i);
    if is_in(&series[i], start, end) {
        value
    } else {
        None
    }
}

/// Whether the measure isn't before the start, and is before the end.
fn is_in(m: &Measure, start: u64, end: u64) -> bool
    ensures { result ≡ (nat_le start m.now.at && nat_lt m.now.at end) }
{
    start <= m.at.nanos() && m.at.nanos() < end
}

/// What the kind is taken of at a member: its change for a rate, else its value. The first member
/// has no change.
fn value_for(kind: Kind, series: &[Measure], i: usize) -> Option<i64>
    requires { i < length series.now }
    ensures small { IfSome result (λ value. unsigned_abs value ≤ 2 * 10 ^ 18) }
    ensures value { (m : Measure) → slice_get series.now i ≡ Some m
        → members_for kind (take (i + 1) series.now) ≡ members_for kind (take i series.now)
        ++ option_to_list (option_map (λ value. record { at = m.at; value = value }) result) }
{
    let value = series[i].value.units();
    if !kind.is_rate() {
        return Some(value);
    }
    if i == 0 {
        return None;
    }
    Some(value - series[i - 1].value.units())
}
