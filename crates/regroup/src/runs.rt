// The members of one bucket, and what they give.
ghost use Rattle.std.specs.Prelude.{◌≡◌, ◌≤◌, ◌<◌, ◌*◌, ◌^◌, ℕ, All, IfOk, length, map, slice_index_or, unsigned_abs, ◌-ℤ◌};
ghost use Rattle.series_model.specs.declared.measure.Measure.{Measure};
ghost use Rattle.regroup.specs.Tallies.{changes_behind};

use gno_num::Memory;
use series_model::Measure;
use std::alloc::Global;

/// Where the members from a place on that are before a time end.
pub fn run_end(members: &[Measure], from: usize, end: u64) -> usize
    requires { from ≤ length members.now }
    ensures after { from ≤ result }
    ensures inside { result ≤ length members.now }
    ensures before { (k : ℕ) (d : Measure) → from ≤ k → k < result → (slice_index_or members.now k d).at < end }
    ensures next { (d : Measure) → result < length members.now → end ≤ (slice_index_or members.now result d).at }
{
    let mut place = from;
    while place < members.len() && members[place].at.nanos() < end {
        place += 1;
    }
    place
}

/// The values of members, in order.
pub fn values_of(alloc: Global, run: &[Measure]) -> Result<Vec<i64>, Memory>
    ensures values { IfOk result (λ values. values.items ≡ map (λ m. m.value) run.now) }
    ensures small { IfOk result (λ values. All (λ value. unsigned_abs value ≤ 2 * 10 ^ 18) values.items) }
{
    let mut values = Vec::with_capacity(alloc, run.len())?;
    for m in run {
        values.push(m.value.units())?;
    }
    Ok(values)
}

/// The changes of members, in order: each less the one before it.
pub fn changes_of(
    alloc: Global,
    before: Option<Measure>,
    run: &[Measure],
) -> Result<Vec<i64>, Memory>
    ensures values { IfOk result (λ values. values.items ≡ map (λ m. m.value) (changes_behind before run.now)) }
    ensures small { IfOk result (λ values. All (λ value. unsigned_abs value ≤ 2 * 10 ^ 18) values.items) }
{
    let mut values = Vec::with_capacity(alloc, run.len())?;
    let mut previous = before;
    for m in run {
        if let Some(p) = previous {
            values.push(change(m, &p))?;
        }
        previous = Some(*m);
    }
    Ok(values)
}

/// The value of a member less that of another one.
fn change(m: &Measure, before: &Measure) -> i64
    ensures value { result ≡ m.now.value -ℤ before.now.value }
    ensures small { unsigned_abs result ≤ 2 * 10 ^ 18 }
{
    m.value.units() - before.value.units()
}
