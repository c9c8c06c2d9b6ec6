// Summing up values, taking in batches, and grouping again.
ghost use Rattle.std.specs.Prelude.{◌≡◌, ◌≤◌, ◌*◌, ◌^◌, [], ◌∷◌, All, IfOk, length, unsigned_abs};
ghost use Rattle.bound_series.specs.Turn.{taken};
ghost use Rattle.gno_bench.specs.declared.outcome.Outcome.{Outcome};
ghost use Rattle.gno_bench.specs.Told.{outcomes_of};

use crate::batches::{batch_of, policy_of, units_of};
use crate::line::{Line, line_of};
use crate::outcome::{NOTHING, Outcome};
use crate::stop::Stop;
use crate::timing::timed;
use archive_policy::{Definition, Kind, Policy};
use bound_series::Raw;
use bucket_agg::Tally;
use gno_num::{Frac, Memory, Span, Stamp};
use regroup::changed;
use series_model::Batch;
use std::alloc::Global;

const MINUTE: u64 = 60_000_000_000;

const HALF_SECOND: u64 = 500_000_000;

const STRIDE: u64 = 7_919;

const FIRST_NANOS: u64 = 1_600_000_020_000_000_000;

const BYTES: u64 = 16;

const KINDS: [Kind; 8] = [
    Kind::Mean,
    Kind::Min,
    Kind::Max,
    Kind::Sum,
    Kind::Count,
    Kind::First,
    Kind::Last,
    Kind::Nunique,
];

/// The part `aggregate`: so many values are summed up for each kind, a batch of so many measures is
/// taken in by rising times and another one by mixed times among them, and the series of the first is
/// grouped again by minutes. All measures are taken in.
pub fn run(rt: &HostRuntime, size: u64, rounds: u64) -> Result<Vec<Line>, Stop>
    requires { size ≤ 50000 }
    ensures { IfOk result (λ lines. (summed : Outcome) × (risen : Outcome) × (mixed : Outcome)
        × (points : Outcome) × (summed.count ≤ 8) × (risen.count ≡ size) × (mixed.count ≡ size)
        × (outcomes_of lines.items ≡ summed ∷ risen ∷ mixed ∷ points ∷ [])) }
{
    let alloc = rt.alloc();
    let summed = tally_line(rt, size, rounds)?;
    let policy = policy_of(alloc)?;
    let (raw, risen) = rising(rt, &policy, size, rounds)?;
    let mixed = mixed_line(rt, &policy, &raw, size, rounds)?;
    let points = changed_line(rt, &raw, size, rounds)?;
    let mut lines = Vec::new(alloc);
    lines.push(summed)?;
    lines.push(risen)?;
    lines.push(mixed)?;
    lines.push(points)?;
    Ok(lines)
}

/// Takes in measures by rising times, and gives the kept values too.
fn rising(rt: &HostRuntime, policy: &Policy, size: u64, rounds: u64) -> Result<(Raw, Line), Stop>
    requires { size ≤ 50000 }
    ensures { IfOk result (λ done. done.1.outcome.count ≡ size) }
{
    let empty = Raw::empty(rt.alloc());
    let batch = batch_of(rt.alloc(), size, 1, 0)?;
    let done = timed(rt, rounds, || taken_in(&empty, policy, &batch))?;
    let nanos = done.nanos;
    let TakenIn { raw, outcome } = done.value;
    if outcome.count != size {
        return Err(Stop::Refused);
    }
    let line = line_of(
        rt,
        rounds,
        "accept_rising",
        outcome,
        size,
        size * BYTES,
        nanos,
    )?;
    Ok((raw, line))
}

/// Takes in measures by mixed times among others.
fn mixed_line(
    rt: &HostRuntime,
    policy: &Policy,
    raw: &Raw,
    size: u64,
    rounds: u64,
) -> Result<Line, Stop>
    requires { size ≤ 50000 }
    ensures { IfOk result (λ line. line.outcome.count ≡ size) }
{
    let batch = batch_of(rt.alloc(), size, STRIDE, HALF_SECOND)?;
    let done = timed(rt, rounds, || taken_in(raw, policy, &batch))?;
    let outcome = done.value.outcome;
    if outcome.count != size {
        return Err(Stop::Refused);
    }
    line_of(
        rt,
        rounds,
        "accept_mixed",
        outcome,
        size,
        size * BYTES,
        done.nanos,
    )
}

fn changed_line(rt: &HostRuntime, raw: &Raw, size: u64, rounds: u64) -> Result<Line, Stop>
    requires { size ≤ 50000 }
{
    let alloc = rt.alloc();
    let points = timed(rt, rounds, || Ok(regrouped(alloc, raw)?))?;
    line_of(
        rt,
        rounds,
        "changed",
        points.value,
        size,
        size * BYTES,
        points.nanos,
    )
}

fn tally_line(rt: &HostRuntime, size: u64, rounds: u64) -> Result<Line, Stop>
    requires { size ≤ 50000 }
    ensures { IfOk result (λ line. line.outcome.count ≤ 8) }
{
    let alloc = rt.alloc();
    let values = units_of(alloc, size)?;
    let summed = timed(rt, rounds, || Ok(sum_up(alloc, values.as_slice())?))?;
    line_of(
        rt,
        rounds,
        "tally",
        summed.value,
        size,
        size * 8,
        summed.nanos,
    )
}

/// The values of eight kinds by one tally: how many there are, and the sum of their numerators.
fn sum_up(alloc: Global, values: &[i64]) -> Result<Outcome, Memory>
    requires { All (λ value. unsigned_abs value ≤ 2 * 10 ^ 18) values.now }
    ensures { IfOk result (λ outcome. outcome.count ≤ 8) }
{
    let tally = Tally::of(alloc, values)?;
    let mut outcome = NOTHING;
    for kind in &KINDS {
        outcome = outcome.with(numerator(tally.value(*kind)));
    }
    Ok(outcome)
}

fn numerator(value: Option<Frac>) -> Option<u64> {
    match value {
        None => None,
        Some(value) => Some((value.num().unsigned_abs() % (1 << 64)) as u64),
    }
}

/// Kept values behind a turn, and how many measures it took in and how many points there are.
#[derive(Drop)]
struct TakenIn {
    raw: Raw,
    outcome: Outcome,
}

/// A batch's turn over a copy of kept values.
fn taken_in(before: &Raw, policy: &Policy, batch: &Batch) -> Result<TakenIn, Stop>
    ensures { IfOk result (λ done. done.outcome.count ≡ length (taken policy.now before.now batch.now)) }
{
    let mut raw = before.copy()?;
    let touched = raw.accept(policy, batch)?;
    let outcome = Outcome {
        count: touched.accepted,
        sum: raw.points().len() as u64,
    };
    Ok(TakenIn { raw, outcome })
}

/// The means of all minutes: how many there are, and the sum of their numerators.
fn regrouped(alloc: Global, raw: &Raw) -> Result<Outcome, Memory> {
    let definition = Definition {
        granularity: Span::of_nanos(MINUTE).unwrap(),
        points: 1_440,
    };
    let from = Stamp::of_nanos(FIRST_NANOS).unwrap();
    let points = changed(alloc, raw, from, &definition, Kind::Mean)?;
    let mut outcome = NOTHING;
    for point in points.as_slice() {
        outcome = outcome.with(numerator(Some(point.value)));
    }
    Ok(outcome)
}
