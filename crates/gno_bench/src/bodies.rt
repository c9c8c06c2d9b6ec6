// Reading bodies of measures.
ghost use Rattle.std.specs.Prelude.{◌≡◌, ℕ, List, [], ◌∷◌, ◌+◌, ◌<◌, ◌^◌, ◌*◌, Some, unsigned_abs, IfOk, length};
ghost use Rattle.series_model.specs.declared.measure.Measure.{Measure};
ghost use Rattle.measure_json.specs.Grammar.{IsMeasures};
ghost use Rattle.gno_bench.specs.Outcome.{told_by};
ghost use Rattle.gno_bench.specs.Told.{measure_told, outcomes_of};

use crate::draw::Draws;
use crate::line::{Line, line_of};
use crate::outcome::{NOTHING, Outcome};
use crate::stamps::stamp_of;
use crate::stop::Stop;
use crate::timing::timed;
use crate::values::value_of;
use gno_num::{Memory, value_text};
use measure_json::{BodyFault, read_measures};
use series_model::{Batch, Measure};
use std::alloc::Global;

const SEED: u64 = 4;

const NANOS_PER_SECOND: u64 = 1_000_000_000;

/// The part `json`: a body of so many measures, of whole seconds and three decimals, is read.
pub fn run(rt: &HostRuntime, size: u64, rounds: u64) -> Result<Vec<Line>, Stop>
    ensures { IfOk result (λ lines. (body : List ℕ) × (measures : List Measure) × (IsMeasures body measures)
        × (length measures ≡ size)
        × (outcomes_of lines.items ≡ told_by measure_told measures ∷ [])) }
{
    let alloc = rt.alloc();
    let body = make(alloc, size)?;
    let batch = timed(rt, rounds, || read(alloc, body.as_slice()))?;
    let measures = batch.value.measures();
    if measures.len() as u64 != size {
        return Err(Stop::Refused);
    }
    let bytes = body.len() as u64;
    let mut lines = Vec::new(alloc);
    lines.push(line_of(
        rt,
        rounds,
        "read_measures",
        outcome_of(measures),
        size,
        bytes,
        batch.nanos,
    )?)?;
    Ok(lines)
}

/// `[{"timestamp":1600000000,"value":0.5},..]`
fn make(alloc: Global, size: u64) -> Result<Vec<u8>, Memory> {
    let mut draws = Draws::new(SEED);
    let mut body = Vec::new(alloc);
    body.push(b'[')?;
    for i in 0..size {
        if i > 0 {
            body.push(b',')?;
        }
        let at = draws.next();
        add_measure(at, draws.next(), &mut body)?;
    }
    body.push(b']')?;
    Ok(body)
}

fn add_measure(at: u64, value: u64, body: &mut Vec<u8>) -> Result<(), Memory> {
    let seconds = stamp_of(at).nanos() / NANOS_PER_SECOND;
    let start = format!(in *body.allocator(); "{{\"timestamp\":{seconds},\"value\":")?;
    body.extend_from_slice(start.as_bytes())?;
    value_text(value_of(value, false), body)?;
    body.push(b'}')?;
    Ok(())
}

fn read(alloc: Global, body: &[u8]) -> Result<Batch, Stop>
    ensures { IfOk result (IsMeasures body.now) }
{
    match read_measures(alloc, body) {
        Ok(batch) => Ok(batch),
        Err(BodyFault::Memory) => Err(Stop::Memory),
        Err(_) => Err(Stop::Refused),
    }
}

/// How many measures there are, and the sum of their nanoseconds and units.
#[tactic(auto, using(crate::proofs::Outcomes::told_step, crate::proofs::Outcomes::told_at_most))]
fn outcome_of(measures: &[Measure]) -> Outcome
    ensures { result ≡ told_by measure_told measures.now }
{
    let mut outcome = NOTHING;
    for m in measures {
        outcome = outcome.with(told(m));
    }
    outcome
}

fn told(m: &Measure) -> Option<u64>
    ensures { result ≡ measure_told m.now }
{
    Some(m.at.nanos() + m.value.units().unsigned_abs())
}
