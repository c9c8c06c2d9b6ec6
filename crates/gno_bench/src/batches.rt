// What the part `aggregate` works on.
ghost use Rattle.std.specs.Prelude.{◌≤◌, ◌<◌, ◌*◌, ◌^◌, All, IfOk, length, unsigned_abs};

use crate::draw::Draws;
use crate::stop::Stop;
use crate::values::value_of;
use archive_policy::{Kind, Name, Policy, Wanted};
use gno_num::{Memory, Span, Stamp};
use series_model::{Batch, Measure};
use std::alloc::Global;

const SEED: u64 = 6;

const FIRST_NANOS: u64 = 1_600_000_020_000_000_000;

const SECOND: u64 = 1_000_000_000;

const MINUTE: u64 = 60_000_000_000;

const SMALL: u64 = 1_000_000;

/// A policy of a day of minutes whose window is a thousand minutes.
pub fn policy_of(alloc: Global) -> Result<Policy, Stop> {
    let Ok(name) = Name::of(alloc, b"basic") else {
        return Err(Stop::Refused);
    };
    let wanted = [Wanted {
        granularity: Span::of_nanos(MINUTE),
        points: Some(1_440),
        timespan: None,
    }];
    match Policy::make(alloc, name, 1_000, &wanted, &[Kind::Mean]) {
        Ok(policy) => Ok(policy),
        Err(_) => Err(Stop::Refused),
    }
}

/// So many numbers of units.
pub fn units_of(alloc: Global, size: u64) -> Result<Vec<i64>, Memory>
    ensures small { IfOk result (λ made. All (λ value. unsigned_abs value ≤ 2 * 10 ^ 18) made.items) }
{
    let mut draws = Draws::new(SEED);
    let mut made = Vec::new(alloc);
    for _ in 0..size {
        made.push((draws.next() % SMALL) as i64)?;
    }
    Ok(made)
}

/// A batch of so many measures, a second apart and so much after whole seconds. The place of each is
/// its number times the stride, modulo the size.
pub fn batch_of(alloc: Global, size: u64, stride: u64, behind: u64) -> Result<Batch, Stop>
    requires size { size ≤ 50000 }
    requires stride { stride ≤ 10000 }
    requires behind { behind ≤ 10 ^ 9 }
{
    let mut draws = Draws::new(SEED);
    let mut measures = Vec::new(alloc);
    for i in 0..size {
        let seconds = i * stride % size;
        measures.push(measure_at(seconds, behind, draws.next()))?;
    }
    Batch::make(measures).map_err(|_| Stop::Refused)
}

fn measure_at(seconds: u64, behind: u64, drawn: u64) -> Measure
    requires seconds { seconds ≤ 50000 }
    requires behind { behind ≤ 10 ^ 9 }
{
    Measure {
        at: Stamp::of_nanos(FIRST_NANOS + seconds * SECOND + behind).unwrap(),
        value: value_of(drawn, false),
    }
}
