// Reading and printing values.
ghost use Rattle.std.specs.Prelude.{◌≡◌, ℤ, List, [], ◌∷◌, IfOk, length, map};
ghost use Rattle.std.specs.List.{flat_map};
ghost use Rattle.gno_num.specs.Text.{units_text};
ghost use Rattle.gno_bench.specs.Outcome.{texts_of, told_by, told_by_text};
ghost use Rattle.gno_bench.specs.Told.{magnitude_told, outcomes_of};

use crate::draw::Draws;
use crate::line::{Line, line_of};
use crate::outcome::{NOTHING, Outcome};
use crate::stop::Stop;
use crate::timing::timed;
use gno_num::{Memory, Value, read_value, value_text};
use std::alloc::Global;

const SEED: u64 = 1;

const THOUSANDTHS: u64 = 1_000_000_000;

const UNITS: i64 = 1_000;

/// The part `values`: so many values of three decimals are read and printed. All of them are read.
pub fn run(rt: &HostRuntime, size: u64, rounds: u64) -> Result<Vec<Line>, Stop>
    ensures { IfOk result (λ lines. (values : List ℤ) × (length values ≡ size)
        × ((told_by magnitude_told (map units_text values)).count ≡ size)
        × (outcomes_of lines.items ≡ told_by magnitude_told (map units_text values)
        ∷ told_by_text (flat_map units_text values) ∷ [])) }
{
    let alloc = rt.alloc();
    let values = make(alloc, size)?;
    let tokens = tokens_of(alloc, values.as_slice())?;
    let read = timed(rt, rounds, || Ok(read(tokens.as_slice())))?;
    if read.value.count != size {
        return Err(Stop::Refused);
    }
    let printed = timed(rt, rounds, || Ok(print(alloc, values.as_slice())?))?;
    let bytes = printed.value.len() as u64;
    let mut lines = Vec::new(alloc);
    lines.push(line_of(
        rt,
        rounds,
        "read_value",
        read.value,
        size,
        bytes,
        read.nanos,
    )?)?;
    let text = Outcome::of_text(printed.value.as_slice());
    lines.push(line_of(rt, rounds, "value_text", text, size, bytes, printed.nanos)?)?;
    Ok(lines)
}

/// So many values, every second of them below 0.
fn make(alloc: Global, size: u64) -> Result<Vec<Value>, Memory>
    ensures { IfOk result (λ values. length values.items ≡ size) }
{
    let mut draws = Draws::new(SEED);
    let mut values = Vec::new(alloc);
    for i in 0..size {
        values.push(value_of(draws.next(), i % 2 == 1))?;
    }
    Ok(values)
}

/// A value of three decimals below 10^6, or above -10^6.
pub fn value_of(drawn: u64, negative: bool) -> Value {
    let units = (drawn % THOUSANDTHS) as i64 * UNITS;
    let signed = if negative { -units } else { units };
    Value::of_units(signed).unwrap()
}

/// The texts of values.
fn tokens_of(alloc: Global, values: &[Value]) -> Result<Vec<Vec<u8>>, Memory>
    ensures { IfOk result (λ tokens. texts_of tokens.items ≡ map units_text values.now) }
{
    let mut tokens = Vec::new(alloc);
    for value in values {
        let mut token = Vec::new(alloc);
        value_text(*value, &mut token)?;
        tokens.push(token)?;
    }
    Ok(tokens)
}

/// How many tokens are values, and the sum of their magnitudes in units.
#[tactic(auto, using(crate::proofs::Outcomes::text_step, crate::proofs::Outcomes::told_at_most))]
fn read(tokens: &[Vec<u8>]) -> Outcome
    ensures { result ≡ told_by magnitude_told (texts_of tokens.now) }
{
    let mut outcome = NOTHING;
    for token in tokens {
        outcome = outcome.with(magnitude(token));
    }
    outcome
}

fn magnitude(token: &[u8]) -> Option<u64>
    ensures { result ≡ magnitude_told token.now }
{
    match read_value(token) {
        Ok(value) => Some(value.units().unsigned_abs()),
        Err(_) => None,
    }
}

/// The texts of values, one behind the other.
fn print(alloc: Global, values: &[Value]) -> Result<Vec<u8>, Memory>
    ensures { IfOk result (λ text. text.items ≡ flat_map units_text values.now) }
{
    let mut text = Vec::new(alloc);
    for value in values {
        value_text(*value, &mut text)?;
    }
    Ok(text)
}
