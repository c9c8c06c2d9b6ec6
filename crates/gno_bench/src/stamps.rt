// Reading and printing times.
ghost use Rattle.std.specs.Prelude.{◌≡◌, ℕ, List, [], ◌∷◌, ◌/◌, ◌^◌, IfOk, length, map};
ghost use Rattle.std.specs.List.{flat_map};
ghost use Rattle.std.specs.Fmt.{decimal};
ghost use Rattle.gno_time.specs.Text.{stamp_text_of};
ghost use Rattle.gno_bench.specs.Outcome.{texts_of, told_by, told_by_text};
ghost use Rattle.gno_bench.specs.Told.{nanos_told, seconds_token, outcomes_of};

use crate::draw::Draws;
use crate::line::{Line, line_of};
use crate::outcome::{NOTHING, Outcome};
use crate::stop::Stop;
use crate::timing::timed;
use gno_num::{Memory, Stamp};
use gno_time::{read_stamp, stamp_text};
use std::alloc::Global;

const SEED: u64 = 2;

const FIRST_SECOND: u64 = 1_600_000_000;

const SECONDS: u64 = 100_000_000;

const NANOS_PER_SECOND: u64 = 1_000_000_000;

/// The part `stamps`: so many times of whole seconds are read as numbers, printed as dates, and the
/// dates are read. All of them are read.
pub fn run(rt: &HostRuntime, size: u64, rounds: u64) -> Result<Vec<Line>, Stop>
    ensures { IfOk result (λ lines. (stamps : List ℕ) × (length stamps ≡ size)
        × ((told_by nanos_told (map seconds_token stamps)).count ≡ size)
        × ((told_by nanos_told (map stamp_text_of stamps)).count ≡ size)
        × (outcomes_of lines.items ≡ told_by nanos_told (map seconds_token stamps)
        ∷ told_by_text (flat_map stamp_text_of stamps)
        ∷ told_by nanos_told (map stamp_text_of stamps) ∷ [])) }
{
    let alloc = rt.alloc();
    let stamps = make(alloc, size)?;
    let numbers = numbers_of(alloc, stamps.as_slice())?;
    let dates = dates_of(alloc, stamps.as_slice())?;
    let seconds = timed(rt, rounds, || Ok(read(numbers.as_slice())))?;
    let printed = timed(rt, rounds, || Ok(print(alloc, stamps.as_slice())?))?;
    let read = timed(rt, rounds, || Ok(read(dates.as_slice())))?;
    if seconds.value.count != size || read.value.count != size {
        return Err(Stop::Refused);
    }
    let text = Outcome::of_text(printed.value.as_slice());
    let bytes = printed.value.len() as u64;
    let digits = size * 10;
    let mut lines = Vec::new(alloc);
    lines.push(line_of(
        rt,
        rounds,
        "read_seconds",
        seconds.value,
        size,
        digits,
        seconds.nanos,
    )?)?;
    lines.push(line_of(rt, rounds, "stamp_text", text, size, bytes, printed.nanos)?)?;
    lines.push(line_of(rt, rounds, "read_date", read.value, size, bytes, read.nanos)?)?;
    Ok(lines)
}

/// So many times.
fn make(alloc: Global, size: u64) -> Result<Vec<Stamp>, Memory>
    ensures { IfOk result (λ stamps. length stamps.items ≡ size) }
{
    let mut draws = Draws::new(SEED);
    let mut stamps = Vec::new(alloc);
    for _ in 0..size {
        stamps.push(stamp_of(draws.next()))?;
    }
    Ok(stamps)
}

/// A time of whole seconds, from 1,600,000,000 on and before 1,700,000,000.
pub fn stamp_of(drawn: u64) -> Stamp {
    let seconds = FIRST_SECOND + drawn % SECONDS;
    Stamp::of_nanos(seconds * NANOS_PER_SECOND).unwrap()
}

/// The whole seconds of times, in digits.
fn numbers_of(alloc: Global, stamps: &[Stamp]) -> Result<Vec<Vec<u8>>, Memory>
    ensures { IfOk result (λ tokens. texts_of tokens.items ≡ map seconds_token stamps.now) }
{
    let mut tokens = Vec::new(alloc);
    for at in stamps {
        tokens.push(number_of(alloc, *at)?)?;
    }
    Ok(tokens)
}

fn number_of(alloc: Global, at: Stamp) -> Result<Vec<u8>, Memory>
    ensures { IfOk result (λ token. token.items ≡ seconds_token at) }
{
    let seconds = at.nanos() / NANOS_PER_SECOND;
    Ok(format!(in alloc; "{seconds}")?.into_bytes())
}

/// The dates of times.
fn dates_of(alloc: Global, stamps: &[Stamp]) -> Result<Vec<Vec<u8>>, Memory>
    ensures { IfOk result (λ tokens. texts_of tokens.items ≡ map stamp_text_of stamps.now) }
{
    let mut tokens = Vec::new(alloc);
    for at in stamps {
        let mut token = Vec::new(alloc);
        stamp_text(*at, &mut token)?;
        tokens.push(token)?;
    }
    Ok(tokens)
}

/// How many tokens are times, and the sum of their nanoseconds.
#[tactic(auto, using(crate::proofs::Outcomes::text_step, crate::proofs::Outcomes::told_at_most))]
fn read(tokens: &[Vec<u8>]) -> Outcome
    ensures { result ≡ told_by nanos_told (texts_of tokens.now) }
{
    let mut outcome = NOTHING;
    for token in tokens {
        outcome = outcome.with(nanos(token));
    }
    outcome
}

fn nanos(token: &[u8]) -> Option<u64>
    ensures { result ≡ nanos_told token.now }
{
    match read_stamp(token) {
        Ok(at) => Some(at.nanos()),
        Err(_) => None,
    }
}

/// The dates of times, one behind the other.
fn print(alloc: Global, stamps: &[Stamp]) -> Result<Vec<u8>, Memory>
    ensures { IfOk result (λ text. text.items ≡ flat_map stamp_text_of stamps.now) }
{
    let mut text = Vec::new(alloc);
    for at in stamps {
        stamp_text(*at, &mut text)?;
    }
    Ok(text)
}
