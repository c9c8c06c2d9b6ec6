// Printing the rows of an answer.
ghost use Rattle.std.specs.Prelude.{◌≡◌, List, [], ◌∷◌, ◌<◌, ◌≤◌, ◌*◌, ◌^◌, false, IfOk, length};
ghost use Rattle.measure_json.specs.Answer.{answer_json};
ghost use Rattle.series_model.specs.declared.answer.Row.{Row};
ghost use Rattle.gno_bench.specs.Outcome.{told_by_text};
ghost use Rattle.gno_bench.specs.Told.{outcomes_of};

use crate::draw::Draws;
use crate::line::{Line, line_of};
use crate::outcome::Outcome;
use crate::stop::Stop;
use crate::timing::timed;
use gno_num::{Frac, Memory, Span, Stamp};
use measure_json::write_answer;
use series_model::{Answer, Row};
use std::alloc::Global;

const SEED: u64 = 3;

const FIRST_NANOS: u64 = 1_600_000_020_000_000_000;

const MINUTE: u64 = 60_000_000_000;

const MOST_VALUES: u64 = 12;

/// The part `print`: an answer of so many rows, a minute apart, is printed.
pub fn run(rt: &HostRuntime, size: u64, rounds: u64) -> Result<Vec<Line>, Stop>
    requires { size ≤ 50000 }
    ensures { IfOk result (λ lines. (rows : List Row) × (length rows ≡ size)
        × (outcomes_of lines.items ≡ told_by_text (answer_json false rows) ∷ [])) }
{
    let alloc = rt.alloc();
    let answer = make(alloc, size)?;
    let printed = timed(rt, rounds, || Ok(print(alloc, &answer)?))?;
    let text = Outcome::of_text(printed.value.as_slice());
    let bytes = printed.value.len() as u64;
    let mut lines = Vec::new(alloc);
    lines.push(line_of(rt, rounds, "write_answer", text, size, bytes, printed.nanos)?)?;
    Ok(lines)
}

/// So many rows. Each value is a sum over a number of values from 1 to 12.
fn make(alloc: Global, size: u64) -> Result<Answer, Memory>
    requires { size ≤ 50000 }
    ensures { IfOk result (λ answer. length answer ≡ size) }
{
    let mut draws = Draws::new(SEED);
    let mut answer = Answer::new(alloc);
    for i in 0..size {
        let drawn = draws.next();
        answer.add(row_of(i, drawn, draws.next()))?;
    }
    Ok(answer)
}

fn row_of(i: u64, sum: u64, values: u64) -> Row
    requires place { i < 50000 }
    requires sum { sum < 2 ^ 31 }
{
    Row {
        at: Stamp::of_nanos(FIRST_NANOS + i * MINUTE).unwrap(),
        granularity: Span::of_nanos(MINUTE).unwrap(),
        value: mean(sum, 1 + values % MOST_VALUES),
    }
}

/// A sum in units of 10^-3 over a number of values.
fn mean(sum: u64, values: u64) -> Frac
    requires sum { sum < 2 ^ 31 }
    requires some { 1 ≤ values }
    requires few { values ≤ 12 }
{
    Frac::of(i128::from(sum) * 1_000, values).unwrap()
}

fn print(alloc: Global, answer: &Answer) -> Result<Vec<u8>, Memory>
    ensures { IfOk result (λ text. text.items ≡ answer_json false answer.now) }
{
    let mut text = Vec::new(alloc);
    write_answer(answer, false, &mut text)?;
    Ok(text)
}
