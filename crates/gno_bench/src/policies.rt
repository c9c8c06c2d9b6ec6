// Making policies, and choosing one for a metric's name.
ghost use Rattle.std.specs.Prelude.{◌≡◌, ◌≤◌, [], ◌∷◌, IfOk, length};
ghost use Rattle.gno_bench.specs.declared.outcome.Outcome.{Outcome};
ghost use Rattle.gno_bench.specs.Told.{outcomes_of};

use crate::draw::Draws;
use crate::line::{Line, line_of};
use crate::outcome::{NOTHING, Outcome};
use crate::stop::Stop;
use crate::timing::timed;
use archive_policy::{Kind, Name, Policy, Wanted};
use gno_num::Span;
use policy_rules::{Rule, choose};
use std::alloc::Global;

const SEED: u64 = 5;

const MINUTE: u64 = 60_000_000_000;

const NAMES: u64 = 16;

const KINDS: [Kind; 8] = [
    Kind::Nunique,
    Kind::Mean,
    Kind::Max,
    Kind::Min,
    Kind::Sum,
    Kind::Count,
    Kind::First,
    Kind::RateMean,
];

/// The part `policies`: so many policies are made, and sixteen names choose among so many rules.
pub fn run(rt: &HostRuntime, size: u64, rounds: u64) -> Result<Vec<Line>, Stop>
    requires { size ≤ 50000 }
    ensures { IfOk result (λ lines. (made : Outcome) × (chosen : Outcome) × (made.count ≡ size)
        × (chosen.count ≤ 16) × (outcomes_of lines.items ≡ made ∷ chosen ∷ [])) }
{
    let alloc = rt.alloc();
    let wanted = wanted_of()?;
    let made = timed(rt, rounds, || make_all(alloc, size, &wanted))?;
    let rules = rules_of(alloc, size)?;
    let names = names_of(alloc)?;
    let chosen = timed(
        rt,
        rounds,
        || Ok(choose_all(rules.as_slice(), names.as_slice())),
    )?;
    let bytes = bytes_of(names.as_slice()).saturating_mul(size);
    let mut lines = Vec::new(alloc);
    lines.push(line_of(
        rt,
        rounds,
        "policy_make",
        made.value,
        size,
        size * 5,
        made.nanos,
    )?)?;
    lines.push(line_of(
        rt,
        rounds,
        "choose",
        chosen.value,
        size * NAMES,
        bytes,
        chosen.nanos,
    )?)?;
    Ok(lines)
}

/// Three definitions: a day of minutes, a month of hours, a year of days.
fn wanted_of() -> Result<[Wanted; 3], Stop> {
    Ok([
        wanted(MINUTE * 1_440, 365)?,
        wanted(MINUTE, 1_440)?,
        wanted(MINUTE * 60, 744)?,
    ])
}

fn wanted(granularity: u64, points: u64) -> Result<Wanted, Stop> {
    Ok(Wanted {
        granularity: Some(Span::of_nanos(granularity).ok_or(Stop::Refused)?),
        points: Some(points),
        timespan: None,
    })
}

/// Makes so many policies. The outcome tells their back windows.
fn make_all(alloc: Global, size: u64, wanted: &[Wanted]) -> Result<Outcome, Stop>
    requires { size ≤ 50000 }
    ensures { IfOk result (λ outcome. outcome.count ≡ size) }
{
    let mut outcome = NOTHING;
    for i in 0..size {
        let policy = make(alloc, i % 1_000, wanted)?;
        outcome = outcome.with(Some(u64::from(policy.back_window())));
    }
    Ok(outcome)
}

fn make(alloc: Global, back_window: u64, wanted: &[Wanted]) -> Result<Policy, Stop>
    ensures { IfOk result (λ policy. policy.back_window ≡ back_window) }
{
    let Ok(name) = Name::of(alloc, b"basic") else {
        return Err(Stop::Refused);
    };
    match Policy::make(alloc, name, back_window, wanted, &KINDS) {
        Ok(policy) => Ok(policy),
        Err(_) => Err(Stop::Refused),
    }
}

/// So many rules, every second of them with a `*` in front.
fn rules_of(alloc: Global, size: u64) -> Result<Vec<Rule>, Stop>
    ensures { IfOk result (λ rules. length rules.items ≡ size) }
{
    let mut draws = Draws::new(SEED);
    let mut rules = Vec::new(alloc);
    for i in 0..size {
        rules.push(rule_of(alloc, i, draws.next() % 100)?)?;
    }
    Ok(rules)
}

fn rule_of(alloc: Global, i: u64, drawn: u64) -> Result<Rule, Stop> {
    let name = format!(in alloc; "rule-{i}")?;
    let pattern = if i % 2 == 0 {
        format!(in alloc; "host-{drawn}.*")?
    } else {
        format!(in alloc; "*.disk-{drawn}.*")?
    };
    Ok(Rule {
        name: name_of(alloc, &name)?,
        pattern: name_of(alloc, &pattern)?,
        policy: name_of(alloc, "basic")?,
    })
}

fn name_of(alloc: Global, text: &str) -> Result<Name, Stop> {
    Name::of(alloc, text.as_bytes()).map_err(|_| Stop::Refused)
}

/// Sixteen names of metrics.
fn names_of(alloc: Global) -> Result<Vec<String>, Stop>
    ensures { IfOk result (λ names. length names.items ≡ 16) }
{
    let mut draws = Draws::new(SEED);
    let mut names = Vec::new(alloc);
    for _ in 0..NAMES {
        let host = draws.next() % 100;
        let disk = draws.next() % 100;
        names.push(format!(in alloc; "host-{host}.disk-{disk}.read_bytes")?)?;
    }
    Ok(names)
}

/// How many names get a rule, and the sum of the places of the rules.
fn choose_all(rules: &[Rule], names: &[String]) -> Outcome
    requires { length names.now ≡ 16 }
    ensures { result.count ≤ 16 }
{
    let mut outcome = NOTHING;
    for name in names {
        outcome = outcome.with(place(choose(rules, name.as_bytes())));
    }
    outcome
}

fn place(chosen: Option<usize>) -> Option<u64> {
    match chosen {
        None => None,
        Some(place) => Some(place as u64),
    }
}

fn bytes_of(names: &[String]) -> u64 {
    let mut bytes = 0u64;
    for name in names {
        bytes = bytes.saturating_add(name.len() as u64);
    }
    bytes
}
