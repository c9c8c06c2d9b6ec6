// Definitions as they are asked for.
ghost use Rattle.std.specs.Prelude.{◌≡◌, ◌≤◌, ◌/◌, unwrap_or};
ghost use Rattle.std.specs.List.{list_any};
ghost use Rattle.archive_policy.specs.Asked.{given_count, granularity_of, points_of, definition_of, has_too_few, has_no_points, has_mismatch, has_odd_granularity, has_many_points};
ghost use Rattle.archive_policy.specs.Policies.{IsDefinition};

use crate::Definition;
use gno_num::Span;

/// What is given of a definition. Two of the three determine it.
#[derive(Clone, Copy, Debug, PartialEq, Eq)]
pub struct Wanted {
    pub granularity: Option<Span>,
    pub points: Option<u64>,
    pub timespan: Option<Span>,
}

const SHORTEST: u64 = 1_000_000;

const LONGEST: u64 = 2_592_000_000_000_000;

const MOST_POINTS: u64 = 1_000_000;

const END: u64 = 9_000_000_000_000_000_000;

/// The granularity in nanoseconds, as given, else the timespan over the points, else 0.
pub fn granularity_of(wanted: &Wanted) -> u64
    ensures { result ≡ granularity_of wanted.now }
{
    match wanted.granularity {
        Some(granularity) => granularity.nanos(),
        None => quotient(nanos_of(wanted.timespan), wanted.points.unwrap_or(0)),
    }
}

/// The points, as given, else the timespan over the granularity, rounded down, else 0.
pub fn points_of(wanted: &Wanted) -> u64
    ensures { result ≡ points_of wanted.now }
{
    match wanted.points {
        Some(points) => points,
        None => quotient(nanos_of(wanted.timespan), nanos_of(wanted.granularity)),
    }
}

/// The nanoseconds of a span, 0 where there is none.
fn nanos_of(span: Option<Span>) -> u64
    ensures { result ≡ unwrap_or span 0 }
{
    match span {
        Some(span) => span.nanos(),
        None => 0,
    }
}

/// How often the part fits, 0 where the part is 0.
fn quotient(total: u64, part: u64) -> u64
    ensures { result ≡ total / part }
{
    total.checked_div(part).unwrap_or(0)
}

/// Whether fewer than two of the three are given.
fn has_too_few(wanted: &Wanted) -> bool
    ensures { result ≡ has_too_few wanted.now }
{
    given_count(wanted) < 2
}

/// Whether a definition of the list has too few of the three.
pub fn some_has_too_few(wanted: &[Wanted]) -> bool
    ensures { result ≡ list_any has_too_few wanted.now }
{
    wanted.iter().any(|w| has_too_few(w))
}

/// How many of the three are given.
fn given_count(wanted: &Wanted) -> u8
    ensures value { result ≡ given_count wanted.now }
    ensures limit { result ≤ 3 }
{
    u8::from(wanted.granularity.is_some())
        + u8::from(wanted.points.is_some())
        + u8::from(wanted.timespan.is_some())
}

/// Whether there are no points.
fn has_no_points(wanted: &Wanted) -> bool
    ensures { result ≡ has_no_points wanted.now }
{
    points_of(wanted) == 0
}

/// Whether a definition of the list has no points.
pub fn some_has_no_points(wanted: &[Wanted]) -> bool
    ensures { result ≡ list_any has_no_points wanted.now }
{
    wanted.iter().any(|w| has_no_points(w))
}

/// Whether the timespan that is given beside the points isn't the granularity times the points.
fn has_mismatch(wanted: &Wanted) -> bool
    ensures { result ≡ has_mismatch wanted.now }
{
    match (wanted.points, wanted.timespan) {
        (Some(points), Some(timespan)) => {
            granularity_of(wanted).saturating_mul(points) != timespan.nanos()
        }
        _ => false,
    }
}

/// Whether a definition of the list has a timespan that doesn't agree.
pub fn some_has_mismatch(wanted: &[Wanted]) -> bool
    ensures { result ≡ list_any has_mismatch wanted.now }
{
    wanted.iter().any(|w| has_mismatch(w))
}

/// Whether the granularity is below a millisecond or over 30 days.
fn has_odd_granularity(wanted: &Wanted) -> bool
    ensures { result ≡ has_odd_granularity wanted.now }
{
    let granularity = granularity_of(wanted);
    granularity < SHORTEST || LONGEST < granularity
}

/// Whether a definition of the list has a granularity out of range.
pub fn some_has_odd_granularity(wanted: &[Wanted]) -> bool
    ensures { result ≡ list_any has_odd_granularity wanted.now }
{
    wanted.iter().any(|w| has_odd_granularity(w))
}

/// Whether there are over 1,000,000 points, or they take over 9 * 10^18 nanoseconds.
fn has_many_points(wanted: &Wanted) -> bool
    ensures { result ≡ has_many_points wanted.now }
{
    let points = points_of(wanted);
    MOST_POINTS < points || END < granularity_of(wanted).saturating_mul(points)
}

/// Whether a definition of the list has too many points.
pub fn some_has_many_points(wanted: &[Wanted]) -> bool
    ensures { result ≡ list_any has_many_points wanted.now }
{
    wanted.iter().any(|w| has_many_points(w))
}

/// The definition that is asked for.
pub fn definition_of(wanted: &Wanted) -> Definition
    requires { IsDefinition (definition_of wanted.now) }
    ensures { result ≡ definition_of wanted.now }
{
    Definition {
        granularity: Span::of_nanos(granularity_of(wanted)).unwrap(),
        points: points_of(wanted) as u32,
    }
}
