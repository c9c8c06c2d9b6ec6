// What kinds make of values.
ghost use Rattle.std.specs.Prelude.{◌≡◌, ◌≤◌, ◌<◌, ◌*◌, ◌^◌, All, length, unsigned_abs, fold};
ghost use Rattle.std.specs.Int.{int_max, int_min};
ghost use Rattle.std.specs.List.{list_any};
ghost use Rattle.std.specs.Ordering.{int_eq};
ghost use Rattle.series_model.specs.Bucket.{distinct_count, in_units, last, total, value_of};

use archive_policy::Kind;
use gno_num::Frac;

const UNITS: i128 = 1_000_000;

/// What the kind makes of the values of a bucket, or of the changes, in order of time.
pub fn value_of(kind: Kind, values: &[i64]) -> Option<Frac>
    requires few { length values.now < 2 ^ 63 }
    requires small { All (λ value. unsigned_abs value ≤ 2 * 10 ^ 18) values.now }
    ensures { result ≡ value_of kind values.now }
{
    let first = *values.first()?;
    match kind {
        Kind::Mean | Kind::RateMean => Frac::of(total(values), values.len() as u64),
        Kind::Min | Kind::RateMin => Frac::of(i128::from(least(first, values)), 1),
        Kind::Max | Kind::RateMax => Frac::of(i128::from(greatest(first, values)), 1),
        Kind::Sum | Kind::RateSum => Frac::of(total(values), 1),
        Kind::Count | Kind::RateCount => in_units(values.len() as u64),
        Kind::First | Kind::RateFirst => Frac::of(i128::from(first), 1),
        Kind::Last | Kind::RateLast => Frac::of(i128::from(last(values)), 1),
        Kind::Nunique | Kind::RateNunique => in_units(distinct_count(values)),
    }
}

/// A number in units, over 1.
fn in_units(count: u64) -> Option<Frac>
    ensures { result ≡ Some (in_units count) }
{
    Frac::of(i128::from(count) * UNITS, 1)
}

/// The sum.
fn total(values: &[i64]) -> i128
    requires few { length values.now < 2 ^ 63 }
    requires small { All (λ value. unsigned_abs value ≤ 2 * 10 ^ 18) values.now }
    ensures value { result ≡ total values.now }
    ensures small { unsigned_abs result ≤ length values.now * (2 * 10 ^ 18) }
{
    let mut sum = 0i128;
    for value in values {
        sum += i128::from(*value);
    }
    sum
}

/// The least of a value and others.
fn least(first: i64, values: &[i64]) -> i64
    ensures { result ≡ fold int_min first values.now }
{
    let mut least = first;
    for value in values {
        least = least.min(*value);
    }
    least
}

/// The greatest of a value and others.
fn greatest(first: i64, values: &[i64]) -> i64
    ensures { result ≡ fold int_max first values.now }
{
    let mut greatest = first;
    for value in values {
        greatest = greatest.max(*value);
    }
    greatest
}

/// The last value, 0 where there is none.
fn last(values: &[i64]) -> i64
    ensures { result ≡ last values.now }
{
    values.last().copied().unwrap_or(0)
}

/// How many different values there are.
fn distinct_count(values: &[i64]) -> u64
    ensures value { result ≡ distinct_count values.now }
    ensures few { result ≤ length values.now }
{
    let mut count = 0;
    for (i, value) in values.iter().enumerate() {
        if !is_among(&values[i + 1..], *value) {
            count += 1;
        }
    }
    count
}

/// Whether the value is one of these.
fn is_among(values: &[i64], value: i64) -> bool
    ensures { result ≡ list_any (λ w. int_eq w value) values.now }
{
    values.contains(&value)
}
