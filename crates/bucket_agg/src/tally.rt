// Tallies of buckets.
ghost use Rattle.std.specs.Prelude.{◌≡◌, ◌<◌, ◌≤◌, ◌*◌, ◌^◌, ℤ, List, Some, None, All, IfOk, length, unsigned_abs};
ghost use Rattle.gno_num.specs.Fraction.{IsFraction};
ghost use Rattle.series_model.specs.Bucket.{in_units, value_of, whole};
ghost use Rattle.bucket_agg.specs.Tally.{summary_of};

use crate::distinct::distinct_count;
use crate::sums::{first, last, sums_of};
use archive_policy::Kind;
use gno_num::{Frac, Memory};
use std::alloc::Global;
use std::marker::Model;

const UNITS: i128 = 1_000_000;

/// What is known of the values of one bucket, or of its changes, so that each kind's value can be
/// told: their number, sum, least, greatest, first and last, and how many different ones there are.
#[derive(Clone, Copy, Debug)]
pub struct Tally {
    count: u64,
    total: i128,
    least: i64,
    greatest: i64,
    first: i64,
    last: i64,
    distinct: u64,
}

impl Model for Tally {
    ghost use Rattle.bucket_agg.specs.Tally.{Summary, IsSmall};

    ghost Value = { Summary };

    ghost view = { λ t. record { count = t.count; total = t.total; least = t.least; greatest = t.greatest; first = t.first; last = t.last; distinct = t.distinct } };

    ghost invariant = { λ t. IsSmall (record { count = t.count; total = t.total; least = t.least; greatest = t.greatest; first = t.first; last = t.last; distinct = t.distinct }) };

    ghost inverse = { λ s. record { count = s.count; total = s.total; least = s.least; greatest = s.greatest; first = s.first; last = s.last; distinct = s.distinct } };
}

impl Tally {
    /// The tally of the values, or of the changes, of one bucket in order of time. It takes time
    /// n log n in their number.
    pub fn of(alloc: Global, values: &[i64]) -> Result<Tally, Memory>
        requires few { length values.now < 2 ^ 63 }
        requires small { All (λ value. unsigned_abs value ≤ 2 * 10 ^ 18) values.now }
        ensures { IfOk result (λ tally. tally ≡ summary_of values.now) }
    {
        let distinct = distinct_count(alloc, values)?;
        let sums = sums_of(values);
        Ok(Tally {
            count: values.len() as u64,
            total: sums.total,
            least: sums.least,
            greatest: sums.greatest,
            first: first(values),
            last: last(values),
            distinct,
        })
    }

    /// The value of the bucket for this kind; none exactly where there are no values.
    pub fn value(&self, kind: Kind) -> Option<Frac>
        ensures { (values : List ℤ) → self.now ≡ summary_of values → result ≡ value_of kind values }
    {
        if self.count == 0 {
            return None;
        }
        match kind {
            Kind::Mean | Kind::RateMean => fraction(self.total, self.count),
            Kind::Min | Kind::RateMin => whole(self.least),
            Kind::Max | Kind::RateMax => whole(self.greatest),
            Kind::Sum | Kind::RateSum => fraction(self.total, 1),
            Kind::Count | Kind::RateCount => in_units(self.count),
            Kind::First | Kind::RateFirst => whole(self.first),
            Kind::Last | Kind::RateLast => whole(self.last),
            Kind::Nunique | Kind::RateNunique => in_units(self.distinct),
        }
    }
}

/// A number over another one.
fn fraction(num: i128, den: u64) -> Option<Frac>
    requires { IsFraction num den }
    ensures { result ≡ Some (record { num = num; den = den }) }
{
    Frac::of(num, den)
}

/// A value over 1.
fn whole(value: i64) -> Option<Frac>
    ensures { result ≡ Some (whole value) }
{
    fraction(i128::from(value), 1)
}

/// A number in units, over 1.
fn in_units(count: u64) -> Option<Frac>
    ensures { result ≡ Some (in_units count) }
{
    fraction(i128::from(count) * UNITS, 1)
}
