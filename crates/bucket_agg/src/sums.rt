// The sum and the bounds of values.
ghost use Rattle.std.specs.Prelude.{◌≡◌, ◌≤◌, ◌<◌, ◌*◌, ◌^◌, All, length, unsigned_abs};
ghost use Rattle.series_model.specs.Bucket.{first, greatest, last, least, total};

/// The sum, the least and the greatest of values, each 0 where there is none.
#[derive(Clone, Copy)]
pub struct Sums {
    pub total: i128,
    pub least: i64,
    pub greatest: i64,
}

/// The sum, the least and the greatest, in one pass.
pub fn sums_of(values: &[i64]) -> Sums
    requires few { length values.now < 2 ^ 63 }
    requires small { All (λ value. unsigned_abs value ≤ 2 * 10 ^ 18) values.now }
    ensures total { result.total ≡ total values.now }
    ensures least { result.least ≡ least values.now }
    ensures greatest { result.greatest ≡ greatest values.now }
    ensures small { unsigned_abs result.total ≤ length values.now * (2 * 10 ^ 18) }
{
    let start = first(values);
    let mut total = 0i128;
    let mut least = start;
    let mut greatest = start;
    for value in values {
        total += i128::from(*value);
        least = least.min(*value);
        greatest = greatest.max(*value);
    }
    Sums {
        total,
        least,
        greatest,
    }
}

/// The first value, 0 where there is none.
pub fn first(values: &[i64]) -> i64
    ensures { result ≡ first values.now }
{
    values.first().copied().unwrap_or(0)
}

/// The last value, 0 where there is none.
pub fn last(values: &[i64]) -> i64
    ensures { result ≡ last values.now }
{
    values.last().copied().unwrap_or(0)
}
