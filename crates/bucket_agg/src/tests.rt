// Each kind of a few lists of values, worked by hand.
ghost use Rattle.std.specs.Prelude.{◌≤◌, ◌*◌, ◌^◌, All, IfOk, unsigned_abs};

use crate::Tally;
use archive_policy::Kind;
use gno_num::{Frac, Memory};
use std::alloc::Global;
use std::test::Fail;

const KINDS: [(Kind, Kind); 8] = [
    (Kind::Mean, Kind::RateMean),
    (Kind::Min, Kind::RateMin),
    (Kind::Max, Kind::RateMax),
    (Kind::Sum, Kind::RateSum),
    (Kind::Count, Kind::RateCount),
    (Kind::First, Kind::RateFirst),
    (Kind::Last, Kind::RateLast),
    (Kind::Nunique, Kind::RateNunique),
];

fn values_of(alloc: Global, given: &[i8]) -> Result<Vec<i64>, Memory>
    ensures { IfOk result (λ made. All (λ value. unsigned_abs value ≤ 2 * 10 ^ 18) made.items) }
{
    let mut made = Vec::new(alloc);
    for value in given {
        made.push(i64::from(*value))?;
    }
    Ok(made)
}

#[test]
fn kinds_of_values(rt: HostRuntime) -> Result<(), Fail> {
    // mean, min, max, sum, count, first, last, nunique; a numerator and a denominator each
    let cases: [(&[i8], Option<[(i32, u8); 8]>); 4] = [
        (
            &[1, 2, 4, 8],
            Some([
                (15, 4),
                (1, 1),
                (8, 1),
                (15, 1),
                (4_000_000, 1),
                (1, 1),
                (8, 1),
                (4_000_000, 1),
            ]),
        ),
        (
            &[5],
            Some([
                (5, 1),
                (5, 1),
                (5, 1),
                (5, 1),
                (1_000_000, 1),
                (5, 1),
                (5, 1),
                (1_000_000, 1),
            ]),
        ),
        // the greatest first, and a value twice that isn't next to itself
        (
            &[3, -7, 3],
            Some([
                (-1, 3),
                (-7, 1),
                (3, 1),
                (-1, 1),
                (3_000_000, 1),
                (3, 1),
                (3, 1),
                (2_000_000, 1),
            ]),
        ),
        (&[], None),
    ];
    for (given, wanted) in cases {
        let values = values_of(rt.alloc(), given)?;
        let tally = Tally::of(rt.alloc(), values.as_slice())?;
        for (i, (plain, rate)) in KINDS.iter().enumerate() {
            let expected = match wanted {
                None => None,
                Some(parts) => Frac::of(i128::from(parts[i].0), u64::from(parts[i].1)),
            };
            assert_eq!(rt; tally.value(*plain), expected, "{given:?}, kind {i}");
            assert_eq!(rt; tally.value(*rate), expected, "{given:?}, rate kind {i}");
        }
    }
    Ok(())
}
