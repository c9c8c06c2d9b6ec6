// Splits of one minute worked by hand: a split holds 60 hours, so keys are multiples of 216,000 seconds.
ghost use Rattle.std.specs.Prelude.{◌≡◌, ◌*◌, ◌^◌};

use crate::{cut_splits, kept_places};
use gno_num::{Frac, Span, Stamp};
use series_model::Point;
use std::test::Fail;

const SECOND: u64 = 1_000_000_000;

fn stamp(seconds: u32) -> Stamp
    ensures { result ≡ seconds * 10 ^ 9 }
{
    Stamp::of_nanos(u64::from(seconds) * SECOND).unwrap()
}

fn minute() -> Span
    ensures { result ≡ 60 * 10 ^ 9 }
{
    Span::of_nanos(60 * SECOND).unwrap()
}

#[test]
fn points_of_two_splits(rt: HostRuntime) -> Result<(), Fail> {
    let value = Frac::of(1, 1).ok_or("fraction")?;
    let points = [
        Point {
            at: stamp(60),
            value,
        },
        Point {
            at: stamp(215_940),
            value,
        },
        Point {
            at: stamp(216_000),
            value,
        },
    ];
    let splits = cut_splits(rt.alloc(), &points, minute())?;
    let mut cuts = Vec::new(rt.alloc());
    for split in splits.as_slice() {
        cuts.push((split.key.nanos() / SECOND, split.points().len()))?;
    }
    let wanted = [(0, 2), (216_000, 1)];
    assert_eq!(rt; cuts.as_slice(), wanted.as_slice());
    Ok(())
}

/// Which of the splits with the keys 0 and 216,000 stay, as the first place and the one behind the last.
fn kept_of_two(oldest: u32, from: Option<u32>) -> (usize, usize) {
    let keys = [stamp(0), stamp(216_000)];
    let kept = kept_places(&keys, minute(), Some(stamp(oldest)), from.map(stamp));
    (kept.first, kept.until)
}

#[test]
fn the_split_of_the_oldest_point_stays(rt: HostRuntime) {
    assert_eq!(rt; kept_of_two(0, Some(216_540)), (0, 1));
    assert_eq!(rt; kept_of_two(216_000, Some(216_540)), (1, 1));
    assert_eq!(rt; kept_of_two(216_000, None), (1, 2));
}
