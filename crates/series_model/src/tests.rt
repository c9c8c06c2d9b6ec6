// Worked examples of the rules of a series. Times are in seconds, and values are whole.
use crate::{
    Answer, Batch, Measure, Query, Row, TooMany, accepted, accepted_within, answer_from, answer_to,
    series_of, stored,
};
use archive_policy::{Definition, Kind, Name, Policy, Wanted};
use gno_num::{Frac, Span, Stamp, Value};
use std::alloc::Global;
use std::test::Fail;

const NANOS: u64 = 1_000_000_000;

fn measure(at: u32, value: i32) -> Result<Measure, Fail> {
    Ok(Measure {
        at: Stamp::of_nanos(u64::from(at) * NANOS).ok_or("stamp")?,
        value: Value::of_units(i64::from(value) * 1_000_000).ok_or("value")?,
    })
}

fn measures(alloc: Global, given: &[(u32, i32)]) -> Result<Vec<Measure>, Fail> {
    let mut made = Vec::new(alloc);
    for (at, value) in given {
        made.push(measure(*at, *value)?)?;
    }
    Ok(made)
}

fn span(seconds: u32) -> Result<Span, Fail> {
    Ok(Span::of_nanos(u64::from(seconds) * NANOS).ok_or("span")?)
}

/// What is accepted of batches that are posted one after the other, by a largest granularity.
fn accepted_by(
    alloc: Global,
    largest: u32,
    back_window: u16,
    posted: &[&[(u32, i32)]],
) -> Result<Vec<Measure>, Fail> {
    let mut batches = Vec::new(alloc);
    for given in posted {
        batches.push(Batch::make(measures(alloc, given)?)?)?;
    }
    Ok(accepted_within(alloc, span(largest)?, back_window, batches.as_slice())?)
}

#[test]
fn windows(rt: HostRuntime) -> Result<(), Fail> {
    let cases: [(u16, &[&[(u32, i32)]], &[(u32, i32)]); 4] = [
        // the second batch finds the window that is open from 300 on
        (
            0,
            &[&[(400, 1)], &[(299, 5), (300, 7)]],
            &[(400, 1), (300, 7)],
        ),
        // the second batch as a whole finds that from 0 on, and the third that from 600 on
        (
            0,
            &[&[(110, 1)], &[(700, 9), (299, 5)], &[(299, 6)]],
            &[(110, 1), (700, 9), (299, 5)],
        ),
        // one granularity further back, here from 300 on
        (
            1,
            &[&[(700, 1)], &[(299, 2), (300, 3), (599, 4)]],
            &[(700, 1), (300, 3), (599, 4)],
        ),
        // never before the epoch
        (5, &[&[(700, 1)], &[], &[(0, 2)]], &[(700, 1), (0, 2)]),
    ];
    for (back_window, posted, wanted) in cases {
        let taken = accepted_by(rt.alloc(), 300, back_window, posted)?;
        let wanted = measures(rt.alloc(), wanted)?;
        assert_eq!(rt; taken.as_slice(), wanted.as_slice());
    }
    Ok(())
}

#[test]
fn later_measures_win(rt: HostRuntime) -> Result<(), Fail> {
    let given = measures(
        rt.alloc(),
        &[(300, 1), (100, 2), (300, 3), (200, 4), (100, -5)],
    )?;
    let wanted = measures(rt.alloc(), &[(100, -5), (200, 4), (300, 3)])?;
    assert_eq!(rt;
        series_of(rt.alloc(), given.as_slice())?.as_slice(),
        wanted.as_slice()
    );
    Ok(())
}

/// The rows of one kind, by a granularity and a number of points.
fn rows_by(
    alloc: Global,
    kind: Kind,
    granularity: u32,
    points: u32,
    given: &[(u32, i32)],
) -> Result<Answer, Fail> {
    let definition = Definition {
        granularity: span(granularity)?,
        points,
    };
    let accepted = measures(alloc, given)?;
    Ok(answer_from(alloc, kind, definition, accepted.as_slice())?)
}

/// Rows of a granularity, each by its time, its numerator in units, and its denominator.
fn rows(alloc: Global, granularity: u32, given: &[(u32, i32, u32)]) -> Result<Answer, Fail> {
    let mut answer = Answer::new(alloc);
    for (at, num, den) in given {
        answer.add(Row {
            at: Stamp::of_nanos(u64::from(*at) * NANOS).ok_or("stamp")?,
            granularity: span(granularity)?,
            value: Frac::of(i128::from(*num), u64::from(*den)).ok_or("fraction")?,
        })?;
    }
    Ok(answer)
}

#[test]
fn kept_buckets(rt: HostRuntime) -> Result<(), Fail> {
    // the last bucket is that of 900, and the oldest of ten that of 360
    let given = [(300, 1), (360, 2), (419, 4), (420, -5), (900, 3)];
    let means = [
        (360, 6_000_000, 2),
        (420, -5_000_000, 1),
        (900, 3_000_000, 1),
    ];
    let counts = [
        (360, 2_000_000, 1),
        (420, 1_000_000, 1),
        (900, 1_000_000, 1),
    ];
    let twice = [(100, 10), (100, 30)];
    let cases: [(Kind, &[(u32, i32)], &[(u32, i32, u32)]); 6] = [
        (Kind::Mean, &[], &[]),
        (Kind::Mean, &given, &means),
        (Kind::Count, &given, &counts),
        // a mean isn't reduced
        (Kind::Mean, &[(0, 1), (1, 2), (2, 2)], &[(0, 5_000_000, 3)]),
        // of two measures of a time the later one counts
        (Kind::Count, &twice, &[(60, 1_000_000, 1)]),
        (Kind::Mean, &twice, &[(60, 30_000_000, 1)]),
    ];
    for (kind, given, wanted) in cases {
        let answer = rows_by(rt.alloc(), kind, 60, 10, given)?;
        assert_eq!(rt; answer.rows(), rows(rt.alloc(), 60, wanted)?.rows());
    }
    Ok(())
}

#[test]
fn aggregates(rt: HostRuntime) -> Result<(), Fail> {
    // one bucket, whose changes are -7, 3, 0 and 7
    let given = [(0, 5), (10, -2), (20, 1), (30, 1), (50, 8)];
    let cases = [
        (Kind::Mean, 13_000_000, 5),
        (Kind::Min, -2_000_000, 1),
        (Kind::Max, 8_000_000, 1),
        (Kind::Sum, 13_000_000, 1),
        (Kind::Count, 5_000_000, 1),
        (Kind::First, 5_000_000, 1),
        (Kind::Last, 8_000_000, 1),
        (Kind::Nunique, 4_000_000, 1),
        (Kind::RateMean, 3_000_000, 4),
        (Kind::RateMin, -7_000_000, 1),
        (Kind::RateMax, 7_000_000, 1),
        (Kind::RateSum, 3_000_000, 1),
        (Kind::RateCount, 4_000_000, 1),
        (Kind::RateFirst, -7_000_000, 1),
        (Kind::RateLast, 7_000_000, 1),
        (Kind::RateNunique, 4_000_000, 1),
    ];
    for (kind, num, den) in cases {
        let answer = rows_by(rt.alloc(), kind, 60, 10, &given)?;
        let wanted = rows(rt.alloc(), 60, &[(0, num, den)])?;
        assert_eq!(rt; answer.rows(), wanted.rows());
    }
    Ok(())
}

#[test]
fn rates(rt: HostRuntime) -> Result<(), Fail> {
    let late = [(290, 10), (310, 14), (305, 11)];
    let cases: [(Kind, &[(u32, i32)], &[(u32, i32, u32)]); 8] = [
        // of two measures of a time the later one counts
        (Kind::Last, &[(100, 10), (100, 30)], &[(60, 30_000_000, 1)]),
        // the earlier member is in another bucket
        (
            Kind::RateLast,
            &[(290, 10), (310, 14)],
            &[(300, 4_000_000, 1)],
        ),
        // a late measure comes between them
        (Kind::RateLast, &late, &[(300, 3_000_000, 1)]),
        (Kind::RateSum, &late, &[(300, 4_000_000, 1)]),
        (
            Kind::RateLast,
            &[(310, 10), (370, 16)],
            &[(360, 6_000_000, 1)],
        ),
        // a bucket changes without a measure in it
        (
            Kind::RateLast,
            &[(310, 10), (370, 16), (320, 12)],
            &[(300, 2_000_000, 1), (360, 4_000_000, 1)],
        ),
        // the first member has no change
        (Kind::RateCount, &[(0, 1)], &[]),
        (Kind::RateCount, &[(0, 1), (1, 1)], &[(0, 1_000_000, 1)]),
    ];
    for (kind, given, wanted) in cases {
        let answer = rows_by(rt.alloc(), kind, 60, 10, given)?;
        assert_eq!(rt; answer.rows(), rows(rt.alloc(), 60, wanted)?.rows());
    }
    Ok(())
}

#[test]
fn limit_of_a_batch(rt: HostRuntime) -> Result<(), Fail> {
    let one = measure(0, 1)?;
    let full = Batch::make(vec![in rt.alloc(); one; 50_000]?)?;
    assert_eq!(rt; full.measures().len(), 50_000);
    let over = Batch::make(vec![in rt.alloc(); one; 50_001]?);
    assert!(rt; matches!(over, Err(TooMany { given: 50_001 })));
    Ok(())
}

/// 10 points of a minute and 12 of five minutes, with no back window.
fn policy(alloc: Global) -> Result<Policy, Fail> {
    let name = Name::of(alloc, b"p")?;
    let wanted = [wanted(60, 10)?, wanted(300, 12)?];
    Ok(Policy::make(alloc, name, 0, &wanted, &[Kind::Mean, Kind::Count])?)
}

fn wanted(granularity: u32, points: u64) -> Result<Wanted, Fail> {
    Ok(Wanted {
        granularity: Some(span(granularity)?),
        points: Some(points),
        timespan: None,
    })
}

/// The keys of the splits of a minute, in seconds, after one batch.
fn keys(alloc: Global, given: &[(u32, i32)]) -> Result<Vec<u64>, Fail> {
    let mut batches = Vec::new(alloc);
    batches.push(Batch::make(measures(alloc, given)?)?.copy()?)?;
    let policy = policy(alloc)?;
    if policy.definitions().is_empty() {
        return Err("no definition")?;
    }
    let splits = stored(alloc, &policy, batches.as_slice(), 0, Kind::Mean)?;
    let mut keys = Vec::new(alloc);
    for split in splits.as_slice() {
        let split = split.copy(alloc)?;
        if split.points().is_empty() {
            return Err("a split without points")?;
        }
        keys.push(split.key.nanos() / NANOS)?;
    }
    Ok(keys)
}

// The split that holds the oldest point to keep is stored whole; the one before it isn't.
#[test]
fn splits_by_key(rt: HostRuntime) -> Result<(), Fail> {
    let both = keys(rt.alloc(), &[(215_999, 1), (216_000, 2)])?;
    assert_eq!(rt; both.as_slice(), [0, 216_000].as_slice());
    let later = keys(rt.alloc(), &[(215_999, 1), (216_000, 2), (216_540, 3)])?;
    assert_eq!(rt; later.as_slice(), [216_000].as_slice());
    Ok(())
}

// The time and the granularity, in seconds, of each row that a query from `start` until `stop` has.
fn asked(
    alloc: Global,
    start: Option<u32>,
    stop: Option<u32>,
    granularity: Option<u32>,
) -> Result<Vec<(u64, u64)>, Fail> {
    let query = Query {
        start: stamp(start)?,
        stop: stamp(stop)?,
        kind: Some(Kind::Mean),
        granularity: match granularity {
            None => None,
            Some(seconds) => Some(span(seconds)?),
        },
    };
    let policy = policy(alloc)?;
    let mut batches = Vec::new(alloc);
    batches.push(Batch::make(measures(alloc, &[(100, 10), (110, 20), (310, 3)])?)?)?;
    let measures = accepted(alloc, &policy, batches.as_slice())?;
    let answer = answer_to(alloc, &policy, &query, Kind::Mean, measures.as_slice())?;
    let mut rows = Vec::new(alloc);
    for row in answer.rows() {
        rows.push((row.at.nanos() / NANOS, row.granularity.nanos() / NANOS))?;
    }
    Ok(rows)
}

fn stamp(seconds: Option<u32>) -> Result<Option<Stamp>, Fail> {
    match seconds {
        None => Ok(None),
        Some(seconds) => Ok(Some(Stamp::of_nanos(u64::from(seconds) * NANOS).ok_or("stamp")?)),
    }
}

// Each definition that is asked for, the coarsest first, from the start's bucket to before the stop.
#[test]
fn queries_within_bounds(rt: HostRuntime) -> Result<(), Fail> {
    let alloc = rt.alloc();
    let all = asked(alloc, None, None, None)?;
    assert_eq!(rt;
        all.as_slice(),
        [(0, 300), (300, 300), (60, 60), (300, 60)].as_slice()
    );
    let one = asked(alloc, None, None, Some(60))?;
    assert_eq!(rt; one.as_slice(), [(60, 60), (300, 60)].as_slice());
    let from = asked(alloc, Some(119), Some(300), None)?;
    assert_eq!(rt; from.as_slice(), [(0, 300), (60, 60)].as_slice());
    let none = asked(alloc, Some(0), Some(0), None)?;
    assert!(rt; none.is_empty());
    Ok(())
}
