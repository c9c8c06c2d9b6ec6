// Queries worked by hand, and the points of two splits.
ghost use Rattle.std.specs.Prelude.{◌≡◌, ◌*◌, ◌^◌, [], ◌∷◌, IfOk, map};

use crate::{Asked, QueryFault, read_query, select};
use archive_policy::Kind;
use gno_num::{Frac, Span, Stamp};
use series_model::{Answer, Point, Query, Row, Split};
use std::alloc::Global;
use std::test::Fail;

const SECOND: u64 = 1_000_000_000;

fn stamp(seconds: u32) -> Stamp
    ensures { result ≡ seconds * 10 ^ 9 }
{
    Stamp::of_nanos(u64::from(seconds) * SECOND).unwrap()
}

fn span(seconds: u32) -> Option<Span> {
    Span::of_nanos(u64::from(seconds) * SECOND)
}

/// A query of these times in seconds, without a granularity and with both switches off.
fn asks(start: Option<u32>, stop: Option<u32>, kind: Option<Kind>) -> Result<Asked, QueryFault> {
    let query = Query {
        start: start.map(stamp),
        stop: stop.map(stamp),
        kind,
        granularity: None,
    };
    Ok(Asked {
        query,
        refresh: false,
        exact: false,
    })
}

fn asks_all(granularity: Option<u32>, refresh: bool, exact: bool) -> Result<Asked, QueryFault> {
    let query = Query {
        start: None,
        stop: None,
        kind: Some(Kind::Mean),
        granularity: granularity.and_then(span),
    };
    Ok(Asked {
        query,
        refresh,
        exact,
    })
}

#[test]
fn queries_are_read(rt: HostRuntime) -> Result<(), Fail> {
    let mean = Some(Kind::Mean);
    let cases = [
        ("", asks(None, None, mean)),
        ("&&", asks(None, None, mean)),
        ("start=100&stop=200", asks(Some(100), Some(200), mean)),
        ("&stop=200&&start=100&", asks(Some(100), Some(200), mean)),
        (
            "stop=2024-01-01T00%3A00%3A00%2B01:00",
            asks(None, Some(1_704_063_600), mean),
        ),
        (
            "start=2024-01-01+00%3A00",
            asks(Some(1_704_067_200), None, mean),
        ),
        (
            "aggregation=rate%3Asum",
            asks(None, None, Some(Kind::RateSum)),
        ),
        ("aggregation=median", asks(None, None, None)),
        ("aggregation=%FF", asks(None, None, None)),
        ("aggregation", asks(None, None, None)),
        ("granularity=300", asks_all(Some(300), false, false)),
        ("granularity=1+day", asks_all(Some(86_400), false, false)),
        ("refresh=true&exact=0", asks_all(None, true, false)),
        ("%72efresh=false&exact=1", asks_all(None, false, true)),
    ];
    for (text, asked) in cases {
        assert_eq!(rt; read_query(rt.alloc(), text.as_bytes()), asked, "{text}");
    }
    Ok(())
}

#[test]
fn bad_queries_are_refused(rt: HostRuntime) -> Result<(), Fail> {
    let cases = [
        "resample=60",
        "Start=100",
        "=100",
        "start=100&start=100",
        "aggregation=mean&aggregation=max",
        "start=-1",
        "stop=2024-01-01T00%3A00%3A00+01:00",
        "granularity=0",
        "refresh=TRUE",
        "exact",
        "exact=1&refresh=",
    ];
    for text in cases {
        let asked = read_query(rt.alloc(), text.as_bytes());
        assert_eq!(rt; asked, Err(QueryFault::BadQuery), "{text}");
    }
    Ok(())
}

/// A split of two points, at these times in seconds.
fn split(alloc: Global, key: Stamp, first: Stamp, second: Stamp) -> Result<Split, Fail>
    ensures { IfOk result (λ split. map (λ p. p.at) split.points ≡ first ∷ second ∷ []) }
{
    let value = Frac::of(5, 1).ok_or("a value")?;
    let mut points = Vec::new(alloc);
    points.push(Point { at: first, value })?;
    points.push(Point { at: second, value })?;
    Ok(Split::make(key, points))
}

/// The times of rows, in seconds.
fn times_of(alloc: Global, rows: &[Row]) -> Result<Vec<u64>, Fail> {
    let mut times = Vec::new(alloc);
    for row in rows {
        times.push(row.at.nanos() / SECOND)?;
    }
    Ok(times)
}

#[test]
fn rows_within_bounds(rt: HostRuntime) -> Result<(), Fail> {
    let alloc = rt.alloc();
    let granularity = span(60).ok_or("a span")?;
    let first = split(alloc, stamp(0), stamp(60), stamp(120))?;
    let second = split(alloc, stamp(216_000), stamp(216_000), stamp(216_060))?;
    let splits = [first, second];
    // the oldest point, the start and the stop
    let cases = [
        (0, None, None, [60, 120, 216_000, 216_060].as_slice()),
        (120, None, None, [120, 216_000, 216_060].as_slice()),
        (121, None, None, [216_000, 216_060].as_slice()),
        (0, Some(130), None, [120, 216_000, 216_060].as_slice()),
        (0, Some(180), None, [216_000, 216_060].as_slice()),
        (0, None, Some(216_000), [60, 120].as_slice()),
        (0, None, Some(216_001), [60, 120, 216_000].as_slice()),
        (60, Some(120), Some(120), [].as_slice()),
    ];
    for (oldest, start, stop, times) in cases {
        let query = Query {
            start: start.map(stamp),
            stop: stop.map(stamp),
            kind: None,
            granularity: None,
        };
        let mut out = Answer::new(alloc);
        select(&splits, granularity, stamp(oldest), &query, &mut out)?;
        let found = times_of(alloc, out.rows())?;
        assert_eq!(rt; found.as_slice(), times, "{oldest} {start:?} {stop:?}");
    }
    Ok(())
}
