// Worked examples of regrouping. Times are in seconds, and values are whole.
use crate::{changed, prepare};
use archive_policy::{Definition, Kind, Name, Policy, Wanted};
use bound_series::{Job, Prepared, Raw};
use gno_num::{Span, Stamp, Value, floor};
use series_model::{
    Batch, Measure, MetricId, Point, Ticket, accepted, points_of, series_of, window_of,
};
use std::alloc::Global;
use std::test::Fail;

const NANOS: u64 = 1_000_000_000;

fn stamp(at: u32) -> Result<Stamp, Fail> {
    Ok(Stamp::of_nanos(u64::from(at) * NANOS).ok_or("stamp")?)
}

fn batch(alloc: Global, given: &[(u32, i32)]) -> Result<Batch, Fail> {
    let mut made = Vec::new(alloc);
    for (at, value) in given {
        made.push(Measure {
            at: stamp(*at)?,
            value: Value::of_units(i64::from(*value) * 1_000_000).ok_or("value")?,
        })?;
    }
    Ok(Batch::make(made)?)
}

fn policy(alloc: Global) -> Result<Policy, Fail> {
    let wanted = [Wanted {
        granularity: Some(Span::of_nanos(300 * NANOS).ok_or("span")?),
        points: Some(12),
        timespan: None,
    }];
    Ok(Policy::make(alloc, Name::of(alloc, b"p")?, 0, &wanted, &[Kind::Mean])?)
}

// The points of a minute that the last batch changes, where the others were processed and cut before.
fn points(
    alloc: Global,
    earlier: &[&[(u32, i32)]],
    last: &[(u32, i32)],
    kind: Kind,
) -> Result<Vec<(u64, i128, u64)>, Fail> {
    let policy = policy(alloc)?;
    let mut raw = Raw::empty(alloc);
    for given in earlier {
        raw.accept(&policy, &batch(alloc, given)?)?;
        raw.cut(&policy);
    }
    let from = raw
        .accept(&policy, &batch(alloc, last)?)?
        .from
        .ok_or("from")?;
    let minute = Definition {
        granularity: Span::of_nanos(60 * NANOS).ok_or("span")?,
        points: 10,
    };
    let mut told = Vec::new(alloc);
    for p in changed(alloc, &raw, from, &minute, kind)?.as_slice() {
        told.push((
            p.at.nanos() / NANOS,
            p.value.num() / 1_000_000,
            p.value.den(),
        ))?;
    }
    Ok(told)
}

#[test]
fn buckets_from_the_first_touched(rt: HostRuntime) -> Result<(), Fail> {
    let alloc = rt.alloc();
    // a bucket without a measure in the batch has another change before it
    let rates = points(
        alloc,
        &[&[(310, 10), (370, 16)]],
        &[(320, 12)],
        Kind::RateLast,
    )?;
    assert_eq!(rt; rates.as_slice(), [(300, 2, 1), (360, 4, 1)].as_slice());
    // the change of the first member of a bucket is from the anchor, before the window
    let rates = points(
        alloc,
        &[&[(290, 10)], &[(310, 14)]],
        &[(305, 11)],
        Kind::RateLast,
    )?;
    assert_eq!(rt; rates.as_slice(), [(300, 3, 1)].as_slice());
    let sums = points(
        alloc,
        &[&[(290, 10)], &[(310, 14)]],
        &[(305, 11)],
        Kind::RateSum,
    )?;
    assert_eq!(rt; sums.as_slice(), [(300, 4, 1)].as_slice());
    // buckets before the first touched one aren't given
    let means = points(
        alloc,
        &[&[(310, 1), (370, 2)]],
        &[(380, 4), (430, 5)],
        Kind::Mean,
    )?;
    assert_eq!(rt; means.as_slice(), [(360, 6, 2), (420, 5, 1)].as_slice());
    Ok(())
}

const KINDS: [Kind; 4] = [Kind::Mean, Kind::Nunique, Kind::RateSum, Kind::RateLast];

// Minutes and five minutes, with a back window.
fn wide_policy(alloc: Global, back_window: u64) -> Result<Policy, Fail> {
    let minute = Wanted {
        granularity: Some(Span::of_nanos(60 * NANOS).ok_or("span")?),
        points: Some(10),
        timespan: None,
    };
    let five = Wanted {
        granularity: Some(Span::of_nanos(300 * NANOS).ok_or("span")?),
        points: Some(12),
        timespan: None,
    };
    let name = Name::of(alloc, b"p")?;
    Ok(Policy::make(alloc, name, back_window, &[five, minute], &KINDS)?)
}

// The next number of a generator, to 65,535.
fn draw(state: &mut u64) -> u64 {
    *state = state
        .wrapping_mul(6_364_136_223_846_793_005)
        .wrapping_add(1_442_695_040_888_963_407);
    *state >> 48
}

// So many batches of three measures within half an hour, of few values.
fn drawn(alloc: Global, state: &mut u64, count: u64) -> Result<Vec<Batch>, Fail> {
    let mut batches = Vec::new(alloc);
    for _ in 0..count {
        let mut made = Vec::new(alloc);
        for _ in 0..3 {
            let at = draw(state) % 1800;
            let value = (draw(state) % 4).cast_signed();
            made.push(Measure {
                at: Stamp::of_nanos(at * NANOS).ok_or("stamp")?,
                value: Value::of_units(value * 1_000_000).ok_or("value")?,
            })?;
        }
        batches.push(Batch::make(made)?)?;
    }
    Ok(batches)
}

// What is kept of batches that were processed, each cut by itself.
fn kept(alloc: Global, policy: &Policy, batches: &[Batch]) -> Result<Raw, Fail> {
    let mut raw = Raw::empty(alloc);
    for batch in batches {
        raw.accept(policy, batch)?;
        raw.cut(policy);
    }
    Ok(raw)
}

fn copies(alloc: Global, batches: &[Batch]) -> Result<Vec<Batch>, Fail> {
    let mut copies = Vec::new(alloc);
    for batch in batches {
        copies.push(batch.copy()?)?;
    }
    Ok(copies)
}

// The points of all measures from the bucket of a time on, where there is one.
fn late_points(
    alloc: Global,
    series: &[Measure],
    from: Option<Stamp>,
    definition: &Definition,
    kind: Kind,
) -> Result<Vec<Point>, Fail> {
    let mut late = Vec::new(alloc);
    let Some(from) = from else {
        return Ok(late);
    };
    let first = floor(from, definition.granularity);
    for p in points_of(alloc, kind, definition.granularity, series)?.as_slice() {
        if first.nanos() <= p.at.nanos() {
            late.push(*p)?;
        }
    }
    Ok(late)
}

fn held(holds: bool, what: &str) -> Result<(), Fail> {
    if holds { Ok(()) } else { Err(Fail::from(what)) }
}

// Compares what is prepared with what the plain functions make of all measures.
fn compare(
    alloc: Global,
    policy: &Policy,
    before: &[Batch],
    prepared: &Prepared,
) -> Result<(), Fail> {
    let mut batches = copies(alloc, before)?;
    for batch in prepared.job().batches() {
        batches.push(batch.copy()?)?;
    }
    let old = accepted(alloc, policy, before)?;
    let all = accepted(alloc, policy, batches.as_slice())?;
    let series = series_of(alloc, all.as_slice())?;
    let new = all.get(old.len()..).ok_or("more")?;
    let least = new.iter().map(|m| m.at.nanos()).min();
    held(prepared.from().map(|at| at.nanos()) == least, "from")?;
    compare_raw(policy, series.as_slice(), prepared)?;
    for (i, definition) in (0..).zip(policy.definitions()) {
        for kind in KINDS {
            let late = late_points(alloc, series.as_slice(), prepared.from(), definition, kind)?;
            held(prepared.points(i, kind) == late.as_slice(), "points")?;
        }
    }
    Ok(())
}

// Compares what is kept with the members from the window on and the one before them.
fn compare_raw(policy: &Policy, series: &[Measure], prepared: &Prepared) -> Result<(), Fail> {
    let last = series.last().map(|m| m.at);
    let window = window_of(policy.largest(), policy.back_window(), &last).map_or(0, |w| w.nanos());
    let place = series.iter().filter(|m| m.at.nanos() < window).count();
    let points = series.get(place..).ok_or("points")?;
    let earlier = series.get(..place).ok_or("members")?;
    held(prepared.raw().points() == points, "kept points")?;
    held(prepared.raw().anchor() == earlier.last().copied(), "anchor")
}

#[test]
fn prepared_as_from_scratch(rt: HostRuntime) -> Result<(), Fail> {
    let alloc = rt.alloc();
    let mut state = 7;
    for round in 0..24 {
        let policy = wide_policy(alloc, round % 3)?;
        let before = drawn(alloc, &mut state, round % 4)?;
        let count = draw(&mut state) % 5;
        let batches = drawn(alloc, &mut state, count)?;
        let base = kept(alloc, &policy, before.as_slice())?;
        let ticket = Ticket { sack: 0, number: 1 };
        let job = Job::make(ticket, MetricId(1), policy.copy()?, base, batches, 9);
        let Ok(prepared) = prepare(alloc, job) else {
            return Err(Fail::from("memory"));
        };
        compare(alloc, &policy, before.as_slice(), &prepared)?;
    }
    Ok(())
}
