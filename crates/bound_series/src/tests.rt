// Worked examples of turns and cuts. Times are in seconds, and values are whole.
ghost use Rattle.std.specs.Prelude.{◌≡◌, IfOk, length};

use crate::{Job, Prepared, Raw};
use archive_policy::{Kind, Name, Policy, Wanted};
use gno_num::{Span, Stamp, Value};
use series_model::{Batch, Measure, MetricId, Ticket};
use std::alloc::Global;
use std::test::Fail;

const NANOS: u64 = 1_000_000_000;

fn stamp(at: u32) -> Result<Stamp, Fail> {
    Ok(Stamp::of_nanos(u64::from(at) * NANOS).ok_or("stamp")?)
}

fn measures(alloc: Global, given: &[(u32, i32)]) -> Result<Vec<Measure>, Fail> {
    let mut made = Vec::new(alloc);
    for (at, value) in given {
        made.push(Measure {
            at: stamp(*at)?,
            value: Value::of_units(i64::from(*value) * 1_000_000).ok_or("value")?,
        })?;
    }
    Ok(made)
}

// 12 points of five minutes, with this back window.
fn policy(alloc: Global, back_window: u64) -> Result<Policy, Fail>
    ensures { IfOk result (λ policy. (length policy.definitions ≡ 1) × (length policy.kinds ≡ 1)) }
{
    let wanted = [Wanted {
        granularity: Some(Span::of_nanos(300 * NANOS).ok_or("span")?),
        points: Some(12),
        timespan: None,
    }];
    Ok(Policy::make(
        alloc,
        Name::of(alloc, b"p")?,
        back_window,
        &wanted,
        &[Kind::Mean],
    )?)
}

// What is kept after these batches and a cut, and the least timestamp of the last of them.
fn kept(
    alloc: Global,
    back_window: u64,
    batches: &[&[(u32, i32)]],
) -> Result<(Raw, Option<Stamp>), Fail> {
    let policy = policy(alloc, back_window)?;
    let mut raw = Raw::empty(alloc);
    let mut from = None;
    for given in batches {
        let batch = Batch::make(measures(alloc, given)?)?;
        from = raw.accept(&policy, &batch)?.from;
    }
    raw.cut(&policy);
    Ok((raw, from))
}

#[test]
fn turns_and_cuts(rt: HostRuntime) -> Result<(), Fail> {
    let alloc = rt.alloc();
    // nothing is accepted
    let (raw, from) = kept(alloc, 0, &[&[]])?;
    assert!(rt; raw.points().is_empty());
    assert_eq!(rt;
        (raw.anchor().is_none(), raw.last(), from),
        (true, None, None)
    );

    // the window is 300 after the first batch: 299 is late, and the second batch takes its turn
    let (raw, from) = kept(alloc, 0, &[&[(400, 1)], &[(299, 5), (310, 7)]])?;
    assert_eq!(rt;
        raw.points(),
        measures(alloc, &[(310, 7), (400, 1)])?.as_slice()
    );
    assert_eq!(rt; (raw.anchor().is_none(), from), (true, Some(stamp(310)?)));

    // out of order and repeated: the later measure wins; the nearest before the window is the anchor
    let late: &[(u32, i32)] = &[(700, 9), (299, 5), (110, 1), (299, 6), (650, 2)];
    let (raw, from) = kept(alloc, 0, &[late])?;
    assert_eq!(rt;
        raw.points(),
        measures(alloc, &[(650, 2), (700, 9)])?.as_slice()
    );
    assert_eq!(rt;
        raw.anchor(),
        measures(alloc, &[(299, 6)])?.first().copied()
    );
    assert_eq!(rt; (raw.last(), from), (Some(stamp(700)?), Some(stamp(110)?)));

    // one bucket more is kept
    let (raw, _) = kept(alloc, 1, &[late])?;
    assert_eq!(rt;
        raw.points(),
        measures(alloc, &[(650, 2), (700, 9)])?.as_slice()
    );
    let (raw, _) = kept(alloc, 2, &[late])?;
    assert_eq!(rt; raw.copy()?.points().len(), 4);
    Ok(())
}

#[test]
fn kept_values_in_order(rt: HostRuntime) -> Result<(), Fail> {
    let alloc = rt.alloc();
    let anchor = measures(alloc, &[(100, 1)])?.first().copied();
    let rising = Raw::of(
        anchor,
        measures(alloc, &[(110, 2), (120, 3)])?,
        Some(stamp(120)?),
    );
    assert!(rt; rising.is_some());
    let early = Raw::of(
        anchor,
        measures(alloc, &[(100, 2), (120, 3)])?,
        Some(stamp(120)?),
    );
    assert!(rt; early.is_none());
    let falling = Raw::of(
        None,
        measures(alloc, &[(120, 2), (110, 3)])?,
        Some(stamp(110)?),
    );
    assert!(rt; falling.is_none());
    let other = Raw::of(None, measures(alloc, &[(110, 2)])?, Some(stamp(120)?));
    assert!(rt; other.is_none());

    // a measure that isn't after the anchor makes it a point
    let mut raw = rising.ok_or("raw")?;
    raw.accept(
        &policy(alloc, 0)?,
        &Batch::make(measures(alloc, &[(50, 4)])?)?,
    )?;
    let points = measures(alloc, &[(50, 4), (100, 1), (110, 2), (120, 3)])?;
    assert_eq!(rt; raw.points(), points.as_slice());
    assert!(rt; raw.anchor().is_none());
    Ok(())
}

const TICKET: Ticket = Ticket { sack: 3, number: 5 };

// A job without batches, with nothing new.
fn prepared_for_none(alloc: Global) -> Result<Prepared, Fail> {
    let job = Job::make(
        TICKET,
        MetricId(7),
        policy(alloc, 2)?,
        Raw::empty(alloc),
        Vec::new(alloc),
        9,
    );
    let mut points = Vec::new(alloc);
    points.push(Vec::new(alloc))?;
    Ok(Prepared::make(job, Raw::empty(alloc), points, None))
}

#[test]
fn job_without_batches(rt: HostRuntime) -> Result<(), Fail> {
    let prepared = prepared_for_none(rt.alloc())?;
    assert!(rt; prepared.raw().points().is_empty());
    assert_eq!(rt; prepared.from(), None);
    for (definition, kind) in [(0, Kind::Mean), (0, Kind::Min), (1, Kind::Mean)] {
        assert!(rt; prepared.points(definition, kind).is_empty());
    }
    assert_eq!(rt; prepared.job().base().last(), None);

    let job = prepared.into_job();
    assert_eq!(rt;
        (job.ticket(), job.metric(), job.upto()),
        (TICKET, MetricId(7), 9)
    );
    assert_eq!(rt; job.policy().back_window(), 2);
    assert!(rt; job.batches().is_empty());
    Ok(())
}
