use super::*;
use archive_policy::{Kind, Name, Policy, Wanted};
use gno_num::{Frac, List, Span, Stamp, Value};
use series_model::{Batch, Measure, MetricId, Point};
use std::alloc::Global;
use std::test::Fail;

const METRIC: MetricId = MetricId(0x0000_0001_0000_8000_8000_0000_0000_0001);

// The post 1 of 10 at 100 seconds.
const POST: [u8; 45] = [
    1, 0, 0, 0, 0, 0, 0, 0, 1, 0, 0, 0, 1, 0, 0, 0x80, 0, 0x80, 0, 0, 0, 0, 0, 0, 1, 0, 0, 0, 1, 0,
    0, 0, 0x17, 0x48, 0x76, 0xe8, 0, 0, 0, 0, 0, 0, 0x98, 0x96, 0x80,
];

fn measure(nanos: u64, units: i64) -> Result<Measure, Fail> {
    Ok(Measure {
        at: Stamp::of_nanos(nanos).ok_or("a stamp")?,
        value: Value::of_units(units).ok_or("a value")?,
    })
}

#[test]
fn a_post_of_one_measure_is_written(rt: HostRuntime) -> Result<(), Fail> {
    let measures = vec![in rt.alloc(); measure(100_000_000_000, 10_000_000)?]?;
    let batch = Batch::make(measures)?;
    let bytes = write_post(rt.alloc(), 1, METRIC, &batch)?;
    assert_eq!(rt; bytes.as_slice(), POST.as_slice());
    Ok(())
}

const NEXT: [u8; 9] = [2, 0, 0, 0, 0, 0, 0, 1, 2];

#[test]
fn a_post_is_read(rt: HostRuntime) -> Result<(), Fail> {
    let IncomingItem::Post {
        number,
        metric,
        batch,
    } = read_incoming(rt.alloc(), &POST)?
    else {
        return Err(Fail::from("a post"));
    };
    assert_eq!(rt; number, 1);
    assert_eq!(rt; metric, METRIC);
    assert_eq!(rt; batch.measures().len(), 1);
    assert_eq!(rt; batch.measures()[0], measure(100_000_000_000, 10_000_000)?);
    Ok(())
}

#[test]
fn a_next_number_is_written_and_read(rt: HostRuntime) -> Result<(), Fail> {
    let bytes = write_next(rt.alloc(), 258)?;
    assert_eq!(rt; bytes.as_slice(), NEXT.as_slice());
    let IncomingItem::Next { number } = read_incoming(rt.alloc(), &bytes)? else {
        return Err(Fail::from("a next number"));
    };
    assert_eq!(rt; number, 258);
    Ok(())
}

// A record with these bytes in the place of what stands at `at`.
fn changed(alloc: Global, record: &[u8], at: usize, bytes: &[u8]) -> Result<Vec<u8>, Fail> {
    let mut changed = record.get(..at).ok_or("a place")?.to_vec(alloc)?;
    changed.extend_from_slice(bytes)?;
    changed.extend_from_slice(record.get(changed.len()..).unwrap_or(&[]))?;
    Ok(changed)
}

#[test]
fn the_first_field_that_is_none_is_named(rt: HostRuntime) -> Result<(), Fail> {
    let post = POST.as_slice();
    let next = NEXT.as_slice();
    let table: [(&[u8], usize, &[u8], Option<u64>); 17] = [
        (&[], 0, &[], Some(0)),
        (post, 0, &[0], Some(0)),
        (post, 0, &[3], Some(0)),
        (&[1, 2, 3], 0, &[], Some(1)),
        (post, 8, &[0], Some(1)),
        (post, 1, &[0x80], Some(1)),
        (post, 25, &[0, 0, 0xc3, 0x51], Some(25)),
        (post, 25, &[0, 0, 0, 2], Some(45)),
        (post, 25, &[0, 0, 0, 0], Some(29)),
        (
            post,
            29,
            &[0x7c, 0xe6, 0x6c, 0x50, 0xe2, 0x84, 0, 0],
            Some(29),
        ),
        (post, 37, &[0x0d, 0xe0, 0xb6, 0xb3, 0xa7, 0x64, 0, 0], None),
        (
            post,
            37,
            &[0x0d, 0xe0, 0xb6, 0xb3, 0xa7, 0x64, 0, 1],
            Some(37),
        ),
        (post, 37, &[0xf2, 0x1f, 0x49, 0x4c, 0x58, 0x9c, 0, 0], None),
        (post, 45, &[0], Some(45)),
        (&POST[..44], 44, &[], Some(37)),
        (next, 1, &[0x80, 0, 0, 0, 0, 0, 0, 0], None),
        (next, 1, &[0x80, 0, 0, 0, 0, 0, 0, 1], Some(1)),
    ];
    for (record, at, bytes, wanted) in table {
        let changed = changed(rt.alloc(), record, at, bytes)?;
        let fault = read_incoming(rt.alloc(), &changed).err();
        assert_eq!(rt;
            fault,
            wanted.map(|at| ReadFault::Bad { at }),
            "{bytes:?} at {at}"
        );
    }
    Ok(())
}

const REGISTER: [u8; 59] = [
    1, 0, 0, 0, 1, 0, 0, 0x80, 0, 0x80, 0, 0, 0, 0, 0, 0, 1, 0, 0, 0, 0, 0, 0, 0, 7, 4, 0x6c, 0x6f,
    0x61, 0x64, 0, 1, 2, 0, 0, 0, 0x0d, 0xf8, 0x47, 0x58, 0, 0, 0, 0x27, 0x60, 0, 0, 3, 0x46, 0x30,
    0xb8, 0xa0, 0, 0, 0, 0x22, 0x38, 8, 0x11,
];

fn policy(alloc: Global) -> Result<Policy, Fail> {
    let second = 1_000_000_000;
    let wanted = [
        Wanted {
            granularity: Span::of_nanos(3_600 * second),
            points: Some(8_760),
            timespan: None,
        },
        Wanted {
            granularity: Span::of_nanos(60 * second),
            points: Some(10_080),
            timespan: None,
        },
    ];
    let kinds = [Kind::RateSum, Kind::Count, Kind::Mean];
    let name = Name::of(alloc, b"load").ok().ok_or("a name")?;
    Ok(
        Policy::make(alloc, name, 1, &wanted, &kinds)
            .ok()
            .ok_or("a policy")?,
    )
}

#[test]
fn a_metric_is_registered(rt: HostRuntime) -> Result<(), Fail> {
    let item = ShelfItem::Register {
        metric: METRIC,
        done: 7,
        policy: policy(rt.alloc())?,
    };
    let bytes = write_shelf(rt.alloc(), &item)?;
    assert_eq!(rt; bytes.as_slice(), REGISTER.as_slice());
    let ShelfItem::Register {
        metric,
        done,
        policy: read,
    } = read_shelf(rt.alloc(), &bytes)?
    else {
        return Err(Fail::from("a metric"));
    };
    assert_eq!(rt; metric, METRIC);
    assert_eq!(rt; done, 7);
    assert!(rt; read.equals(&policy(rt.alloc())?));
    Ok(())
}

const COMMIT: [u8; 122] = [
    2, 0, 0, 0, 1, 0, 0, 0x80, 0, 0x80, 0, 0, 0, 0, 0, 0, 1, 0, 0, 0, 0, 0, 0, 0, 9, 0, 0, 0, 0x17,
    0x48, 0x76, 0xe8, 0, 1, 0, 0, 0, 9, 0x50, 0x2f, 0x90, 0, 0xff, 0xff, 0xff, 0xff, 0xff, 0xff,
    0xff, 0xff, 0, 0, 0, 0, 0, 0, 0, 1, 0, 0, 0, 0, 0, 1, 0x80, 0, 0, 0, 0, 0x12, 0, 0, 0, 0, 0, 0,
    0, 2, 0, 0, 0, 0, 0, 0, 0, 0, 0, 0, 0, 0, 0, 0, 0, 0, 0, 0, 0, 0, 0, 0, 0, 0x0b, 0, 0, 0xc4,
    0x73, 0x6b, 0x45, 0x80, 0, 0, 0, 0, 0, 0, 3, 0, 0, 0, 0, 0, 0x1c,
];

// A turn up to 100 seconds with the measure before the window, a chunk, a split that is gone and
// one that is stored.
fn turn(alloc: Global) -> Result<ShelfItem, Fail> {
    let chunk = Block {
        at: 98_304,
        len: 18,
    };
    let gone = Change {
        definition: 0,
        kind: Kind::Mean,
        key: Stamp::of_nanos(0).ok_or("a stamp")?,
        block: None,
    };
    let stored = Change {
        definition: 0,
        kind: Kind::RateSum,
        key: Stamp::of_nanos(216_000_000_000_000).ok_or("a stamp")?,
        block: Some(Block {
            at: 196_608,
            len: 28,
        }),
    };
    Ok(ShelfItem::Commit(CommitItem {
        metric: METRIC,
        done: 9,
        last: Stamp::of_nanos(100_000_000_000),
        anchor: Some(measure(40_000_000_000, -1)?),
        chunks: List::of(vec![in alloc; chunk]?),
        changes: List::of(vec![in alloc; gone, stored]?),
    }))
}

#[test]
fn a_turn_is_written_and_read(rt: HostRuntime) -> Result<(), Fail> {
    let item = turn(rt.alloc())?;
    let bytes = write_shelf(rt.alloc(), &item)?;
    assert_eq!(rt; bytes.as_slice(), COMMIT.as_slice());
    let read = read_shelf(rt.alloc(), &bytes)?;
    let again = write_shelf(rt.alloc(), &read)?;
    assert_eq!(rt; again.as_slice(), COMMIT.as_slice());
    Ok(())
}

#[test]
fn records_of_the_shelf_are_refused_at_their_place(rt: HostRuntime) -> Result<(), Fail> {
    let register = REGISTER.as_slice();
    let commit = COMMIT.as_slice();
    let table: [(&[u8], usize, &[u8], Option<u64>); 20] = [
        (register, 0, &[4], Some(0)),
        (register, 25, &[0], Some(25)),
        (register, 26, b"/", Some(26)),
        (register, 25, &[0xff], Some(26)),
        // Over 1,000 late granularities, a definition too many, or no kind.
        (register, 30, &[3, 0xe9], Some(25)),
        (register, 57, &[0, 0], Some(25)),
        // Granularities that fall, and one that doesn't divide the other.
        (
            register,
            45,
            &[0, 0, 0, 0x0d, 0xf8, 0x47, 0x58, 0],
            Some(45),
        ),
        (
            register,
            33,
            &[0, 0, 0, 0x0d, 0xf8, 0x47, 0x58, 1],
            Some(25),
        ),
        (register, 59, &[0], Some(59)),
        (
            commit,
            25,
            &[0xff, 0xff, 0xff, 0xff, 0xff, 0xff, 0xff, 0xff],
            None,
        ),
        (
            commit,
            25,
            &[0xff, 0xff, 0xff, 0xff, 0xff, 0xff, 0xff, 0xfe],
            Some(25),
        ),
        (commit, 33, &[2], Some(33)),
        (commit, 50, &[0xff], Some(78)),
        (commit, 66, &[0, 0, 0, 0], Some(66)),
        (commit, 70, &[0xff], Some(122)),
        // A place without a length, a kind that there isn't, and changes out of order.
        (commit, 88, &[1], Some(96)),
        (commit, 101, &[16], Some(101)),
        (commit, 78, &[1], Some(100)),
        (commit, 79, &[12], Some(100)),
        (&COMMIT[..121], 121, &[], Some(118)),
    ];
    for (record, at, bytes, wanted) in table {
        let changed = changed(rt.alloc(), record, at, bytes)?;
        let fault = read_shelf(rt.alloc(), &changed).err();
        assert_eq!(rt;
            fault,
            wanted.map(|at| ReadFault::Bad { at }),
            "{bytes:?} at {at}"
        );
    }
    Ok(())
}

const SPLIT: [u8; 54] = [
    0, 2, 0, 0, 0, 0, 0, 0, 0, 0, 0, 0, 0, 0, 0, 0, 0, 0x4c, 0x4b, 0x40, 0, 0, 0, 0, 0, 0, 0, 3,
    0x0e, 0x0f, 0xff, 0xff, 0xff, 0xff, 0xff, 0xff, 0xff, 0xff, 0xff, 0xff, 0xff, 0xff, 0xff, 0xff,
    0xff, 0xff, 0, 0, 0, 0, 0, 0, 0, 1,
];

const KEY: u64 = 216_000_000_000_000;

const MINUTE: u64 = 60_000_000_000;

fn point(nanos: u64, num: i128, den: u64) -> Result<Point, Fail> {
    Ok(Point {
        at: Stamp::of_nanos(nanos).ok_or("a stamp")?,
        value: Frac::of(num, den).ok_or("a fraction")?,
    })
}

#[test]
fn a_split_is_read_and_written(rt: HostRuntime) -> Result<(), Fail> {
    let key = Stamp::of_nanos(KEY).ok_or("a stamp")?;
    let granularity = Span::of_nanos(MINUTE).ok_or("a span")?;
    let split = read_split(rt.alloc(), &SPLIT, key, granularity)?;
    assert_eq!(rt; split.points().len(), 2);
    assert_eq!(rt; split.points()[0], point(KEY, 5_000_000, 3)?);
    assert_eq!(rt; split.points()[1], point(KEY + 3_599 * MINUTE, -1, 1)?);
    let bytes = write_split(rt.alloc(), &split, granularity)?;
    assert_eq!(rt; bytes.as_slice(), SPLIT.as_slice());
    Ok(())
}

const CHUNK: [u8; 34] = [
    0, 2, 0, 0, 0, 0x17, 0x48, 0x76, 0xe8, 0, 0, 0, 0, 0, 0, 0x98, 0x96, 0x80, 0, 0, 0, 0x17, 0x48,
    0x76, 0xe8, 1, 0xff, 0xff, 0xff, 0xff, 0xff, 0xff, 0xff, 0xff,
];

#[test]
fn a_chunk_is_read_and_written(rt: HostRuntime) -> Result<(), Fail> {
    let points = read_raw(rt.alloc(), &CHUNK)?;
    assert_eq!(rt; points.len(), 2);
    assert_eq!(rt; points[0], measure(100_000_000_000, 10_000_000)?);
    assert_eq!(rt; points[1], measure(100_000_000_001, -1)?);
    let bytes = write_raw(rt.alloc(), points.as_slice())?;
    assert_eq!(rt; bytes.as_slice(), CHUNK.as_slice());
    Ok(())
}

#[test]
fn blocks_are_refused_at_their_place(rt: HostRuntime) -> Result<(), Fail> {
    // 10^38, the greatest magnitude of a numerator.
    let most = [
        0x4b, 0x3b, 0x4c, 0xa8, 0x5a, 0x86, 0xc4, 0x7a, 9, 0x8a, 0x22, 0x40, 0, 0, 0, 0,
    ];
    let too_large = [
        0x4b, 0x3b, 0x4c, 0xa8, 0x5a, 0x86, 0xc4, 0x7a, 9, 0x8a, 0x22, 0x40, 0, 0, 0, 1,
    ];
    let last = 8_999_999_999_999_999_999;
    let splits: [(u64, usize, &[u8], Option<u64>); 11] = [
        (KEY, 0, &[0, 0], Some(0)),
        (KEY, 0, &[0x0e, 0x11], Some(0)),
        (KEY, 0, &[0, 1], Some(28)),
        (KEY, 0, &[0, 3], Some(54)),
        (KEY, 2, &[0x0e, 0x0f], Some(28)),
        (KEY, 28, &[0x0e, 0x10], Some(28)),
        (KEY, 20, &[0, 0, 0, 0, 0, 0, 0, 0], Some(20)),
        (KEY, 4, &most, None),
        (KEY, 4, &too_large, Some(4)),
        (KEY, 54, &[0], Some(54)),
        (last, 0, &[], Some(28)),
    ];
    let granularity = Span::of_nanos(MINUTE).ok_or("a span")?;
    for (key, at, bytes, wanted) in splits {
        let key = Stamp::of_nanos(key).ok_or("a stamp")?;
        let changed = changed(rt.alloc(), &SPLIT, at, bytes)?;
        let fault = read_split(rt.alloc(), &changed, key, granularity).err();
        let wanted = wanted.map(|at| ReadFault::Bad { at });
        assert_eq!(rt; fault, wanted, "{bytes:?} at {at} of a split");
    }
    let chunks: [(usize, &[u8], Option<u64>); 5] = [
        (0, &[0, 0], Some(0)),
        (0, &[0, 3], Some(34)),
        (25, &[0], Some(18)),
        (26, &[0x80], Some(26)),
        (34, &[0], Some(34)),
    ];
    for (at, bytes, wanted) in chunks {
        let changed = changed(rt.alloc(), &CHUNK, at, bytes)?;
        let fault = read_raw(rt.alloc(), &changed).err();
        let wanted = wanted.map(|at| ReadFault::Bad { at });
        assert_eq!(rt; fault, wanted, "{bytes:?} at {at} of a chunk");
    }
    Ok(())
}

// The metric 1 of the policy load: it is named cpu, counts seconds and belongs to the resource 9.
const ADD_METRIC: [u8; 45] = [
    7, 0, 0, 0, 1, 0, 0, 0x80, 0, 0x80, 0, 0, 0, 0, 0, 0, 1, 4, 0x6c, 0x6f, 0x61, 0x64, 3, 0x63,
    0x70, 0x75, 1, 0x73, 1, 0, 0, 0, 0, 0, 0, 0, 0, 0, 0, 0, 0, 0, 0, 0, 9,
];

#[test]
fn a_metric_is_added(rt: HostRuntime) -> Result<(), Fail> {
    let name = |text: &[u8]| Name::of(rt.alloc(), text).ok().ok_or("a name");
    let item = IndexItem::AddMetric {
        id: METRIC,
        policy: name(b"load")?,
        name: Some(name(b"cpu")?),
        unit: Some(name(b"s")?),
        resource: Some(9),
    };
    let bytes = write_index(rt.alloc(), &item)?;
    assert_eq!(rt; bytes.as_slice(), ADD_METRIC.as_slice());
    Ok(())
}

#[test]
fn each_record_of_the_index_is_read_and_written(rt: HostRuntime) -> Result<(), Fail> {
    let records: [&[u8]; 10] = [
        &ADD_METRIC,
        &[1, 0, 0, 0, 1, 0, 0xff, 0xff, 0xff, 0xff, 0xff, 0xff, 0xff],
        &[3, 4, 0x6c, 0x6f, 0x61, 0x64],
        &[4, 1, 0x72, 2, 0x63, 0x2a, 4, 0x6c, 0x6f, 0x61, 0x64],
        &[5, 1, 0x72],
        &[6, 0, 0, 0, 0, 0, 0, 0, 1],
        &[
            7, 0, 0, 0, 1, 0, 0, 0x80, 0, 0x80, 0, 0, 0, 0, 0, 0, 1, 4, 0x6c, 0x6f, 0x61, 0x64, 0,
            0, 0,
        ],
        &[8, 0, 0, 0, 1, 0, 0, 0x80, 0, 0x80, 0, 0, 0, 0, 0, 0, 1],
        &[9, 0, 0, 0, 0, 0, 0, 0, 0, 0, 0, 0, 0, 0, 0, 0, 9],
        &[0x0a, 0, 0, 0, 0, 0, 0, 0, 0, 0, 0, 0, 0, 0, 0, 0, 9],
    ];
    for record in records {
        let item = read_index(rt.alloc(), record)?;
        let bytes = write_index(rt.alloc(), &item)?;
        assert_eq!(rt; bytes.as_slice(), record);
    }
    Ok(())
}

#[test]
fn records_of_the_index_are_refused_at_their_place(rt: HostRuntime) -> Result<(), Fail> {
    // A store whose counter is the greatest, and a drawn counter.
    let store = [1, 0, 0, 0, 1, 0, 0xff, 0xff, 0xff, 0xff, 0xff, 0xff, 0xff];
    let draw = [6, 0, 0, 0, 0, 0, 0, 0, 1];
    let table: [(&[u8], usize, &[u8], Option<u64>); 9] = [
        (&store, 5, &[1], Some(5)),
        (&store, 0, &[11], Some(0)),
        (&draw, 8, &[0], Some(1)),
        (&draw, 1, &[1], Some(1)),
        (&ADD_METRIC, 17, &[0], Some(17)),
        // A flag that there isn't, a resource whose metric has no name, and a byte too many.
        (&ADD_METRIC, 28, &[2], Some(28)),
        (&ADD_METRIC, 22, &[0, 0, 1, 1], Some(24)),
        (&ADD_METRIC, 28, &[0], Some(29)),
        (&ADD_METRIC, 23, &[0x80], Some(23)),
    ];
    for (record, at, bytes, wanted) in table {
        let changed = changed(rt.alloc(), record, at, bytes)?;
        let fault = read_index(rt.alloc(), &changed).err();
        let wanted = wanted.map(|at| ReadFault::Bad { at });
        assert_eq!(rt; fault, wanted, "{bytes:?} at {at}");
    }
    Ok(())
}
