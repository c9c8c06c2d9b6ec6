// Posts on disks in memory.
use crate::{Incoming, MountFault, Place, PostFault};
use gno_disk::{Disk, MemDisk};
use gno_num::{Damaged, Stamp, Value};
use series_model::{Batch, Measure, MetricId};
use std::alloc::Global;
use std::test::Fail;

const PLACE: Place = Place {
    role: 3,
    sack: 0,
    sacks: 1,
};

const METRIC: MetricId = MetricId(0x0000_0001_0000_8000_8000_0000_0000_0001);

const OTHER: MetricId = MetricId(7);

// The log of one post of 10 at 100 seconds: the header, the post, and a closed gate.
const BYTES: [u8; 82] = [
    1, 0, 0, 0, 0, 0, 0, 0, 0x12, 0x47, 0x4e, 0x4c, 0x47, 1, 2, 0, 0, 0, 1, 0, 0, 0, 0, 0, 0, 0, 1,
    1, 0, 0, 0, 0, 0, 0, 0, 0x2d, 1, 0, 0, 0, 0, 0, 0, 0, 1, 0, 0, 0, 1, 0, 0, 0x80, 0, 0x80, 0, 0,
    0, 0, 0, 0, 1, 0, 0, 0, 1, 0, 0, 0, 0x17, 0x48, 0x76, 0xe8, 0, 0, 0, 0, 0, 0, 0x98, 0x96, 0x80,
    0,
];

// The record of the next number 5.
const NEXT: [u8; 18] = [1, 0, 0, 0, 0, 0, 0, 0, 9, 2, 0, 0, 0, 0, 0, 0, 0, 5];

fn disk(alloc: Global, bytes: &[u8]) -> Result<MemDisk, Fail> {
    if bytes.len() > 256 {
        return Err(Fail::from("a disk"));
    }
    let bytes = Vec::from_slice(alloc, bytes)?;
    Ok(MemDisk::new(alloc, bytes, Vec::new(alloc)))
}

fn batch(alloc: Global) -> Result<Batch, Fail> {
    let measure = Measure {
        at: Stamp::of_nanos(100_000_000_000).ok_or("a stamp")?,
        value: Value::of_units(10_000_000).ok_or("a value")?,
    };
    Ok(Batch::make(vec![in alloc; measure]?)?)
}

fn mounted(alloc: Global, a: MemDisk, b: MemDisk) -> Result<Incoming<MemDisk>, Fail> {
    match Incoming::mount(alloc, a, b, PLACE) {
        Ok(log) => Ok(log),
        Err(_) => Err(Fail::from("mount")),
    }
}

#[test]
fn posts_are_kept(rt: HostRuntime) -> Result<(), Fail> {
    let alloc = rt.alloc();
    let Ok(mut log) = Incoming::create(alloc, disk(alloc, &[])?, disk(alloc, &[])?, PLACE) else {
        return Err(Fail::from("create"));
    };
    assert_eq!(rt; log.post(METRIC, &batch(alloc)?), Ok(1));
    let (a, b) = log.into_disks();
    assert_eq!(rt; a.bytes(), BYTES.as_slice());
    let mut log = mounted(alloc, a, b)?;
    assert_eq!(rt; (log.next(), log.is_broken()), (2, false));
    if log.is_broken() {
        return Err(Fail::from("broken"));
    }
    let found = log.batches(alloc, METRIC, 0, 64);
    let Ok(found) = found else {
        return Err(Fail::from("batches"));
    };
    let Some((number, batch)) = found.first() else {
        return Err(Fail::from("no batch"));
    };
    assert_eq!(rt; (found.len(), *number, batch.measures().len()), (1, 1, 1));
    Ok(())
}

#[test]
fn posts_of_a_metric_are_found(rt: HostRuntime) -> Result<(), Fail> {
    let alloc = rt.alloc();
    let Ok(mut log) = Incoming::create(alloc, disk(alloc, &[])?, disk(alloc, &[])?, PLACE) else {
        return Err(Fail::from("create"));
    };
    for metric in [METRIC, OTHER, METRIC, METRIC] {
        if log.is_broken() || log.post(metric, &batch(alloc)?).is_err() {
            return Err(Fail::from("post"));
        }
    }
    let table = [
        (METRIC, 0, Some(1), 3),
        (METRIC, 1, Some(3), 2),
        (OTHER, 0, Some(2), 1),
        (OTHER, 2, None, 0),
        (MetricId(8), 0, None, 0),
    ];
    for (metric, above, first, count) in table {
        assert_eq!(rt;
            (
                log.first_above(metric, above),
                log.count_above(metric, above)
            ),
            (first, count)
        );
    }
    if log.is_broken() {
        return Err(Fail::from("broken"));
    }
    let Ok(found) = log.batches(alloc, METRIC, 1, 1) else {
        return Err(Fail::from("batches"));
    };
    let Some((number, _)) = found.first() else {
        return Err(Fail::from("no batch"));
    };
    assert_eq!(rt; (found.len(), *number), (1, 3));
    Ok(())
}

// The third write, cut or sync of a post writes its gate.
#[test]
fn a_post_that_fails_is_not_there(rt: HostRuntime) -> Result<(), Fail> {
    let alloc = rt.alloc();
    let mut log = mounted(alloc, disk(alloc, &BYTES)?, disk(alloc, &[0])?)?;
    log.fuse(0, 2);
    if log.is_broken() {
        return Err(Fail::from("broken"));
    }
    let posted = log.post(OTHER, &batch(alloc)?);
    assert!(rt; matches!(posted, Err(PostFault::DiskFault(_))));
    assert_eq!(rt; (log.is_broken(), log.next()), (true, 2));
    let (a, b) = log.into_disks();
    let log = mounted(alloc, disk(alloc, a.bytes())?, disk(alloc, b.bytes())?)?;
    assert_eq!(rt; (log.next(), log.count_above(OTHER, 0)), (2, 0));
    Ok(())
}

// What mounting a disk of these bytes says.
fn fault_of(alloc: Global, bytes: &[u8]) -> Result<Option<MountFault>, Fail> {
    match Incoming::mount(alloc, disk(alloc, bytes)?, disk(alloc, &[0])?, PLACE) {
        Ok(_) => Ok(None),
        Err((_, _, fault)) => Ok(Some(fault)),
    }
}

// What mounting the log of the header and these two records says.
fn fault_behind(alloc: Global, first: &[u8], second: &[u8]) -> Result<Option<MountFault>, Fail> {
    let mut bytes = Vec::from_slice(alloc, &BYTES[..27])?;
    bytes.extend_from_slice(first)?;
    bytes.extend_from_slice(second)?;
    bytes.push(0)?;
    fault_of(alloc, bytes.as_slice())
}

fn damage(at: u64) -> Option<MountFault> {
    Some(MountFault::Damaged(Damaged { disk: 0, at }))
}

#[test]
fn damage_is_told(rt: HostRuntime) -> Result<(), Fail> {
    let alloc = rt.alloc();
    let post = &BYTES[27..81];
    let next = NEXT.as_slice();
    let odd = [1, 0, 0, 0, 0, 0, 0, 0, 1, 3];
    assert_eq!(rt; fault_behind(alloc, next, post)?, None);
    assert_eq!(rt; fault_behind(alloc, post, post)?, damage(81));
    assert_eq!(rt; fault_behind(alloc, post, next)?, damage(81));
    assert_eq!(rt; fault_behind(alloc, next, next)?, damage(45));
    assert_eq!(rt; fault_behind(alloc, &odd, &[])?, damage(27));
    Ok(())
}
