// A pair over disks in memory.
use crate::{LogFault, LogPair, MountFault, Place};
use gno_disk::{Disk, MemDisk};
use gno_num::Damaged;
use std::alloc::Global;
use std::test::Fail;

const PLACE: Place = Place {
    role: 2,
    sack: 3,
    sacks: 4,
};

// The log of one record of this place: its header in the first epoch, and the record.
const BYTES: [u8; 38] = [
    1, 0, 0, 0, 0, 0, 0, 0, 18, b'G', b'N', b'L', b'G', 1, 2, 0, 3, 0, 4, 0, 0, 0, 0, 0, 0, 0, 1,
    1, 0, 0, 0, 0, 0, 0, 0, 1, 7, 0,
];

fn disk(alloc: Global, bytes: &[u8]) -> Result<MemDisk, Fail> {
    if bytes.len() > 64 {
        return Err(Fail::from("a disk"));
    }
    let bytes = Vec::from_slice(alloc, bytes)?;
    Ok(MemDisk::new(alloc, bytes, Vec::new(alloc)))
}

// The first record of the pair on two disks.
fn first_record(alloc: Global, a: MemDisk, b: MemDisk) -> Result<Vec<u8>, Fail> {
    let Ok(mut pair) = LogPair::mount(alloc, a, b, PLACE) else {
        return Err(Fail::from("mount"));
    };
    if pair.count() == 0 {
        return Err(Fail::from("no record"));
    }
    match pair.read(alloc, 0) {
        Ok(record) => Ok(record),
        Err(_) => Err(Fail::from("read")),
    }
}

// What mounting two disks of these bytes says.
fn fault_of(alloc: Global, a: &[u8], b: &[u8], place: Place) -> Result<Option<MountFault>, Fail> {
    match LogPair::mount(alloc, disk(alloc, a)?, disk(alloc, b)?, place) {
        Ok(_) => Ok(None),
        Err((_, _, fault)) => Ok(Some(fault)),
    }
}

fn damaged(disk: u16, at: u64) -> Option<MountFault> {
    Some(MountFault::Damaged(Damaged { disk, at }))
}

#[test]
fn records_are_kept(rt: HostRuntime) -> Result<(), Fail> {
    let alloc = rt.alloc();
    let Ok(mut pair) = LogPair::create(alloc, disk(alloc, &[])?, disk(alloc, &[])?, PLACE) else {
        return Err(Fail::from("create"));
    };
    pair.reserve(1)?;
    assert_eq!(rt; pair.append(&[7]), Ok(0));
    assert_eq!(rt;
        (pair.count(), pair.epoch(), pair.is_broken()),
        (1, 1, false)
    );
    let (mut a, b) = pair.into_disks();
    assert_eq!(rt; (a.len(), b.len()), (38, 1));
    let mut bytes = [0; 38];
    a.read(0, &mut bytes)?;
    assert_eq!(rt; bytes, BYTES);
    assert_eq!(rt; first_record(alloc, a, b)?.as_slice(), [7].as_slice());
    Ok(())
}

#[test]
fn the_greater_epoch_counts(rt: HostRuntime) -> Result<(), Fail> {
    let alloc = rt.alloc();
    let mut later = BYTES;
    later[26] = 2;
    later[36] = 8;
    for (a, b, record) in [(BYTES, later, 8), (later, BYTES, 8), (BYTES, BYTES, 7)] {
        let found = first_record(alloc, disk(alloc, &a)?, disk(alloc, &b)?)?;
        assert_eq!(rt; found.as_slice(), [record].as_slice());
    }
    Ok(())
}

#[test]
fn damage_is_told(rt: HostRuntime) -> Result<(), Fail> {
    let alloc = rt.alloc();
    let other = Place { sacks: 2, ..PLACE };
    let mut open = BYTES;
    open[37] = 1;
    let mut none = BYTES;
    none[26] = 0;
    assert_eq!(rt; fault_of(alloc, &[], &[], PLACE)?, damaged(0, 0));
    assert_eq!(rt; fault_of(alloc, &[0], &BYTES, PLACE)?, None);
    assert_eq!(rt; fault_of(alloc, &BYTES, &[0], other)?, damaged(0, 0));
    assert_eq!(rt; fault_of(alloc, &[0], &BYTES, other)?, damaged(1, 0));
    assert_eq!(rt; fault_of(alloc, &open, &[0], PLACE)?, damaged(0, 37));
    assert_eq!(rt; fault_of(alloc, &[0], &none, PLACE)?, damaged(1, 0));
    Ok(())
}
