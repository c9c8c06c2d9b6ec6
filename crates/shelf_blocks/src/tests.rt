// A chunk of one measure, written by hand: 10 at 100 seconds.

use crate::{BlockFault, read_series};
use gno_codec::Block;
use gno_disk::{Disk, MemDisk};
use gno_num::Stamp;
use std::alloc::Global;
use std::test::Fail;

const CHUNK: [u8; 18] = [
    0, 1, 0, 0, 0, 0x17, 0x48, 0x76, 0xe8, 0, 0, 0, 0, 0, 0, 0x98, 0x96, 0x80,
];

fn disk(alloc: Global) -> Result<MemDisk, Fail> {
    let bytes = Vec::from_slice(alloc, &CHUNK)?;
    Ok(MemDisk::new(alloc, bytes, Vec::new(alloc)))
}

fn stamp(seconds: u64) -> Result<Stamp, Fail> {
    Ok(Stamp::of_nanos(seconds.saturating_mul(1_000_000_000)).ok_or("a stamp")?)
}

#[test]
fn a_chunk_is_read(rt: HostRuntime) -> Result<(), Fail> {
    let alloc = rt.alloc();
    let mut disk = disk(alloc)?;
    if disk.len() < 18 {
        return Err(Fail::from("a length"));
    }
    let blocks = [Block { at: 0, len: 18 }];
    match read_series(alloc, &mut disk, &blocks, None, Some(stamp(100)?)) {
        Ok(raw) => {
            assert_eq!(rt; raw.points().len(), 1);
            assert_eq!(rt; raw.last().map_or(0, |at| at.nanos()), 100_000_000_000);
        }
        Err(_) => return Err(Fail::from("a series")),
    }
    match read_series(alloc, &mut disk, &blocks, None, Some(stamp(101)?)) {
        Err(fault) => assert_eq!(rt; fault, BlockFault::Damaged { at: 0 }),
        Ok(_) => return Err(Fail::from("another last time")),
    }
    Ok(())
}
