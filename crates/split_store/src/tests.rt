// Shelves on disks in memory.
use crate::Shelf;
use gno_disk::MemDisk;
use gno_num::Damaged;
use log_pair::{MountFault, Place};
use std::alloc::Global;
use std::test::Fail;

const PLACE: Place = Place {
    role: 2,
    sack: 0,
    sacks: 2,
};

const OTHER: Place = Place {
    role: 3,
    sack: 1,
    sacks: 2,
};

// A log without records: the header, and a closed gate.
const BYTES: [u8; 27] = [
    1, 0, 0, 0, 0, 0, 0, 0, 0x12, 0x47, 0x4e, 0x4c, 0x47, 1, 3, 0, 0, 0, 2, 0, 0, 0, 0, 0, 0, 0, 1,
];

fn empty(alloc: Global) -> MemDisk {
    MemDisk::new(alloc, Vec::new(alloc), Vec::new(alloc))
}

#[test]
fn a_shelf_is_made_and_mounted(rt: HostRuntime) -> Result<(), Fail> {
    let alloc = rt.alloc();
    let Ok(shelf) = Shelf::create(alloc, empty(alloc), empty(alloc), empty(alloc), PLACE) else {
        return Err(Fail::from("create"));
    };
    assert!(rt; !shelf.is_broken());
    assert!(rt; shelf.metrics().is_empty());
    let (a, b, blocks) = shelf.into_disks();
    assert_eq!(rt; a.bytes(), with_gate(alloc)?.as_slice());
    let Ok(shelf) = Shelf::mount(alloc, a, b, blocks, PLACE) else {
        return Err(Fail::from("mount"));
    };
    assert!(rt; !shelf.is_broken() && shelf.metrics().is_empty());
    let (a, b, blocks) = shelf.into_disks();
    match Shelf::mount(alloc, a, b, blocks, OTHER) {
        Err((_, _, _, MountFault::Damaged(damaged))) => {
            assert_eq!(rt; damaged, Damaged { disk: 0, at: 0 });
            Ok(())
        }
        _ => Err(Fail::from("another place")),
    }
}

fn with_gate(alloc: Global) -> Result<Vec<u8>, Fail> {
    let mut bytes = Vec::from_slice(alloc, &BYTES)?;
    bytes.push(0)?;
    Ok(bytes)
}
