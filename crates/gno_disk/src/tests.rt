ghost use Rattle.std.specs.Prelude.{◌≡◌, ◌≤◌, length, IfOk};
ghost use Rattle.gno_disk.specs.Images.{bytes_of};

use crate::{Disk, FileDisk, Fusible, MemDisk};
use gno_num::Failed;
use std::alloc::Global;
use std::fs::{self, File, OpenOptions};
use std::test::Fail;

// Writes twice, syncs, cuts and reads.
fn use_disk<D: Disk>(disk: &mut D) -> Result<[u8; 2], Failed>
    requires { 1 ≤ D.size disk.old }
{
    let mut out = [0u8; 2];
    disk.write_at(1, &[5, 6, 7])?;
    disk.write_at(0, &[8])?;
    disk.sync()?;
    disk.cut(3)?;
    disk.read(1, &mut out)?;
    Ok(out)
}

fn disk(alloc: Global, fail: &[u64]) -> Result<MemDisk, Fail>
    ensures { IfOk result (λ disk. length (bytes_of disk) ≡ 2) }
{
    let bytes = Vec::from_slice(alloc, &[1, 2])?;
    Ok(MemDisk::new(alloc, bytes, Vec::from_slice(alloc, fail)?))
}

fn is_send<T: Send + Drop>(_value: T) {}

#[test]
fn a_disk_holds_what_was_written(rt: HostRuntime) -> Result<(), Fail> {
    let alloc = rt.alloc();
    let mut disk = disk(alloc, &[5])?;
    assert_eq!(rt; use_disk(&mut disk), Ok([5, 6]));
    assert_eq!(rt; disk.bytes(), [8, 5, 6].as_slice());
    assert_eq!(rt; disk.sync(), Err(Failed));
    assert_eq!(rt; disk.faults(), 1);
    Ok(())
}

#[test]
fn a_call_fails_where_it_is_listed(rt: HostRuntime) -> Result<(), Fail> {
    let alloc = rt.alloc();
    for call in 0..5 {
        let mut disk = disk(alloc, &[call])?;
        assert_eq!(rt; use_disk(&mut disk), Err(Failed));
        assert_eq!(rt; disk.faults(), 1);
        assert_eq!(rt; disk.sync(), Ok(()));
    }
    Ok(())
}

#[test]
fn a_fuse_lets_some_calls_pass(rt: HostRuntime) -> Result<(), Fail> {
    let alloc = rt.alloc();
    let mut disk = disk(alloc, &[])?;
    disk.fuse(1);
    assert_eq!(rt; disk.sync(), Ok(()));
    assert_eq!(rt; disk.sync(), Err(Failed));
    assert_eq!(rt; disk.starved(), 0);
    assert!(rt; disk.images_allow(&[1, 2]));
    assert!(rt; !disk.images_allow(&[1, 3]));
    disk.fuse(1);
    assert_eq!(rt; disk.write_at(0, &[9]), Ok(()));
    assert!(rt; disk.images_allow(&[7, 2]));
    is_send(disk);
    Ok(())
}

// The second write fails, and the places from 1 on are loose. The images were worked out apart from
// this program, from what `stop` says of its draws.
#[test]
fn a_stop_leaves_an_image(rt: HostRuntime) -> Result<(), Fail> {
    let alloc = rt.alloc();
    let mut disk = disk(alloc, &[1])?;
    assert_eq!(rt; disk.write_at(2, &[9]), Ok(()));
    assert_eq!(rt; disk.write_at(1, &[5]), Err(Failed));
    let images: [(u64, &[u8]); 6] = [
        (0, &[1, 2, 9]),
        (1, &[1, 0]),
        (2, &[1, 1]),
        (3, &[1, 254, 144]),
        (4, &[1, 2]),
        (9, &[1, 0, 9]),
    ];
    for (choice, image) in &images {
        let left = disk.stop(alloc, *choice)?;
        assert_eq!(rt; left.bytes(), *image);
        assert!(rt; disk.images_allow(left.bytes()));
    }
    assert_eq!(rt; disk.bytes(), [1, 2, 9].as_slice());
    Ok(())
}

#[test]
fn a_stop_after_a_sync_leaves_what_is_read(rt: HostRuntime) -> Result<(), Fail> {
    let alloc = rt.alloc();
    let mut disk = disk(alloc, &[])?;
    assert_eq!(rt; disk.write_at(1, &[5, 6]), Ok(()));
    assert_eq!(rt; disk.cut(2), Ok(()));
    assert_ne!(rt; disk.stop(alloc, 3)?.bytes(), disk.stop(alloc, 4)?.bytes());
    assert_eq!(rt; disk.sync(), Ok(()));
    for choice in 0..8 {
        assert_eq!(rt; disk.stop(alloc, choice)?.bytes(), [1, 5].as_slice());
    }
    Ok(())
}

#[test]
fn a_file_is_a_disk(rt: HostRuntime) -> Result<(), Fail> {
    let path = "gno_disk_file_test";
    let file = OpenOptions::new()
        .read(true)
        .write(true)
        .create(true)
        .truncate(true)
        .open(&rt, path)?;
    let mut disk = FileDisk::new(file)?;
    let written = disk.write_at(0, &[1]);
    assert_eq!(rt; written, Ok(()));
    if disk.len() == 1 {
        assert_eq!(rt; use_disk(&mut disk), Ok([5, 6]));
    }
    assert_eq!(rt; disk.len(), 3);
    // A file that is open to be read alone: a write fails, and the disk goes on.
    let mut disk = FileDisk::new(File::open(&rt, path)?)?;
    if disk.len() == 3 {
        assert_eq!(rt; disk.write_at(3, &[1, 2]), Err(Failed));
        assert_eq!(rt; (disk.len(), disk.faults()), (3, 1));
        assert_eq!(rt; disk.sync(), Ok(()));
    }
    fs::remove_file(&rt, path)?;
    Ok(())
}

// The device takes what is written and has nothing to sync: Linux refuses its sync.
#[test]
fn a_file_fails_from_a_failed_sync_on(rt: HostRuntime) -> Result<(), Fail> {
    let file = OpenOptions::new()
        .read(true)
        .write(true)
        .open(&rt, "/dev/null")?;
    let mut disk = FileDisk::new(file)?;
    assert_eq!(rt; disk.write_at(0, &[]), Ok(()));
    assert_eq!(rt; disk.sync(), Err(Failed));
    assert_eq!(rt; disk.write_at(0, &[]), Err(Failed));
    assert_eq!(rt; disk.read(0, &mut []), Err(Failed));
    assert_eq!(rt; disk.cut(0), Err(Failed));
    assert_eq!(rt; disk.faults(), 4);
    Ok(())
}
