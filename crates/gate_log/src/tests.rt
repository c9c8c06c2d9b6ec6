ghost use Rattle.std.specs.Prelude.{◌≡◌, ◌≤◌, ◌^◌, false, length, IfOk};

use crate::{Log, LogFault, MountFault, damage_has_one_place, first_record, make_ready};
use gno_disk::MemDisk;
use gno_num::{Damaged, DiskFault};
use std::alloc::Global;
use std::test::Fail;

// The header of the log of posts of sack 0 of 1, at epoch 1.
const HEADER: [u8; 18] = [
    0x47, 0x4e, 0x4c, 0x47, 1, 2, 0, 0, 0, 1, 0, 0, 0, 0, 0, 0, 0, 1,
];

// What stands on the disk: an open gate, the length, the header, and a closed gate.
const HEADED: [u8; 28] = [
    1, 0, 0, 0, 0, 0, 0, 0, 0x12, 0x47, 0x4e, 0x4c, 0x47, 1, 2, 0, 0, 0, 1, 0, 0, 0, 0, 0, 0, 0, 1,
    0,
];

fn disk(alloc: Global, bytes: &[u8], fail: &[u64]) -> Result<MemDisk, Fail>
    requires { length bytes.now ≤ 2 ^ 60 }
{
    let bytes = Vec::from_slice(alloc, bytes)?;
    Ok(MemDisk::new(alloc, bytes, Vec::from_slice(alloc, fail)?))
}

fn headed(alloc: Global, disk: MemDisk) -> Result<Log<MemDisk>, Fail>
    ensures whole { IfOk result (λ log. log.broken ≡ false) }
    ensures one { IfOk result (λ log. log.count ≡ 1) }
{
    match Log::create(alloc, disk, &HEADER) {
        Ok(log) => Ok(log),
        Err((_, fault)) => Err(fault.into()),
    }
}

#[test]
fn a_header_stands_behind_its_gate(rt: HostRuntime) -> Result<(), Fail> {
    let alloc = rt.alloc();
    let empty = headed(alloc, disk(alloc, &[], &[])?)?;
    assert_eq!(rt; empty.into_disk().bytes(), HEADED.as_slice());
    let closed = headed(alloc, disk(alloc, &[2, 3, 4], &[])?)?;
    assert_eq!(rt; closed.into_disk().bytes(), HEADED.as_slice());
    let open = headed(alloc, disk(alloc, &[1, 3, 4], &[])?)?;
    assert_eq!(rt; open.into_disk().bytes(), HEADED.as_slice());
    Ok(())
}

#[test]
fn records_are_read_as_they_were_added(rt: HostRuntime) -> Result<(), Fail> {
    let alloc = rt.alloc();
    let mut log = headed(alloc, disk(alloc, &[], &[])?)?;
    log.reserve(3)?;
    assert_eq!(rt; log.append(&[7, 8, 9])?, 1);
    assert_eq!(rt; log.append(&[])?, 2);
    assert_eq!(rt; log.count(), 3);
    assert_eq!(rt; log.read(alloc, 1)?.as_slice(), [7, 8, 9].as_slice());
    assert!(rt; !log.is_broken());
    let records = [
        1, 0, 0, 0, 0, 0, 0, 0, 3, 7, 8, 9, 1, 0, 0, 0, 0, 0, 0, 0, 0, 0,
    ];
    assert!(rt; log.into_disk().bytes().ends_with(&records));
    Ok(())
}

#[test]
fn a_fault_breaks_the_log(rt: HostRuntime) -> Result<(), Fail> {
    let alloc = rt.alloc();
    // On an empty disk `create` makes seven calls, and then `append` makes four.
    for call in 7..11 {
        let mut log = headed(alloc, disk(alloc, &[], &[call])?)?;
        let fault = DiskFault {
            before: 0,
            after: 1,
        };
        assert_eq!(rt; log.append(&[7]), Err(LogFault::DiskFault(fault)));
        assert!(rt; log.is_broken());
        assert_eq!(rt; log.count(), 1);
    }
    Ok(())
}

fn mounted(alloc: Global, disk: MemDisk) -> Result<Log<MemDisk>, Fail>
    ensures whole { IfOk result (λ log. log.broken ≡ false) }
{
    match Log::mount(alloc, disk) {
        Ok(log) => Ok(log),
        Err((_, fault)) => Err(fault.into()),
    }
}

// What stands on the disk once the record 7 is added, with this gate before it.
fn with_seven(alloc: Global, gate: u8) -> Result<Vec<u8>, Fail> {
    let mut bytes = Vec::from_slice(alloc, &HEADED[..27])?;
    bytes.extend_from_slice(&[gate, 0, 0, 0, 0, 0, 0, 0, 1, 7, 0])?;
    Ok(bytes)
}

#[test]
fn a_gate_that_is_not_synced_is_loose(rt: HostRuntime) -> Result<(), Fail> {
    let alloc = rt.alloc();
    // The last sync of this call fails.
    let mut log = headed(alloc, disk(alloc, &[], &[10])?)?;
    assert!(rt; log.append(&[7]).is_err());
    let broken = log.into_disk();
    assert!(rt; broken.images_allow(&with_seven(alloc, 0)?));
    assert!(rt; broken.images_allow(&with_seven(alloc, 1)?));
    assert!(rt; !broken.images_allow(&HEADED));
    // The first sync fails.
    let mut log = headed(alloc, disk(alloc, &[], &[8])?)?;
    assert!(rt; log.append(&[7]).is_err());
    let broken = log.into_disk();
    assert!(rt; broken.images_allow(&HEADED));
    assert!(rt; broken.images_allow(&with_seven(alloc, 0)?));
    assert!(rt; !broken.images_allow(&with_seven(alloc, 1)?));
    Ok(())
}

#[test]
fn a_log_is_found_again(rt: HostRuntime) -> Result<(), Fail> {
    let alloc = rt.alloc();
    let mut log = headed(alloc, disk(alloc, &[], &[10])?)?;
    assert!(rt; log.append(&[7]).is_err());
    let mut log = mounted(alloc, log.into_disk())?;
    assert_eq!(rt; log.count(), 2);
    assert_eq!(rt; log.append(&[8, 9])?, 2);
    let mut log = mounted(alloc, log.into_disk())?;
    assert_eq!(rt; log.count(), 3);
    assert_eq!(rt; log.read(alloc, 0)?.as_slice(), HEADER.as_slice());
    Ok(())
}

#[test]
fn a_broken_log_is_mounted_again(rt: HostRuntime) -> Result<(), Fail> {
    let alloc = rt.alloc();
    let mut log = headed(alloc, disk(alloc, &[], &[10])?)?;
    assert!(rt; log.append(&[7]).is_err());
    log.mount_again(alloc)?;
    assert_eq!(rt; log.count(), 2);
    assert_eq!(rt; log.append(&[8])?, 2);
    assert_eq!(rt; log.read(alloc, 1)?.as_slice(), [7].as_slice());
    Ok(())
}

#[test]
fn a_fuse_breaks_the_log(rt: HostRuntime) -> Result<(), Fail> {
    let alloc = rt.alloc();
    let mut log = headed(alloc, disk(alloc, &[], &[])?)?;
    log.fuse(0, 2);
    let fault = DiskFault {
        before: 0,
        after: 1,
    };
    assert_eq!(rt; log.append(&[7]), Err(LogFault::DiskFault(fault)));
    assert_eq!(rt; log.starved(), 0);
    assert_eq!(rt; log.into_disk().bytes(), with_seven(alloc, 0)?.as_slice());
    Ok(())
}

// The records that a stop leaves of a log whose `append` of the record 7 fails in this call.
fn after_stop(alloc: Global, call: u64, choice: u64) -> Result<Vec<Vec<u8>>, Fail> {
    let mut log = headed(alloc, disk(alloc, &[], &[call])?)?;
    let _ = log.append(&[7]);
    let mut left = mounted(alloc, log.into_disk().stop(alloc, choice)?)?;
    let mut records = Vec::new(alloc);
    for index in 0..left.count() {
        records.push(left.read(alloc, index)?)?;
    }
    Ok(records)
}

#[test]
fn a_stop_leaves_the_old_records_or_the_new(rt: HostRuntime) -> Result<(), Fail> {
    let alloc = rt.alloc();
    let mut old = Vec::new(alloc);
    old.push(Vec::from_slice(alloc, &HEADER)?)?;
    let mut new = old.clone()?;
    new.push(Vec::from_slice(alloc, &[7])?)?;
    let mut was_old = false;
    let mut was_new = false;
    for call in 7..11 {
        for choice in 0..16 {
            let left = after_stop(alloc, call, choice)?;
            // The gate is opened by the third call of an `append`.
            assert!(rt; left == old || (call >= 9 && left == new));
            was_old = was_old || left == old;
            was_new = was_new || left == new;
        }
    }
    assert!(rt; was_old && was_new);
    Ok(())
}

fn mount_fault(alloc: Global, bytes: &[u8]) -> Result<Option<MountFault>, Fail>
    requires { length bytes.now ≤ 2 ^ 60 }
{
    match Log::mount(alloc, disk(alloc, bytes, &[])?) {
        Ok(_) => Ok(None),
        Err((_, fault)) => Ok(Some(fault)),
    }
}

#[test]
fn a_log_that_is_cut_short_is_damaged(rt: HostRuntime) -> Result<(), Fail> {
    let alloc = rt.alloc();
    let first = Some(MountFault::Damaged(Damaged { disk: 0, at: 0 }));
    assert_eq!(rt; mount_fault(alloc, &[])?, first);
    assert_eq!(rt; mount_fault(alloc, &[1, 0, 0])?, first);
    assert_eq!(rt; mount_fault(alloc, &HEADED[..27])?, first);
    let mut bytes = HEADED;
    assert_eq!(rt; mount_fault(alloc, &bytes)?, None);
    bytes[27] = 1;
    let second = Some(MountFault::Damaged(Damaged { disk: 0, at: 27 }));
    assert_eq!(rt; mount_fault(alloc, &bytes)?, second);
    Ok(())
}

fn first_of(alloc: Global, bytes: &[u8]) -> Result<Option<Vec<u8>>, Fail>
    requires { length bytes.now ≤ 2 ^ 60 }
{
    let mut disk = disk(alloc, bytes, &[])?;
    Ok(first_record(alloc, &mut disk)?)
}

#[test]
fn the_first_record_is_found_where_it_is_whole(rt: HostRuntime) -> Result<(), Fail> {
    let alloc = rt.alloc();
    assert_eq!(rt;
        first_of(alloc, &HEADED)?,
        Some(Vec::from_slice(alloc, &HEADER)?)
    );
    assert_eq!(rt; first_of(alloc, &[])?, None);
    assert_eq!(rt; first_of(alloc, &[2, 0])?, None);
    assert_eq!(rt; first_of(alloc, &[1, 0, 0])?, None);
    assert_eq!(rt; first_of(alloc, &HEADED[..27])?, None);
    let mut failing = disk(alloc, &HEADED, &[0])?;
    let fault = DiskFault {
        before: 0,
        after: 1,
    };
    assert_eq!(rt;
        first_record(alloc, &mut failing),
        Err(LogFault::DiskFault(fault))
    );
    Ok(())
}

fn two_more(alloc: Global) -> Result<Vec<Vec<u8>>, Fail> {
    let mut records = Vec::new(alloc);
    records.push(Vec::from_slice(alloc, &[7])?)?;
    records.push(Vec::new(alloc))?;
    Ok(records)
}

#[test]
fn a_log_is_made_of_many_records(rt: HostRuntime) -> Result<(), Fail> {
    let alloc = rt.alloc();
    let rest = two_more(alloc)?;
    let log = match Log::create_with(alloc, disk(alloc, &[1, 3, 4], &[])?, &HEADER, &rest) {
        Ok(log) => log,
        Err((_, fault)) => return Err(fault.into()),
    };
    assert_eq!(rt; log.count(), 3);
    let mut found = mounted(alloc, log.into_disk())?;
    assert_eq!(rt; found.count(), 3);
    assert_eq!(rt; found.read(alloc, 1)?.as_slice(), [7].as_slice());
    Ok(())
}

fn is_send<T: Send + Drop>(_value: T) {}

#[test]
fn a_log_is_made_anew_and_sent(rt: HostRuntime) -> Result<(), Fail> {
    let alloc = rt.alloc();
    let mut log = Log::unmounted(alloc, disk(alloc, &[1, 3, 4], &[])?);
    log.reserve_anew(3, 19)?;
    log.make_anew(&HEADER, &two_more(alloc)?)?;
    assert_eq!(rt; log.append(&[8])?, 3);
    assert_eq!(rt; log.read(alloc, 0)?.as_slice(), HEADER.as_slice());
    let mut other = disk(alloc, &[1, 3, 4], &[])?;
    assert_eq!(rt; make_ready(&mut other), Ok(()));
    assert_eq!(rt; other.bytes(), [0].as_slice());
    damage_has_one_place(&[1, 3, 4]);
    is_send(other);
    is_send(log);
    Ok(())
}
