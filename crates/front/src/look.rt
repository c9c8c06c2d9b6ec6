// The look for a store on the disks of an index.
ghost use Rattle.std.specs.Prelude.{◌≡◌, ◌≢◌, ◌↔◌, ◌⊎◌, ⊤, true, false, IfSome, IfOk, IfErr, OnOk, OnErr, IsSome, IsTrue, IsErrOf};
ghost use Rattle.gate_log.specs.LogView.{IsFault, MatchFault};
ghost use Rattle.gate_log.specs.Steps.{IsUntouched};
ghost use Rattle.gno_num.specs.Faults.{Rose};
ghost use Rattle.log_pair.specs.PairView.{LeavesNoLog, both_faults};
ghost use Rattle.front.specs.Looking.{HasStore, IsFound, IsFree, IsReadyFor, IsWholeHeader, LeavesOldOrNone};

use gate_log::{LogFault, first_record, make_ready};
use gno_disk::Disk;
use gno_num::DiskFault;
use std::alloc::Global;

/// What stands at the beginning of a disk.
#[derive(Clone, Copy, Debug)]
pub enum Found {
    /// No whole record behind an open gate.
    Nothing,
    /// One that is no header.
    Other,
    /// A header.
    Header,
}

/// Why a look failed.
#[derive(Clone, Copy, Debug)]
pub enum LookFault {
    Disk,
    Memory,
}

/// Whether a record is a header of version 1, of any book.
pub fn is_whole_header(body: &[u8]) -> bool
    ensures { IsTrue result ↔ IsWholeHeader body.now }
{
    body.len() == 18 && body.starts_with(b"GNLG\x01")
}

/// Syncs the disk, and finds what stands at its beginning. It writes nothing.
fn found_on<D: Disk>(alloc: Global, disk: &mut D) -> Result<Found, LookFault>
    ensures found { IfOk result (λ found. IfSome (D.told disk.old) (IsFound found)) }
    ensures ready { IfOk result (λ found. IsReadyFor D.Disk found disk.new) }
    ensures untouched { IsUntouched D.Disk disk.old disk.new }
    ensures came { D.came 1 disk.old disk.new }
    ensures cause { IsErrOf result LookFault.Disk → Rose (D.faults disk.old) (D.faults disk.new) }
{
    match first_record(alloc, disk) {
        Ok(None) => Ok(Found::Nothing),
        Ok(Some(body)) => {
            if is_whole_header(&body) {
                Ok(Found::Header)
            } else {
                Ok(Found::Other)
            }
        }
        Err(LogFault::DiskFault(_)) => Err(LookFault::Disk),
        Err(LogFault::Memory) => Err(LookFault::Memory),
    }
}

/// Leaves no record on a disk: one that is no header gives way to a closed gate.
fn clear<D: Disk>(disk: &mut D, found: Found) -> Result<(), LookFault>
    requires no_header { found ≢ Found.Header }
    requires ready { IsReadyFor D.Disk found disk.old }
    ensures free { OnOk result (IsSome (D.told disk.new) → LeavesNoLog D.Disk disk.new) }
    ensures leaves { LeavesOldOrNone D.Disk disk.old disk.new }
    ensures came { D.came 5 disk.old disk.new }
    ensures cause { OnErr result (Rose (D.faults disk.old) (D.faults disk.new)) }
{
    match found {
        Found::Other => match make_ready(disk) {
            Ok(()) => Ok(()),
            Err(_) => Err(LookFault::Disk),
        },
        Found::Nothing => Ok(()),
        Found::Header => unreachable!(),
    }
}

/// Syncs both disks and looks for a store on them, whose header would stand on one. Where there is none, neither has a log
/// then.
fn look_in_turn<D: Disk>(alloc: Global, a: &mut D, b: &mut D) -> Result<bool, LookFault>
    ensures found { IfOk result (λ exists. exists ≡ true → IfSome (D.told a.old) HasStore ⊎ IfSome (D.told b.old) HasStore) }
    ensures untouched { IfOk result (λ exists. exists ≡ true → IsUntouched D.Disk a.old a.new × IsUntouched D.Disk b.old b.new) }
    ensures free { IfOk result (λ exists. exists ≡ false → IsFree D.Disk a.old a.new × IsFree D.Disk b.old b.new) }
    ensures leaves { LeavesOldOrNone D.Disk a.old a.new × LeavesOldOrNone D.Disk b.old b.new }
    ensures came { D.came 6 a.old a.new × D.came 6 b.old b.new }
    ensures cause { IsErrOf result LookFault.Disk → Rose (both_faults D.Disk a.old b.old) (both_faults D.Disk a.new b.new) }
{
    let first = match found_on(alloc, a) {
        Ok(found) => found,
        Err(fault) => return Err(fault),
    };
    let second = match found_on(alloc, b) {
        Ok(found) => found,
        Err(fault) => return Err(fault),
    };
    if matches!(first, Found::Header) || matches!(second, Found::Header) {
        return Ok(true);
    }
    match clear(a, first) {
        Ok(()) => {}
        Err(fault) => return Err(fault),
    }
    match clear(b, second) {
        Ok(()) => Ok(false),
        Err(fault) => Err(fault),
    }
}

/// The same, with the faults of both disks.
pub fn look_for_store<D: Disk>(alloc: Global, a: &mut D, b: &mut D) -> Result<bool, LogFault>
    ensures found { IfOk result (λ exists. exists ≡ true → IfSome (D.told a.old) HasStore ⊎ IfSome (D.told b.old) HasStore) }
    ensures untouched { IfOk result (λ exists. exists ≡ true → IsUntouched D.Disk a.old a.new × IsUntouched D.Disk b.old b.new) }
    ensures free { IfOk result (λ exists. exists ≡ false → IsFree D.Disk a.old a.new × IsFree D.Disk b.old b.new) }
    ensures leaves { LeavesOldOrNone D.Disk a.old a.new × LeavesOldOrNone D.Disk b.old b.new }
    ensures came { D.came 6 a.old a.new × D.came 6 b.old b.new }
    ensures cause { IfErr result (λ e. MatchFault e (IsFault (both_faults D.Disk a.old b.old) (both_faults D.Disk a.new b.new)) ⊤) }
{
    let before = a.faults().saturating_add(b.faults());
    match look_in_turn(alloc, a, b) {
        Ok(exists) => Ok(exists),
        Err(LookFault::Memory) => Err(LogFault::Memory),
        Err(LookFault::Disk) => {
            let after = a.faults().saturating_add(b.faults());
            Err(LogFault::DiskFault(DiskFault { before, after }))
        }
    }
}
