// The first record of a disk.
ghost use Rattle.std.specs.Prelude.{◌≡◌, ◌+◌, ◌<◌, ◌≤◌, ⊤, IfSome, IfNone, IfOk, IfErr, OnOk, OnErr, IsErrOf, drop};
ghost use Rattle.gno_num.specs.Faults.{Rose};
ghost use Rattle.gate_log.specs.LogView.{IsFault, MatchFault};
ghost use Rattle.gate_log.specs.Records.{BeginsWith, HasNoLog, IsCutShort};
ghost use Rattle.gate_log.specs.Places.{IsClosed};
ghost use Rattle.gate_log.specs.Scan.{IfCutShort, IsRecordAt};
ghost use Rattle.gate_log.specs.Steps.{IsSynced, IsUntouched};

use crate::LogFault;
use crate::device::{read_body, sync_all};
use crate::find::read_head;
use crate::frame::HEAD;
use crate::piece::first_piece;
use crate::place::Place;
use crate::scan::Stop;
use gno_disk::Disk;
use gno_num::DiskFault;
use std::alloc::Global;

/// Syncs the disk and gives the record at place 0, or none where no record stands there whole with
/// the next gate behind it: the disk is empty, its first gate is closed, or the record is cut
/// short. It writes nothing.
pub fn first_record<D: Disk>(alloc: Global, disk: &mut D) -> Result<Option<Vec<u8>>, LogFault>
    ensures found { IfOk result (λ found. IfSome found (λ body. IfSome (D.told disk.old) (BeginsWith body.items))) }
    ensures none { IfOk result (λ found. IfNone found (IfSome (D.told disk.old) HasNoLog)) }
    ensures durable { OnOk result (IsSynced (D.told disk.new) (D.may_leave disk.new)) }
    ensures untouched { IsUntouched D.Disk disk.old disk.new }
    ensures later { D.faults disk.old ≤ D.faults disk.new }
    ensures came { D.came 1 disk.old disk.new }
    ensures cause { IfErr result (λ e. MatchFault e (IsFault (D.faults disk.old) (D.faults disk.new)) ⊤) }
{
    let before = disk.faults();
    let place = match first_place(alloc, disk) {
        Ok(Some(place)) => place,
        Ok(None) | Err(Stop::CutShort(_)) => return Ok(None),
        Err(Stop::NoMemory) => return Err(LogFault::Memory),
        Err(Stop::Failed) => {
            let after = disk.faults();
            return Err(LogFault::DiskFault(DiskFault { before, after }));
        }
    };
    let mut body = vec![in alloc; 0; place.len as usize]?;
    if read_body(disk, place.at, &mut body).is_err() {
        let after = disk.faults();
        return Err(LogFault::DiskFault(DiskFault { before, after }));
    }
    Ok(Some(body))
}

// Syncs the disk and gives the place of the body of its first record, where that is whole.
fn first_place<D: Disk>(alloc: Global, disk: &mut D) -> Result<Option<Place>, Stop>
    ensures at { IfOk result (λ found. IfSome found (λ place. place.at ≡ 9)) }
    ensures len { IfOk result (λ found. IfSome found (λ place. place.at + place.len < D.size disk.old)) }
    ensures found { IfOk result (λ found. IfSome found (λ place. IfSome (D.told disk.old) (IsRecordAt 0 place))) }
    ensures none { IfOk result (λ found. IfNone found (IfSome (D.told disk.old) HasNoLog)) }
    ensures cut_short { IfErr result (λ e. IfCutShort e (λ _. IfSome (D.told disk.old) HasNoLog)) }
    ensures durable { OnOk result (IsSynced (D.told disk.new) (D.may_leave disk.new)) }
    ensures durable_too { IfErr result (λ e. IfCutShort e (λ _. IsSynced (D.told disk.new) (D.may_leave disk.new))) }
    ensures untouched { IsUntouched D.Disk disk.old disk.new }
    ensures later { D.faults disk.old ≤ D.faults disk.new }
    ensures came { D.came 1 disk.old disk.new }
    ensures cause { IsErrOf result Stop.Failed → Rose (D.faults disk.old) (D.faults disk.new) }
{
    sync_all(disk)?;
    let size = disk.len();
    let mut piece = first_piece(alloc, disk, size, HEAD)?;
    read_head(disk, &mut piece, 0, size)
}
