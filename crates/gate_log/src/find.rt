// Finding the records of a log.
ghost use Rattle.std.specs.Prelude.{[], ◌≡◌, ◌⊎◌, ◌<◌, ◌≤◌, ◌+◌, ◌^◌, length, take, drop, slice_index, IfSome, IfNone, IfOk, IfErr, OnOk, OnErr, IsErrOf};
ghost use Rattle.gno_num.specs.Faults.{Rose};
ghost use Rattle.byteorder.specs.Endian.{big_bytes, big_number};
ghost use Rattle.gate_log.specs.Records.{HoldsNoList, IsCutShort, IsDamaged};
ghost use Rattle.gate_log.specs.Places.{Spans, AreWritten, IsClosed};
ghost use Rattle.gate_log.specs.Steps.{IsSynced, IsUntouched};
ghost use Rattle.gate_log.specs.Scan.{IfCutShort, IsRecordAt, IsPieceOf};

use crate::device::sync_all;
use crate::piece::{Piece, first_piece};
use crate::place::Place;
use crate::scan::Stop;
use gno_disk::Disk;
use std::alloc::Global;

/// How many bytes of the disk are read at once.
const PIECE: u64 = 65536;

/// Syncs the disk, finds the places of its records, and gives the place of the first closed gate. It
/// reads large pieces, each place at most once but for a head that two of them share.
pub fn find_records<D: Disk>(
    alloc: Global,
    disk: &mut D,
    places: &mut Vec<Place>,
) -> Result<u64, Stop>
    requires { places.old.items ≡ [] }
    ensures places { IfOk result (λ end. Spans places.new.items 0 end) }
    ensures inside { IfOk result (λ end. end < D.size disk.old) }
    ensures limit { IfOk result (λ end. end < 2 ^ 60) }
    ensures size_limit { OnOk result (D.size disk.old ≤ 2 ^ 60) }
    ensures written { IfOk result (λ end. IfSome (D.told disk.old) (AreWritten places.new.items end)) }
    ensures closed { IfOk result (λ end. IfSome (D.told disk.old) (IsClosed end)) }
    ensures durable { OnOk result (IsSynced (D.told disk.new) (D.may_leave disk.new)) }
    ensures damaged { IfErr result (λ e. IfCutShort e (λ at. IfSome (D.told disk.old)
        (λ bytes. IsDamaged bytes at))) }
    ensures never_held { IfErr result (λ e. IfCutShort e (λ at. IfSome (D.told disk.old) HoldsNoList)) }
    ensures untouched { IsUntouched D.Disk disk.old disk.new }
    ensures later { D.faults disk.old ≤ D.faults disk.new }
    ensures came { D.came 1 disk.old disk.new }
    ensures cause { IsErrOf result Stop.Failed → Rose (D.faults disk.old) (D.faults disk.new) }
{
    sync_all(disk)?;
    let size = disk.len();
    let mut piece = first_piece(alloc, disk, size, PIECE)?;
    let mut end = 0;
    'records: loop {
        match read_head(disk, &mut piece, end, size) {
            Err(stop) => return Err(stop),
            Ok(None) => return Ok(end),
            Ok(Some(place)) => {
                places.push(place)?;
                end = place.at + place.len;
            }
        }
    }
}

/// The place of the body behind a gate, or none behind a closed gate.
pub fn read_head<D: Disk>(
    disk: &mut D,
    piece: &mut Piece,
    gate: u64,
    size: u64,
) -> Result<Option<Place>, Stop>
    requires all { size ≡ D.size disk.old }
    requires limit { size ≤ 2 ^ 60 }
    requires inside { gate ≤ size }
    requires piece { IsPieceOf size (D.told disk.old) piece.old }
    requires before { piece.old.at ≤ gate }
    ensures piece { OnOk result (IsPieceOf size (D.told disk.old) piece.new) }
    ensures before { OnOk result (piece.new.at ≤ gate) }
    ensures at { IfOk result (λ found. IfSome found (λ place. place.at ≡ gate + 9)) }
    ensures len { IfOk result (λ found. IfSome found (λ place. place.at + place.len < size)) }
    ensures open { IfOk result (λ found. IfSome found (λ place. IfSome (D.told disk.old) (IsRecordAt gate place))) }
    ensures none { IfOk result (λ found. IfNone found (gate < size)) }
    ensures closed { IfOk result (λ found. IfNone found (IfSome (D.told disk.old) (IsClosed gate))) }
    ensures cut_short { IfErr result (λ e. IfCutShort e (λ at. IfSome (D.told disk.old)
        (λ bytes. (length bytes ≡ gate) ⊎ IsCutShort (drop gate bytes)))) }
    ensures cut_at { IfErr result (λ e. IfCutShort e (λ at. at ≡ gate)) }
    ensures memory { IsErrOf result Stop.NoMemory → ⊥ }
    ensures untouched { IsUntouched D.Disk disk.old disk.new }
    ensures later { D.faults disk.old ≤ D.faults disk.new }
    ensures came { D.came 0 disk.old disk.new }
    ensures cause { IsErrOf result Stop.Failed → Rose (D.faults disk.old) (D.faults disk.new) }
{
    if gate == size {
        return Err(Stop::CutShort(gate));
    }
    piece.reach(disk, gate, size)?;
    piece.head_at(gate, size)
}
