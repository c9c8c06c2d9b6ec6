// Bytes of a disk, read in large pieces.
ghost use Rattle.std.specs.Prelude.{◌≡◌, ◌≢◌, ◌⊎◌, ◌<◌, ◌≤◌, ◌+◌, ◌-◌, ◌^◌, length, drop, IfSome, IfNone, IfOk, IfErr, OnOk, OnErr, IsErrOf};
ghost use Rattle.gno_num.specs.Faults.{Rose};
ghost use Rattle.gate_log.specs.Places.{IsClosed};
ghost use Rattle.gate_log.specs.Scan.{IfCutShort, IsRecordAt, IsHeadCutShort, IsPieceOf, ReachesHead, head_in};
ghost use Rattle.gate_log.specs.Steps.{IsUntouched};

use crate::device::read_body;
use crate::frame::{HEAD, OPEN, length_of};
use crate::place::Place;
use crate::scan::Stop;
use gno_disk::Disk;
use gno_num::Failed;
use std::alloc::Global;

/// Bytes that were read in one call, from a place on.
#[derive(Drop)]
pub struct Piece {
    pub at: u64,
    pub bytes: Vec<u8>,
}

/// Reads the first piece, of at most so many bytes.
pub fn first_piece<D: Disk>(
    alloc: Global,
    disk: &mut D,
    size: u64,
    most: u64,
) -> Result<Piece, Stop>
    requires all { size ≡ D.size disk.old }
    requires limit { size ≤ 2 ^ 60 }
    requires head { 9 ≤ most }
    ensures piece { IfOk result (IsPieceOf size (D.told disk.old)) }
    ensures start { IfOk result (λ piece. piece.at ≡ 0) }
    ensures untouched { IsUntouched D.Disk disk.old disk.new }
    ensures later { D.faults disk.old ≤ D.faults disk.new }
    ensures came { D.came 0 disk.old disk.new }
    ensures not_cut { IfErr result (λ e. IfCutShort e (λ _. ⊥)) }
    ensures cause { IsErrOf result Stop.Failed → Rose (D.faults disk.old) (D.faults disk.new) }
{
    let mut bytes = vec![in alloc; 0; size.min(most) as usize]?;
    read_body(disk, 0, &mut bytes)?;
    Ok(Piece { at: 0, bytes })
}

impl Piece {
    /// Reads the next piece, unless this one has the head of the record whose gate stands there.
    pub fn reach<D: Disk>(&mut self, disk: &mut D, gate: u64, size: u64) -> Result<(), Failed>
        requires all { size ≡ D.size disk.old }
        requires limit { size ≤ 2 ^ 60 }
        requires piece { IsPieceOf size (D.told disk.old) self.old }
        requires before { self.old.at ≤ gate }
        requires inside { gate < size }
        ensures piece { OnOk result (IsPieceOf size (D.told disk.old) self.new) }
        ensures before { OnOk result (self.new.at ≤ gate) }
        ensures reached { OnOk result (ReachesHead size self.new gate) }
        ensures untouched { IsUntouched D.Disk disk.old disk.new }
        ensures later { D.faults disk.old ≤ D.faults disk.new }
        ensures came { D.came 0 disk.old disk.new }
        ensures cause { OnErr result (Rose (D.faults disk.old) (D.faults disk.new)) }
    {
        let end = self.at + self.bytes.len() as u64;
        if gate + HEAD <= end || end == size {
            return Ok(());
        }
        self.at = gate;
        self.bytes.truncate((size - gate) as usize);
        read_body(disk, gate, &mut self.bytes)
    }

    /// The place of the body behind a gate, or none behind a closed gate.
    pub fn head_at(&self, gate: u64, size: u64) -> Result<Option<Place>, Stop>
        requires limit { size ≤ 2 ^ 60 }
        requires before { self.now.at ≤ gate }
        requires inside { gate < size }
        requires within { self.now.at + length self.now.bytes.items ≤ size }
        requires reached { ReachesHead size self.now gate }
        ensures at { IfOk result (λ found. IfSome found (λ place. place.at ≡ gate + 9)) }
        ensures len { IfOk result (λ found. IfSome found (λ place. place.at + place.len < size)) }
        ensures open { IfOk result (λ found. IfSome found (λ place. IsRecordAt 0 place (head_in self.now gate))) }
        ensures closed { IfOk result (λ found. IfNone found (IsClosed 0 (head_in self.now gate))) }
        ensures cut_short { OnErr result (IsHeadCutShort (size - gate) (head_in self.now gate)) }
        ensures cut_at { IfErr result (λ e. e ≡ Stop.CutShort gate) }
    {
        let start = (gate - self.at) as usize;
        let head = &self.bytes[start..];
        if head[0] != OPEN {
            return Ok(None);
        }
        if size - gate < HEAD {
            return Err(Stop::CutShort(gate));
        }
        let len = length_of(&head[1..9]);
        if len >= size - gate - HEAD {
            return Err(Stop::CutShort(gate));
        }
        Ok(Some(Place {
            at: gate + HEAD,
            len,
        }))
    }
}
