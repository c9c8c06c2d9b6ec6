// Reading the records of a pair.
ghost use Rattle.std.specs.Prelude.{◌≡◌, ◌<◌, IfOk, IfErr, IfSome, OnOk, Some, slice_get, true, false};
ghost use Rattle.gate_log.specs.LogView.{IsFault, MatchMountFault};
ghost use Rattle.log_pair.specs.PairView.{both_faults};
ghost use Rattle.pair_reading.specs.Reading.{IsOnlyRead};

use gno_disk::Disk;
use gno_num::DiskFault;
use log_pair::{LogFault, LogPair, MountFault};
use std::alloc::Global;

/// The body of a record, where a fault of a disk is one of a mounting.
pub fn read_body<D: Disk>(
    alloc: Global,
    pair: &mut LogPair<D>,
    index: u64,
) -> Result<Vec<u8>, MountFault>
    requires known { index < pair.old.count }
    requires whole { pair.old.broken ≡ false }
    ensures asked { IfOk result (λ body. IfSome pair.old.records (λ records. slice_get records index ≡ Some body.items)) }
    ensures reads { IsOnlyRead D.Disk pair.old pair.new }
    ensures whole { OnOk result (pair.new.broken ≡ false) }
    ensures cause { IfErr result (λ e. MatchMountFault e
        (λ f. IsFault (both_faults D.Disk pair.old.first pair.old.second) (both_faults D.Disk pair.new.first pair.new.second) f
        × (pair.new.broken ≡ true)) (λ _. ⊥) (pair.new ≡ pair.old)) }
{
    match pair.read(alloc, index) {
        Ok(body) => Ok(body),
        Err(LogFault::DiskFault(fault)) => Err(MountFault::DiskFault(fault)),
        Err(LogFault::Memory) => Err(MountFault::Memory),
    }
}

/// A fault of a call that began when the disks had failed so often.
pub fn since(fault: MountFault, before: u64) -> MountFault
    ensures { MatchMountFault fault
        (λ f. result ≡ MountFault.DiskFault (record { before = before; after = f.after }))
        (λ d. result ≡ MountFault.Damaged d)
        (result ≡ MountFault.Memory) }
{
    match fault {
        MountFault::DiskFault(fault) => MountFault::DiskFault(DiskFault {
            before,
            after: fault.after,
        }),
        MountFault::Damaged(damaged) => MountFault::Damaged(damaged),
        MountFault::Memory => MountFault::Memory,
    }
}
