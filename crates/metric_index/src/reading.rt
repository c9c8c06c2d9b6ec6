// Reading the records of a pair.
ghost use Rattle.std.specs.Prelude.{◌≡◌, ◌<◌, ⊤, ℕ, List, IfOk, IfErr, IfSome, OnOk, Some, slice_get, true, false};
ghost use Rattle.gate_log.specs.LogView.{IsFault, MatchMountFault};
ghost use Rattle.gno_codec.specs.Index.{IsIndex};
ghost use Rattle.log_pair.specs.PairView.{both_faults};
ghost use Rattle.metric_index.specs.Reading.{IsOnlyRead, StandsAs};

use gno_codec::{IndexItem, ReadFault, read_index};
use gno_disk::Disk;
use gno_num::DiskFault;
use log_pair::{LogFault, LogPair, MountFault};
use std::alloc::Global;

/// The body of a record, where a fault of a disk is one of a mounting.
fn read_body<D: Disk>(
    alloc: Global,
    pair: &mut LogPair<D>,
    index: u64,
) -> Result<Vec<u8>, MountFault>
    requires known { index < pair.old.count }
    requires whole { pair.old.broken ≡ false }
    ensures asked { IfOk result (λ body. IfSome pair.old.records (λ records. slice_get records index ≡ Some body.items)) }
    ensures reads { IsOnlyRead D.Disk pair.old pair.new }
    ensures whole { OnOk result (pair.new.broken ≡ false) }
    ensures cause { IfErr result (λ e. MatchMountFault e
        (λ f. IsFault (both_faults D.Disk pair.old.first pair.old.second) (both_faults D.Disk pair.new.first pair.new.second) f)
        (λ _. ⊥) ⊤) }
{
    match pair.read(alloc, index) {
        Ok(body) => Ok(body),
        Err(LogFault::DiskFault(fault)) => Err(MountFault::DiskFault(fault)),
        Err(LogFault::Memory) => Err(MountFault::Memory),
    }
}

/// The record at an index, or none where its bytes spell none.
pub fn read_item<D: Disk>(
    alloc: Global,
    pair: &mut LogPair<D>,
    index: u64,
) -> Result<Option<IndexItem>, MountFault>
    requires known { index < pair.old.count }
    requires whole { pair.old.broken ≡ false }
    ensures stands { IfOk result (λ item. IfSome pair.old.records (λ records. StandsAs records index item)) }
    ensures fits { IfOk result (λ item. IfSome item IsIndex) }
    ensures reads { IsOnlyRead D.Disk pair.old pair.new }
    ensures whole { OnOk result (pair.new.broken ≡ false) }
    ensures cause { IfErr result (λ e. MatchMountFault e
        (λ f. IsFault (both_faults D.Disk pair.old.first pair.old.second) (both_faults D.Disk pair.new.first pair.new.second) f)
        (λ _. ⊥) ⊤) }
{
    let body = read_body(alloc, pair, index)?;
    match read_index(alloc, &body) {
        Ok(item) => Ok(Some(item)),
        Err(ReadFault::Bad { at: _ }) => Ok(None),
        Err(ReadFault::Memory) => Err(MountFault::Memory),
    }
}

/// A fault of a call that began when the disks had failed so often.
pub fn since(fault: MountFault, before: u64) -> MountFault
    ensures { MatchMountFault fault
        (λ f. result ≡ MountFault.DiskFault (record { before = before; after = f.after }))
        (λ d. result ≡ MountFault.Damaged d)
        (result ≡ MountFault.Memory) }
{
    match fault {
        MountFault::DiskFault(fault) => MountFault::DiskFault(DiskFault {
            before,
            after: fault.after,
        }),
        MountFault::Damaged(damaged) => MountFault::Damaged(damaged),
        MountFault::Memory => MountFault::Memory,
    }
}
