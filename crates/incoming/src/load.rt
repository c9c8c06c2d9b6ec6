// What the records of a log make.
ghost use Rattle.std.specs.Prelude.{◌≡◌, ◌<◌, ◌+◌, ⊤, ℕ, List, IfOk, IfErr, IfSome, OnOk, length, take, false, true};
ghost use Rattle.gate_log.specs.LogView.{IsFault, MatchMountFault};
ghost use Rattle.log_pair.specs.PairView.{both_faults};
ghost use Rattle.incoming.specs.Contents.{AreOf, IsKept};
ghost use Rattle.incoming.specs.Reading.{IsOddOf, IsOnlyRead};

use crate::contents::Contents;
use crate::reading::{read_item, since};
use gno_disk::Disk;
use log_pair::{LogPair, MountFault};
use std::alloc::Global;

/// Takes in the record at an index, behind those taken in.
fn load_one<D: Disk>(
    alloc: Global,
    pair: &mut LogPair<D>,
    index: u64,
    contents: &mut Contents,
) -> Result<(), MountFault>
    requires known { index < pair.old.count }
    requires whole { pair.old.broken ≡ false }
    requires kept { IsKept contents.old }
    requires counted { index ≡ contents.old.first + length contents.old.marks.items }
    requires are { IfSome pair.old.records (λ records. AreOf contents.old (take index records)) }
    ensures kept { IsKept contents.new }
    ensures counted { OnOk result (contents.new.first + length contents.new.marks.items ≡ index + 1) }
    ensures are { OnOk result (IfSome pair.old.records (λ records. AreOf contents.new (take (index + 1) records))) }
    ensures reads { IsOnlyRead D.Disk pair.old pair.new }
    ensures whole { OnOk result (pair.new.broken ≡ false) }
    ensures cause { IfErr result (λ e. MatchMountFault e
        (λ f. IsFault (both_faults D.Disk pair.old.first pair.old.second) (both_faults D.Disk pair.new.first pair.new.second) f
        × (pair.new.broken ≡ true))
        (λ d. IfSome pair.old.records (λ records. IsOddOf pair.old records d)) ⊤) }
{
    let item = read_item(alloc, pair, index)?;
    match contents.take_in(index, &item) {
        Ok(true) => Ok(()),
        Ok(false) => Err(MountFault::Damaged(pair.place_of(index))),
        Err(_) => Err(MountFault::Memory),
    }
}

/// What the records of a pair make, each of them read once.
pub fn load<D: Disk>(alloc: Global, pair: &mut LogPair<D>) -> Result<Contents, MountFault>
    requires { pair.old.broken ≡ false }
    ensures kept { IfOk result IsKept }
    ensures counted { IfOk result (λ contents. contents.first + length contents.marks.items ≡ pair.old.count) }
    ensures are { IfOk result (λ contents. IfSome pair.old.records (AreOf contents)) }
    ensures reads { IsOnlyRead D.Disk pair.old pair.new }
    ensures whole { OnOk result (pair.new.broken ≡ false) }
    ensures cause { IfErr result (λ e. MatchMountFault e
        (λ f. IsFault (both_faults D.Disk pair.old.first pair.old.second) (both_faults D.Disk pair.new.first pair.new.second) f
        × (pair.new.broken ≡ true))
        (λ d. IfSome pair.old.records (λ records. IsOddOf pair.old records d)) ⊤) }
{
    let before = pair.faults();
    let count = pair.count();
    let mut contents = Contents::empty(alloc);
    for index in 0..count {
        match load_one(alloc, pair, index, &mut contents) {
            Ok(()) => {}
            Err(fault) => return Err(since(fault, before)),
        }
    }
    Ok(contents)
}
