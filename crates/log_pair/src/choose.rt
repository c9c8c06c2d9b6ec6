// Which of two logs counts.
ghost use Rattle.std.specs.Prelude.{◌≡◌, ◌≢◌, ◌⊎◌, ◌≤◌, ⊤, true, false, ℕ, List, IfOk, IfErr, IfSome, OnOk};
ghost use Rattle.gno_num.specs.Faults.{Rose};
ghost use Rattle.gate_log.specs.LogView.{IsFault, MatchFault, MatchMountFault};
ghost use Rattle.gate_log.specs.Steps.{IsSynced, IsUntouched};
ghost use Rattle.log_pair.specs.Choice.{IsHeaderOf, TwoTold, comes_second};
ghost use Rattle.log_pair.specs.Header.{FitsHeader, HasHeader, IsEpoch};
ghost use Rattle.log_pair.specs.Pair.{HoldsNoPair, IsDamagedPair, IsOlder, disk_number, one_of, other_of};
ghost use Rattle.log_pair.specs.PairView.{both_faults};

use crate::Place;
use crate::faults::both_faults;
use crate::header::{Header, read_header};
use gate_log::{LogFault, MountFault, first_record};
use gno_disk::Disk;
use gno_num::{Damaged, DiskFault};
use std::alloc::Global;

/// The log that counts: whether it is the second disk's, and its epoch.
#[derive(Clone, Copy, Debug)]
pub struct Choice {
    pub on_second: bool,
    pub epoch: u64,
}

const LAST_EPOCH: u64 = 0x8000_0000_0000_0000;

/// Syncs two disks and tells which log counts. It writes nothing.
pub fn choose<D: Disk>(
    alloc: Global,
    a: &mut D,
    b: &mut D,
    place: Place,
) -> Result<Choice, MountFault>
    ensures header { IfOk result (λ c. IfSome (one_of c.on_second (D.told a.old) (D.told b.old)) (HasHeader place c.epoch)) }
    ensures older { IfOk result (λ c. IfSome (other_of c.on_second (D.told a.old) (D.told b.old)) (IsOlder c.on_second c.epoch)) }
    ensures epoch { IfOk result (λ c. IsEpoch c.epoch) }
    ensures fits { IfOk result (λ c. FitsHeader place c.epoch) }
    ensures durable { OnOk result (IsSynced (D.told a.new) (D.may_leave a.new) × IsSynced (D.told b.new) (D.may_leave b.new)) }
    ensures untouched { IsUntouched D.Disk a.old a.new × IsUntouched D.Disk b.old b.new }
    ensures later { (D.faults a.old ≤ D.faults a.new) × (D.faults b.old ≤ D.faults b.new) }
    ensures came { D.came 1 a.old a.new × D.came 1 b.old b.new }
    ensures cause { IfErr result (λ e. MatchMountFault e
        (IsFault (both_faults D.Disk a.old b.old) (both_faults D.Disk a.new b.new))
        (λ d. TwoTold (D.told a.old) (D.told b.old) (λ x y. IsDamagedPair place x y d)) ⊤) }
    ensures never_held { IfErr result (λ e. MatchMountFault e (λ _. ⊤)
        (λ _. TwoTold (D.told a.old) (D.told b.old) (HoldsNoPair place)) ⊤) }
{
    let before = both_faults(a, b);
    match both_headers(alloc, a, b) {
        Ok((first, second)) => match choice_of(first, second, place) {
            Ok(choice) => Ok(choice),
            Err(damaged) => Err(MountFault::Damaged(damaged)),
        },
        Err(LogFault::Memory) => Err(MountFault::Memory),
        Err(LogFault::DiskFault(_)) => {
            let after = both_faults(a, b);
            Err(MountFault::DiskFault(DiskFault { before, after }))
        }
    }
}

/// The headers of both disks, the first disk's first.
fn both_headers<D: Disk>(
    alloc: Global,
    a: &mut D,
    b: &mut D,
) -> Result<(Option<Header>, Option<Header>), LogFault>
    ensures first { IfOk result (λ found. IfSome (D.told a.old) (IsHeaderOf found.0)) }
    ensures second { IfOk result (λ found. IfSome (D.told b.old) (IsHeaderOf found.1)) }
    ensures durable { OnOk result (IsSynced (D.told a.new) (D.may_leave a.new) × IsSynced (D.told b.new) (D.may_leave b.new)) }
    ensures untouched { IsUntouched D.Disk a.old a.new × IsUntouched D.Disk b.old b.new }
    ensures later { (D.faults a.old ≤ D.faults a.new) × (D.faults b.old ≤ D.faults b.new) }
    ensures came { D.came 1 a.old a.new × D.came 1 b.old b.new }
    ensures cause { IfErr result (λ e. MatchFault e
        (λ _. Rose (both_faults D.Disk a.old b.old) (both_faults D.Disk a.new b.new)) ⊤) }
{
    let first = header_of(alloc, a)?;
    let second = header_of(alloc, b)?;
    Ok((first, second))
}

/// Syncs a disk and gives the header that its log begins with.
fn header_of<D: Disk>(alloc: Global, disk: &mut D) -> Result<Option<Header>, LogFault>
    ensures found { IfOk result (λ found. IfSome (D.told disk.old) (IsHeaderOf found)) }
    ensures durable { OnOk result (IsSynced (D.told disk.new) (D.may_leave disk.new)) }
    ensures untouched { IsUntouched D.Disk disk.old disk.new }
    ensures later { D.faults disk.old ≤ D.faults disk.new }
    ensures came { D.came 1 disk.old disk.new }
    ensures cause { IfErr result (λ e. MatchFault e (IsFault (D.faults disk.old) (D.faults disk.new)) ⊤) }
{
    match first_record(alloc, disk)? {
        None => Ok(None),
        Some(body) => Ok(read_header(body.as_slice())),
    }
}

/// Which of two headers counts: that of the greater epoch, and of equal ones the first. It must be of
/// this place.
fn choice_of(first: Option<Header>, second: Option<Header>, place: Place) -> Result<Choice, Damaged>
    ensures header { IfOk result (λ c. (bytes : List ℕ) → IsHeaderOf (one_of c.on_second first second) bytes
        → HasHeader place c.epoch bytes) }
    ensures older { IfOk result (λ c. (bytes : List ℕ) → IsHeaderOf (other_of c.on_second first second) bytes
        → IsOlder c.on_second c.epoch bytes) }
    ensures epoch { IfOk result (λ c. IsEpoch c.epoch) }
    ensures fits { IfOk result (λ c. FitsHeader place c.epoch) }
    ensures damaged { IfErr result (λ d. (a b : List ℕ) → IsHeaderOf first a → IsHeaderOf second b
        → IsDamagedPair place a b d) }
    ensures never_held { IfErr result (λ d. (a b : List ℕ) → IsHeaderOf first a → IsHeaderOf second b
        → HoldsNoPair place a b) }
{
    let on_second = is_second(&first, &second);
    let disk = disk_of(on_second);
    let Some(header) = chosen_of(on_second, first, second) else {
        return Err(Damaged { disk, at: 0 });
    };
    if !is_own(&header, place) {
        return Err(Damaged { disk, at: 0 });
    }
    Ok(Choice {
        on_second,
        epoch: header.epoch,
    })
}

/// The one of two headers that counts.
fn chosen_of(on_second: bool, first: Option<Header>, second: Option<Header>) -> Option<Header>
    ensures { result ≡ one_of on_second first second }
{
    if on_second { second } else { first }
}

/// The number of the disk whose log counts.
pub fn disk_of(on_second: bool) -> u16
    ensures { result ≡ disk_number on_second }
{
    if on_second { 1 } else { 0 }
}

/// Whether a header is of this place, and its epoch is one.
fn is_own(header: &Header, place: Place) -> bool
    ensures own { result ≡ true → (header.now.place ≡ place) × IsEpoch header.now.epoch }
    ensures another { result ≡ false → (header.now.place ≢ place) ⊎ (¬ IsEpoch header.now.epoch) }
{
    is_place(&header.place, place) && 1 <= header.epoch && header.epoch <= LAST_EPOCH
}

/// Whether two places are the same.
fn is_place(place: &Place, other: Place) -> bool
    ensures same { result ≡ true → place.now ≡ other }
    ensures another { result ≡ false → place.now ≢ other }
{
    place.role == other.role && place.sack == other.sack && place.sacks == other.sacks
}

/// Whether the second disk's log counts.
fn is_second(first: &Option<Header>, second: &Option<Header>) -> bool
    ensures { result ≡ comes_second first.now second.now }
{
    match (first, second) {
        (_, None) => false,
        (None, Some(_)) => true,
        (Some(first), Some(second)) => first.epoch < second.epoch,
    }
}
