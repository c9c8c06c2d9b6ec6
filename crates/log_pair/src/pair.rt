// A pair of logs.
ghost use Rattle.std.specs.Prelude.{◌≡◌, ◌⊎◌, ◌+◌, ◌<◌, ◌≤◌, ⊤, ℕ, List, Some, [], ◌∷◌, IfOk, IfErr, IfSome, OnOk, OnErr, IsErrOf, is_some, ◌&&◌, ◌==◌, ◌^◌, ◌-◌, min, false, true, length, take, slice_get};
ghost use Rattle.gno_disk.specs.Phases.{AtExit, AreUnwritten, EachMoment, phase};
ghost use Rattle.gate_log.specs.LogView.{Adds, IsFault, MatchFault, MatchMountFault};
ghost use Rattle.gate_log.specs.Records.{Holds, HoldsNoList, IsDamaged, bodies_of, total_length};
ghost use Rattle.gate_log.specs.Steps.{IsSynced, IsUntouched};
ghost use Rattle.gno_num.specs.Faults.{Rose};
ghost use Rattle.log_pair.specs.Choice.{TwoTold};
ghost use Rattle.log_pair.specs.Header.{FitsHeader, HasHeader, IsEpoch, log_header};
ghost use Rattle.log_pair.specs.Pair.{Counts, HoldsNoPair, HoldsPair, IsDamagedPair, IsOlder, disk_number, one_of, other_of, place_behind};
ghost use Rattle.log_pair.specs.PairView.{AreOfPair, AreOldOrAdded, IsLastingPair, IsMaking, OfTwo, both_faults, pair_phases};

use crate::Place;
use crate::choose::{Choice, choose, disk_of};
use crate::faults::both_faults;
use crate::header::header_bytes;
use gate_log::{Log, LogFault, MountFault, make_ready};
use gno_disk::{Disk, Fusible};
use gno_num::{Damaged, DiskFault, Memory};
use std::alloc::Global;
use std::marker::Model;

/// A log of one book on one of two disks. After a fault of a disk it is broken, and its disks are to
/// be mounted again.
#[derive(Drop)]
pub struct LogPair<D: Disk> {
    log: Log<D>,
    other: D,
    on_second: bool,
    place: Place,
    epoch: u64,
}

impl<D: Disk> Model for LogPair<D> {
    ghost use Rattle.log_pair.specs.PairView.{PairView};

    ghost Value = { PairView D };

    ghost use Rattle.log_pair.specs.Inside.{pair_view, IsLogPair};

    ghost view = { pair_view D.Disk };

    ghost invariant = { IsLogPair D.Disk };
}

const FIRST_EPOCH: u64 = 1;

impl<D: Disk> LogPair<D> {
    /// A log without records: `create_with` without any.
    pub fn create(alloc: Global, a: D, b: D, place: Place) -> Result<LogPair<D>, (D, D, LogFault)>
        ensures made { IfOk result (λ pair. (pair.place ≡ place) × (pair.epoch ≡ 1) × (pair.on_second ≡ false)) }
        ensures counted { IfOk result (λ pair. (pair.count ≡ 0) × (pair.broken ≡ false) × (pair.spare ≡ 0)) }
        ensures told { IfOk result (λ pair. is_some pair.records ≡ (is_some (D.told a) && is_some (D.told b))) }
        ensures records { IfOk result (λ pair. IfSome pair.records (λ records. records ≡ [])) }
        ensures durable { IfOk result (IsLastingPair D.Disk) }
        ensures any_moment { IfOk result (λ pair. IsMaking D.Disk place [] a b pair.first pair.second) }
        ensures came { IfOk result (λ pair. D.came 9 a pair.first × D.came 5 b pair.second) }

        ensures any_moment_err { IfErr result (λ e. IsMaking D.Disk place [] a b e.0 e.1) }
        ensures came_err { IfErr result (λ e. D.came 9 a e.0 × D.came 5 b e.1) }
        ensures cause { IfErr result (λ e. MatchFault e.2
            (IsFault (both_faults D.Disk a b) (both_faults D.Disk e.0 e.1)) ((e.0 ≡ a) × (e.1 ≡ b))) }
    {
        LogPair::create_with(alloc, a, b, place, &[])
    }

    /// Makes the second disk ready, and then a log of these records on the first, in the first epoch.
    /// An `Err` hands the disks back. After `Memory` nothing was called on them.
    pub fn create_with(
        alloc: Global,
        a: D,
        b: D,
        place: Place,
        records: &[Vec<u8>],
    ) -> Result<LogPair<D>, (D, D, LogFault)>
        ensures made { IfOk result (λ pair. (pair.place ≡ place) × (pair.epoch ≡ 1) × (pair.on_second ≡ false)) }
        ensures counted { IfOk result (λ pair. (pair.count ≡ length records.now) × (pair.broken ≡ false) × (pair.spare ≡ 0)) }
        ensures told { IfOk result (λ pair. is_some pair.records ≡ (is_some (D.told a) && is_some (D.told b))) }
        ensures records { IfOk result (λ pair. IfSome pair.records (λ made. made ≡ bodies_of records.now)) }
        ensures durable { IfOk result (IsLastingPair D.Disk) }

        // On disks of which no image has a log, a stop leaves no log or the whole one.
        ensures any_moment { IfOk result (λ pair. IsMaking D.Disk place (bodies_of records.now) a b pair.first pair.second) }
        ensures came { IfOk result (λ pair. D.came 9 a pair.first × D.came 5 b pair.second) }

        ensures any_moment_err { IfErr result (λ e. IsMaking D.Disk place (bodies_of records.now) a b e.0 e.1) }
        ensures came_err { IfErr result (λ e. D.came 9 a e.0 × D.came 5 b e.1) }
        ensures cause { IfErr result (λ e. MatchFault e.2
            (IsFault (both_faults D.Disk a b) (both_faults D.Disk e.0 e.1)) ((e.0 ≡ a) × (e.1 ≡ b))) }
    {
        let header = header_bytes(place, FIRST_EPOCH);
        let before = both_faults(&a, &b);
        let mut other = b;
        let mut log = Log::unmounted(alloc, a);
        if reserve_all(&mut log, &header, records).is_err() {
            return Err((log.into_disk(), other, LogFault::Memory));
        }
        if make_ready(&mut other).is_err() {
            let disk = log.into_disk();
            let after = both_faults(&disk, &other);
            return Err((
                disk,
                other,
                LogFault::DiskFault(DiskFault { before, after }),
            ));
        }
        if log.make_anew(&header, records).is_err() {
            let disk = log.into_disk();
            let after = both_faults(&disk, &other);
            return Err((
                disk,
                other,
                LogFault::DiskFault(DiskFault { before, after }),
            ));
        }
        Ok(LogPair {
            log,
            other,
            on_second: false,
            place,
            epoch: FIRST_EPOCH,
        })
    }

    /// Syncs both disks and finds the log that counts, which must be of this place. It writes nothing.
    /// An `Err` hands the disks back.
    pub fn mount(alloc: Global, a: D, b: D, place: Place) -> Result<LogPair<D>, (D, D, MountFault)>
        ensures place { IfOk result (λ pair. pair.place ≡ place) }
        ensures whole { IfOk result (λ pair. (pair.broken ≡ false) × (pair.spare ≡ 0)) }
        ensures told { IfOk result (λ pair. is_some pair.records ≡ (is_some (D.told a) && is_some (D.told b))) }
        ensures counts { IfOk result (λ pair. TwoTold (D.told a) (D.told b) (Counts pair.on_second place pair.epoch)) }
        ensures held { IfOk result (λ pair. TwoTold (D.told a) (D.told b) (AreOfPair pair)) }
        ensures exact { IfOk result (λ pair. TwoTold (D.told a) (D.told b) (λ x y. (epoch : ℕ) (records : List (List ℕ))
            → HoldsPair place epoch records x y → (pair.epoch ≡ epoch) × (pair.records ≡ Some records))) }
        ensures durable { IfOk result (IsLastingPair D.Disk) }
        ensures unwritten { IfOk result (λ pair. AreUnwritten D.Disk (phase a pair.first ∷ phase b pair.second ∷ [])) }
        ensures came { IfOk result (λ pair. D.came 2 a pair.first × D.came 2 b pair.second) }

        ensures unwritten_err { IfErr result (λ e. AreUnwritten D.Disk (phase a e.0 ∷ phase b e.1 ∷ [])) }
        ensures came_err { IfErr result (λ e. D.came 2 a e.0 × D.came 2 b e.1) }
        ensures told_err { IfErr result (λ e. (D.told e.0 ≡ D.told a) × (D.told e.1 ≡ D.told b)) }
        ensures cause { IfErr result (λ e. MatchMountFault e.2
            (IsFault (both_faults D.Disk a b) (both_faults D.Disk e.0 e.1))
            (λ d. TwoTold (D.told a) (D.told b) (λ x y. IsDamagedPair place x y d)) ⊤) }
        ensures never_held { IfErr result (λ e. MatchMountFault e.2 (λ _. ⊤)
            (λ _. TwoTold (D.told a) (D.told b) (HoldsNoPair place)) ⊤) }
    {
        let mut a = a;
        let mut b = b;
        let before = both_faults(&a, &b);
        let choice = match choose(alloc, &mut a, &mut b, place) {
            Ok(choice) => choice,
            Err(fault) => return Err((a, b, fault)),
        };
        if !choice.on_second {
            return mount_log(alloc, a, b, place, choice, before);
        }
        match mount_log(alloc, b, a, place, choice, before) {
            Ok(pair) => Ok(pair),
            Err((b, a, fault)) => Err((a, b, fault)),
        }
    }

    /// Adds a record at the end and answers its index, counted from 0 behind the header, or leaves the
    /// list. After `Memory` nothing has changed; after a fault of the disk the pair is broken, and its
    /// disks hold the old records or those with the new one.
    pub fn append(&mut self, body: &[u8]) -> Result<u64, LogFault>
        requires { self.old.broken ≡ false }
        ensures index { IfOk result (λ index. index ≡ self.old.count) }
        ensures added { OnOk result (Adds self.old.records self.new.records body.now) }
        ensures counted { OnOk result ((self.new.count ≡ self.old.count + 1) × (self.new.broken ≡ false)) }
        ensures kept { OnErr result ((self.new.records ≡ self.old.records) × (self.new.count ≡ self.old.count)) }
        ensures spent { OnOk result (self.new.spare ≡ 0) }
        ensures same { (self.new.place ≡ self.old.place) × (self.new.epoch ≡ self.old.epoch) × (self.new.on_second ≡ self.old.on_second) }
        ensures came { D.came 4 self.old.first self.new.first × D.came 4 self.old.second self.new.second }
        ensures cause { IfErr result (λ e. MatchFault e
            (λ f. IsFault (both_faults D.Disk self.old.first self.old.second)
            (both_faults D.Disk self.new.first self.new.second) f × (self.new.broken ≡ true) × (self.new.spare ≡ 0))
            (self.new ≡ self.old)) }

        // At every moment a stop leaves the old records, or those with the new one; so it does at the
        // exit, after Ok and after a fault.
        ensures any_moment { EachMoment D.Disk (pair_phases self.old self.new)
            (OfTwo (AreOldOrAdded self.old body.now)) }
        ensures left { (images : List (List ℕ)) → AtExit D.Disk (pair_phases self.old self.new) images
            → OfTwo (AreOldOrAdded self.old body.now) images }
        ensures durable { OnOk result (IsLastingPair D.Disk self.new) }

        // What is reserved is enough.
        ensures reserved { IsErrOf result LogFault.Memory
            → (self.old.spare ≡ 0) ⊎ (self.old.spare < length body.now) }
    {
        let rest = self.other.faults();
        match self.log.append(body) {
            Ok(index) => Ok(index - 1),
            Err(LogFault::Memory) => Err(LogFault::Memory),
            Err(LogFault::DiskFault(fault)) => Err(LogFault::DiskFault(beside(fault, rest))),
        }
    }

    /// Takes the memory for a record of at most so many bytes. The next `append` spends it.
    pub fn reserve(&mut self, bytes: u64) -> Result<(), Memory>
        requires { self.old.broken ≡ false }
        ensures spare { OnOk result ((bytes ≤ self.new.spare) × (0 < self.new.spare)) }
        ensures same { OnOk result (self.new ≡ record self.old { spare = self.new.spare }) }
        ensures err { OnErr result (self.new ≡ self.old) }
    {
        self.log.reserve(bytes)
    }

    /// The record with this index, counted from 0 behind the header. After `Memory` nothing has
    /// changed; after a fault of the disk the pair is broken.
    pub fn read(&mut self, alloc: Global, index: u64) -> Result<Vec<u8>, LogFault>
        requires known { index < self.old.count }
        requires whole { self.old.broken ≡ false }
        ensures record_asked { IfOk result (λ body. IfSome self.old.records
            (λ records. slice_get records index ≡ Some body.items)) }
        ensures records { (self.new.records ≡ self.old.records) × (self.new.count ≡ self.old.count) }
        ensures ok { OnOk result ((self.new.broken ≡ false) × (self.new.spare ≡ self.old.spare)) }
        ensures same { (self.new.place ≡ self.old.place) × (self.new.epoch ≡ self.old.epoch) × (self.new.on_second ≡ self.old.on_second) }
        ensures told { (D.told self.new.first ≡ D.told self.old.first) × (D.told self.new.second ≡ D.told self.old.second) }
        ensures unwritten { AreUnwritten D.Disk (pair_phases self.old self.new) }
        ensures left { IsLastingPair D.Disk self.new }
        ensures came { D.came 0 self.old.first self.new.first × D.came 0 self.old.second self.new.second }
        ensures cause { IfErr result (λ e. MatchFault e
            (λ f. IsFault (both_faults D.Disk self.old.first self.old.second)
            (both_faults D.Disk self.new.first self.new.second) f × (self.new.broken ≡ true) × (self.new.spare ≡ self.old.spare))
            (self.new ≡ self.old)) }
    {
        let rest = self.other.faults();
        let last = self.log.count() - 1;
        match self.log.read(alloc, last - (last - index - 1)) {
            Ok(body) => Ok(body),
            Err(LogFault::Memory) => Err(LogFault::Memory),
            Err(LogFault::DiskFault(fault)) => Err(LogFault::DiskFault(beside(fault, rest))),
        }
    }

    /// How many records there are behind the header.
    pub fn count(&self) -> u64
        ensures value { result ≡ self.now.count }
        ensures told { IfSome self.now.records (λ records. length records ≡ result) }
    {
        self.log.count() - 1
    }

    /// How often both disks have failed, at most 2^64 - 1.
    pub fn faults(&self) -> u64
        ensures { result ≡ both_faults D.Disk self.now.first self.now.second }
    {
        self.log.faults().saturating_add(self.other.faults())
    }

    /// Where the record with this index stands: the disk, and the place of the record's gate.
    pub fn place_of(&self, index: u64) -> Damaged
        requires known { index < self.now.count }
        requires whole { self.now.broken ≡ false }
        ensures disk { result.disk ≡ disk_number self.now.on_second }
        ensures at { IfSome self.now.records
            (λ records. result.at ≡ place_behind self.now.place self.now.epoch (take index records)) }
    {
        let last = self.log.count() - 1;
        let behind_header = last - (last - index - 1);
        Damaged {
            disk: disk_of(self.on_second),
            at: self.log.place_of(behind_header),
        }
    }

    /// The epoch of the log, from 1 to 2^63.
    pub fn epoch(&self) -> u64
        ensures { result ≡ self.now.epoch }
    {
        self.epoch
    }

    /// Whether a call has failed, so that the disks are to be mounted again.
    pub fn is_broken(&self) -> bool
        ensures value { result ≡ self.now.broken }
        ensures durable { self.now.broken ≡ false → IsLastingPair D.Disk self.now }
    {
        self.log.is_broken()
    }

    /// The disks, in the order in which they were handed in. They hold the records and no others
    /// unless the pair is broken.
    pub fn into_disks(self) -> (D, D)
        ensures disks { (result.0 ≡ self.first) × (result.1 ≡ self.second) }
        ensures held { self.broken ≡ false → TwoTold (D.told result.0) (D.told result.1) (AreOfPair self) }
    {
        let LogPair {
            log,
            other,
            on_second,
            place: _,
            epoch: _,
        } = self;
        let disk = log.into_disk();
        if on_second {
            (other, disk)
        } else {
            (disk, other)
        }
    }
}

impl<D: Fusible> LogPair<D> {
    /// Sets the fuse of the disk of this number, 0 or 1.
    pub fn fuse(&mut self, disk: u8, calls: u64)
        requires { disk < 2 }
        ensures set { D.fused (one_of (disk == 1) self.new.first self.new.second) ≡ Some calls }
        ensures still { other_of (disk == 1) self.new.first self.new.second ≡ other_of (disk == 1) self.old.first self.old.second }
        ensures same { self.new ≡ record self.old { first = self.new.first; second = self.new.second } }
    {
        if (disk == 1) == self.on_second {
            self.log.fuse(0, calls);
        } else {
            self.other.fuse(calls);
        }
    }

    /// How many calls of the disks have failed for want of memory, at most 2^64 - 1.
    pub fn starved(&self) -> u64
        ensures { result ≡ min (D.starved self.now.first + D.starved self.now.second) (2 ^ 64 - 1) }
    {
        self.log.starved().saturating_add(self.other.starved())
    }
}

/// Takes the memory for a log of these records.
fn reserve_all<D: Disk>(log: &mut Log<D>, first: &[u8], rest: &[Vec<u8>]) -> Result<(), Memory>
    ensures disk { log.new.disk ≡ log.old.disk }
    ensures records { OnOk result (length rest.now < log.new.anew_records) }
    ensures bytes { OnOk result (total_length (first.now ∷ bodies_of rest.now) ≤ log.new.anew_bytes) }
{
    let bytes = total_bytes(first, rest).ok_or(Memory)?;
    log.reserve_anew(rest.len() as u64 + 1, bytes)
}

/// How long bodies are together, where it fits.
fn total_bytes(first: &[u8], rest: &[Vec<u8>]) -> Option<u64>
    ensures { IfSome result (λ total. total ≡ total_length (first.now ∷ bodies_of rest.now)) }
{
    let mut total = first.len() as u64;
    for body in rest {
        total = total.checked_add(body.len() as u64)?;
    }
    Some(total)
}

/// Mounts the log that counts. `before` is how often both disks had failed when the call began.
fn mount_log<D: Disk>(
    alloc: Global,
    chosen: D,
    other: D,
    place: Place,
    choice: Choice,
    before: u64,
) -> Result<LogPair<D>, (D, D, MountFault)>
    requires epoch { IsEpoch choice.epoch }
    requires fits { FitsHeader place choice.epoch }
    requires header { IfSome (D.told chosen) (HasHeader place choice.epoch) }
    requires older { IfSome (D.told other) (IsOlder choice.on_second choice.epoch) }
    requires synced { IsSynced (D.told other) (D.may_leave other) }
    ensures place { IfOk result (λ pair. (pair.place ≡ place) × (pair.epoch ≡ choice.epoch) × (pair.on_second ≡ choice.on_second)) }
    ensures whole { IfOk result (λ pair. (pair.broken ≡ false) × (pair.spare ≡ 0)) }
    ensures told { IfOk result (λ pair. is_some pair.records ≡ (is_some (D.told chosen) && is_some (D.told other))) }
    ensures held { IfOk result (λ pair. TwoTold (D.told chosen) (D.told other)
        (λ x _. IfSome pair.records (λ records. Holds x (log_header place choice.epoch ∷ records)))) }
    ensures exact { IfOk result (λ pair. TwoTold (D.told chosen) (D.told other) (λ x _. (records : List (List ℕ))
        → Holds x (log_header place choice.epoch ∷ records) → pair.records ≡ Some records)) }
    ensures durable { IfOk result (IsLastingPair D.Disk) }
    ensures other { IfOk result (λ pair. other_of choice.on_second pair.first pair.second ≡ other) }
    ensures untouched { IfOk result (λ pair. IsUntouched D.Disk chosen (one_of choice.on_second pair.first pair.second)) }
    ensures came { IfOk result (λ pair. D.came 1 chosen (one_of choice.on_second pair.first pair.second)) }
    ensures other_err { IfErr result (λ e. e.1 ≡ other) }
    ensures untouched_err { IfErr result (λ e. IsUntouched D.Disk chosen e.0) }
    ensures came_err { IfErr result (λ e. D.came 1 chosen e.0) }
    ensures cause { IfErr result (λ e. MatchMountFault e.2
        (λ f. (f.before ≡ before) × (f.after ≡ both_faults D.Disk e.0 e.1) × Rose (D.faults chosen) (D.faults e.0))
        (λ d. (d.disk ≡ disk_number choice.on_second) × IfSome (D.told chosen) (λ x. IsDamaged x d.at)) ⊤) }
    ensures never_held { IfErr result (λ e. MatchMountFault e.2 (λ _. ⊤) (λ _. IfSome (D.told chosen) HoldsNoList) ⊤) }
{
    let disk = disk_of(choice.on_second);
    // at most 2^60 bytes are told
    let _size = chosen.len();
    let log = match Log::mount(alloc, chosen) {
        Ok(log) => log,
        Err((chosen, fault)) => {
            let after = both_faults(&chosen, &other);
            return Err((chosen, other, fault_of_pair(fault, disk, before, after)));
        }
    };
    if log.count() == 0 {
        let fault = MountFault::Damaged(Damaged { disk, at: 0 });
        return Err((log.into_disk(), other, fault));
    }
    Ok(LogPair {
        log,
        other,
        on_second: choice.on_second,
        place,
        epoch: choice.epoch,
    })
}

/// The fault of a mounting, of one disk of two.
fn fault_of_pair(fault: MountFault, disk: u16, before: u64, after: u64) -> MountFault
    ensures { MatchMountFault fault
        (λ _. result ≡ MountFault.DiskFault (record { before = before; after = after }))
        (λ d. result ≡ MountFault.Damaged (record { disk = disk; at = d.at }))
        (result ≡ MountFault.Memory) }
{
    match fault {
        MountFault::DiskFault(_) => MountFault::DiskFault(DiskFault { before, after }),
        MountFault::Damaged(damaged) => MountFault::Damaged(Damaged {
            disk,
            at: damaged.at,
        }),
        MountFault::Memory => MountFault::Memory,
    }
}

/// A fault of one disk, counted together with the faults of another.
fn beside(fault: DiskFault, rest: u64) -> DiskFault
    ensures before { result.before ≡ min (fault.before + rest) (2 ^ 64 - 1) }
    ensures after { result.after ≡ min (fault.after + rest) (2 ^ 64 - 1) }
{
    DiskFault {
        before: fault.before.saturating_add(rest),
        after: fault.after.saturating_add(rest),
    }
}
