// A log of records on one disk.
ghost use Rattle.std.specs.Prelude.{ℕ, List, Bool, ⊤, true, false, [], ◌∷◌, ◌≡◌, ◌⊎◌, ◌+◌, ◌<◌, ◌≤◌, length, take, slice_get, Some, is_some, IfSome, IfOk, IfErr, OnOk, OnErr, IsErrOf};
ghost use Rattle.gno_disk.specs.Disk.{SameImages};
ghost use Rattle.gno_disk.specs.Moments.{LeavesOnly};
ghost use Rattle.gate_log.specs.Records.{Begins, Holds, HoldsNoList, IsDamaged, bodies_of, log_bytes, total_length};
ghost use Rattle.gate_log.specs.Steps.{IsRemade, IsRemadeOrStill, IsUntouched};

use crate::device::{read_body, start, write_record};
use crate::find::find_records;
use crate::frame::{HEAD, fill_frame, fill_frames};
use crate::place::{Place, add_place, add_places, make_room};
use crate::scan::Stop;
use crate::{LogFault, MountFault};
use gno_disk::{Disk, Fusible};
use gno_num::{Damaged, DiskFault, Memory};
use std::alloc::Global;
use std::marker::Model;

/// Records on a disk, each behind a gate that is opened once the record is on the disk. After a
/// fault of the disk the log is broken, and is to be mounted again.
#[derive(Drop)]
pub struct Log<D: Disk> {
    disk: D,
    places: Vec<Place>,
    end: u64,
    frame: Vec<u8>,
    spare: u64,
    anew_records: u64,
    anew_bytes: u64,
    broken: bool,
}

impl<D: Disk> Model for Log<D> {
    ghost use Rattle.gate_log.specs.LogView.{LogView};

    ghost Value = { LogView D };

    ghost use Rattle.gate_log.specs.Inside.{view_of, IsLog};

    ghost view = { view_of D.Disk };

    ghost invariant = { IsLog D.Disk };
}

impl<D: Disk> Log<D> {
    ghost use Rattle.gate_log.specs.LogView.{Adds, IsFault, MatchFault, IsOfRecords, IsOldOrAdded, IsOldOrMade, IsLasting, MatchMountFault};

    /// A log of one record: `create_with` without others.
    pub fn create(alloc: Global, disk: D, first: &[u8]) -> Result<Log<D>, (D, LogFault)>
        ensures counted { IfOk result (λ log. (log.count ≡ 1) × (log.broken ≡ false)) }
        ensures told { IfOk result (λ log. is_some log.records ≡ is_some (D.told disk)) }
        ensures records { IfOk result (λ log. IfSome log.records (λ records. records ≡ first.now ∷ [])) }
        ensures spare { IfOk result (λ log. log.spare ≡ 0) }
        ensures later { IfOk result (λ log. D.faults disk ≤ D.faults log.disk) }
        ensures disk_told { IfOk result (λ log. is_some (D.told log.disk) ≡ is_some (D.told disk)) }
        ensures durable { IfOk result (IsLasting D.Disk) }

        // Once the first sync has succeeded, a stop leaves the old bytes, or no log, or the whole one.
        ensures any_moment { IfOk result (λ log. IsRemade D.Disk
            (IsOldOrMade (first.now ∷ [])) disk log.disk) }
        ensures any_moment_err { IfErr result (λ e. IsRemadeOrStill D.Disk
            (IsOldOrMade (first.now ∷ [])) disk e.0) }

        ensures came { IfOk result (λ log. D.came 9 disk log.disk) }
        ensures came_err { IfErr result (λ e. D.came 9 disk e.0) }

        ensures told_still { IfErr result (λ e. is_some (D.told e.0) ≡ is_some (D.told disk)) }
        ensures cause { IfErr result (λ e. MatchFault e.1
            (IsFault (D.faults disk) (D.faults e.0)) (e.0 ≡ disk)) }
    {
        Log::create_with(alloc, disk, first, &[])
    }

    /// Makes the disk ready, whatever it held, writes all records behind its closed gate, with a
    /// closed gate behind them, and once they are on the disk opens the first gate. An `Err` hands
    /// the disk back. After `Memory` nothing was called on it.
    pub fn create_with(
        alloc: Global,
        disk: D,
        first: &[u8],
        rest: &[Vec<u8>],
    ) -> Result<Log<D>, (D, LogFault)>
        ensures counted { IfOk result (λ log. (log.count ≡ length rest.now + 1) × (log.broken ≡ false)) }
        ensures told { IfOk result (λ log. is_some log.records ≡ is_some (D.told disk)) }
        ensures records { IfOk result (λ log. IfSome log.records
            (λ records. records ≡ first.now ∷ bodies_of rest.now)) }
        ensures spare { IfOk result (λ log. log.spare ≡ 0) }
        ensures later { IfOk result (λ log. D.faults disk ≤ D.faults log.disk) }
        ensures disk_told { IfOk result (λ log. is_some (D.told log.disk) ≡ is_some (D.told disk)) }
        ensures durable { IfOk result (IsLasting D.Disk) }

        // Once the first sync has succeeded, a stop leaves the old bytes, or no log, or the whole one.
        ensures any_moment { IfOk result (λ log. IsRemade D.Disk
            (IsOldOrMade (first.now ∷ bodies_of rest.now)) disk log.disk) }
        ensures any_moment_err { IfErr result (λ e. IsRemadeOrStill D.Disk
            (IsOldOrMade (first.now ∷ bodies_of rest.now)) disk e.0) }

        ensures came { IfOk result (λ log. D.came 9 disk log.disk) }
        ensures came_err { IfErr result (λ e. D.came 9 disk e.0) }

        ensures told_still { IfErr result (λ e. is_some (D.told e.0) ≡ is_some (D.told disk)) }
        ensures cause { IfErr result (λ e. MatchFault e.1
            (IsFault (D.faults disk) (D.faults e.0)) (e.0 ≡ disk)) }
    {
        let mut disk = disk;
        let mut frame = Vec::new(alloc);
        let mut places = Vec::new(alloc);
        if fill_frames(&mut frame, first, rest).is_err()
            || places.reserve(rest.len() + 1).is_err()
        {
            return Err((disk, LogFault::Memory));
        }
        let before = disk.faults();
        if start(&mut disk, &frame).is_err() {
            let after = disk.faults();
            return Err((disk, LogFault::DiskFault(DiskFault { before, after })));
        }
        let end = add_places(&mut places, first, rest);
        Ok(Log {
            disk,
            places,
            end,
            frame,
            spare: 0,
            anew_records: 0,
            anew_bytes: 0,
            broken: false,
        })
    }

    /// A log that isn't mounted: it is broken and knows no record. It can be made anew, or mounted
    /// again. It takes no memory.
    pub fn unmounted(alloc: Global, disk: D) -> Log<D>
        ensures disk { result.disk ≡ disk }
        ensures none { (result.count ≡ 0) × (result.broken ≡ true) }
    {
        Log {
            disk,
            places: Vec::new(alloc),
            end: 0,
            frame: Vec::new(alloc),
            spare: 0,
            anew_records: 0,
            anew_bytes: 0,
            broken: true,
        }
    }

    /// Syncs the disk and finds its records, up to the first closed gate. It writes nothing. An
    /// `Err` hands the disk back. An empty disk is damaged at place 0, where a gate is due.
    pub fn mount(alloc: Global, disk: D) -> Result<Log<D>, (D, MountFault)>
        ensures told { IfOk result (λ log. is_some log.records ≡ is_some (D.told disk)) }
        ensures held { IfOk result (λ log. IfSome (D.told disk) (λ bytes. IfSome log.records (Holds bytes))) }
        ensures exact { IfOk result (λ log. IfSome (D.told disk) (λ bytes. (records : List (List ℕ))
            → Holds bytes records → log.records ≡ Some records)) }
        ensures whole { IfOk result (λ log. (log.broken ≡ false) × (log.spare ≡ 0)) }
        ensures durable { IfOk result (IsLasting D.Disk) }
        ensures untouched { IfOk result (λ log.
            IsUntouched D.Disk disk log.disk) }
        ensures later { IfOk result (λ log. D.faults disk ≤ D.faults log.disk) }
        ensures came { IfOk result (λ log. D.came 1 disk log.disk) }

        ensures came_err { IfErr result (λ e. D.came 1 disk e.0) }
        ensures untouched_err { IfErr result (λ e.
            IsUntouched D.Disk disk e.0) }
        ensures later_err { IfErr result (λ e. D.faults disk ≤ D.faults e.0) }
        ensures cause { IfErr result (λ e. MatchMountFault e.1
            (IsFault (D.faults disk) (D.faults e.0))
            (λ d. (d.disk ≡ 0) × IfSome (D.told disk) (λ bytes. IsDamaged bytes d.at))
            (D.faults disk ≤ D.faults e.0)) }
        ensures never_held { IfErr result (λ e. MatchMountFault e.1
            (λ _. ⊤) (λ _. IfSome (D.told disk) HoldsNoList) ⊤) }
    {
        let mut disk = disk;
        let mut places = Vec::new(alloc);
        let before = disk.faults();
        match find_records(alloc, &mut disk, &mut places) {
            Ok(end) => Ok(Log {
                disk,
                places,
                end,
                frame: Vec::new(alloc),
                spare: 0,
                anew_records: 0,
                anew_bytes: 0,
                broken: false,
            }),
            Err(Stop::Failed) => {
                let after = disk.faults();
                Err((disk, MountFault::DiskFault(DiskFault { before, after })))
            }
            Err(Stop::CutShort(at)) => Err((disk, MountFault::Damaged(Damaged { disk: 0, at }))),
            Err(Stop::NoMemory) => Err((disk, MountFault::Memory)),
        }
    }

    /// Mounts the same disk again: syncs it and finds its records anew, up to the first closed gate.
    /// It writes nothing. After an `Err` the log is broken, and its records are as before.
    pub fn mount_again(&mut self, alloc: Global) -> Result<(), MountFault>
        ensures ok { OnOk result ((self.new.broken ≡ false) × (self.new.spare ≡ 0)) }
        ensures told { is_some self.new.records ≡ is_some (D.told self.old.disk) }
        ensures held { OnOk result (IfSome (D.told self.old.disk) (λ bytes. IfSome self.new.records (Holds bytes))) }
        ensures exact { OnOk result (IfSome (D.told self.old.disk) (λ bytes. (records : List (List ℕ))
            → Holds bytes records → self.new.records ≡ Some records)) }
        ensures durable { OnOk result (IsLasting D.Disk self.new) }
        ensures untouched { IsUntouched D.Disk self.old.disk self.new.disk }
        ensures broken { OnErr result ((self.new.broken ≡ true) × (self.new.records ≡ self.old.records)
            × (self.new.count ≡ self.old.count)) }
        ensures later { D.faults self.old.disk ≤ D.faults self.new.disk }
        ensures came { D.came 1 self.old.disk self.new.disk }
        ensures cause { IfErr result (λ e. MatchMountFault e
            (IsFault (D.faults self.old.disk) (D.faults self.new.disk))
            (λ d. (d.disk ≡ 0) × IfSome (D.told self.old.disk) (λ bytes. IsDamaged bytes d.at))
            (D.faults self.old.disk ≤ D.faults self.new.disk)) }
        ensures never_held { IfErr result (λ e. MatchMountFault e
            (λ _. ⊤) (λ _. IfSome (D.told self.old.disk) HoldsNoList) ⊤) }
    {
        let mut places = Vec::new(alloc);
        self.spare = 0;
        self.anew_records = 0;
        let before = self.disk.faults();
        match find_records(alloc, &mut self.disk, &mut places) {
            Ok(end) => {
                self.places = places;
                self.end = end;
                self.broken = false;
                Ok(())
            }
            Err(stop) => {
                self.broken = true;
                let after = self.disk.faults();
                Err(match stop {
                    Stop::Failed => MountFault::DiskFault(DiskFault { before, after }),
                    Stop::CutShort(at) => MountFault::Damaged(Damaged { disk: 0, at }),
                    Stop::NoMemory => MountFault::Memory,
                })
            }
        }
    }

    /// Adds a record at the end and answers its index, or leaves the list. After `Memory` nothing
    /// has changed; after a fault of the disk the log is broken, and the disk holds the old records
    /// or those with the new one.
    pub fn append(&mut self, body: &[u8]) -> Result<u64, LogFault>
        requires { self.old.broken ≡ false }
        ensures index { IfOk result (λ index. index ≡ self.old.count) }
        ensures added { OnOk result (Adds self.old.records self.new.records body.now) }
        ensures counted { OnOk result ((self.new.count ≡ self.old.count + 1) × (self.new.broken ≡ false)) }
        ensures kept { OnErr result ((self.new.records ≡ self.old.records) × (self.new.count ≡ self.old.count)) }
        ensures spent { OnOk result (self.new.spare ≡ 0) }
        ensures told { is_some (D.told self.new.disk) ≡ is_some (D.told self.old.disk) }
        ensures later { D.faults self.old.disk ≤ D.faults self.new.disk }
        ensures cause { IfErr result (λ e. MatchFault e
            (λ f. IsFault (D.faults self.old.disk) (D.faults self.new.disk) f
            × (self.new.broken ≡ true) × (self.new.spare ≡ 0))
            (self.new ≡ self.old)) }

        ensures came { D.came 4 self.old.disk self.new.disk }

        // At every moment a stop leaves the old records, or those with the new one, and so it does
        // after a fault. The bytes as they read are one of the two.
        ensures any_moment { LeavesOnly D.Disk self.old.disk self.new.disk
            (IsOldOrAdded self.old.records body.now) }
        ensures left { (image : List ℕ) → D.may_leave self.new.disk image
            → IsOldOrAdded self.old.records body.now image }
        ensures stands { IfSome (D.told self.new.disk) (IsOldOrAdded self.old.records body.now) }
        ensures durable { OnOk result (IsLasting D.Disk self.new) }

        // What is reserved is enough.
        ensures reserved { IsErrOf result LogFault.Memory
            → (self.old.spare ≡ 0) ⊎ (self.old.spare < length body.now) }
    {
        fill_frame(&mut self.frame, body)?;
        self.places.reserve(1)?;
        self.spare = 0;
        self.anew_records = 0;
        let before = self.disk.faults();
        if write_record(&mut self.disk, self.end, &self.frame).is_err() {
            self.broken = true;
            let after = self.disk.faults();
            return Err(LogFault::DiskFault(DiskFault { before, after }));
        }
        let index = self.places.len() as u64;
        self.end = add_place(&mut self.places, self.end, body);
        Ok(index)
    }

    /// Makes the log anew on its disk, whatever that holds, broken or not: the disk is made ready, and
    /// these records become the whole log at once. After `Memory` nothing has changed; after a fault
    /// of the disk the log is broken and knows no record.
    pub fn make_anew(&mut self, first: &[u8], rest: &[Vec<u8>]) -> Result<(), LogFault>
        ensures counted { OnOk result ((self.new.count ≡ length rest.now + 1) × (self.new.broken ≡ false)) }
        ensures records { OnOk result (IfSome self.new.records
            (λ records. records ≡ first.now ∷ bodies_of rest.now)) }
        ensures told { is_some (D.told self.new.disk) ≡ is_some (D.told self.old.disk) }
        ensures records_told { is_some self.new.records ≡ is_some (D.told self.new.disk) }
        ensures later { D.faults self.old.disk ≤ D.faults self.new.disk }
        ensures came { D.came 9 self.old.disk self.new.disk }
        ensures cause { IfErr result (λ e. MatchFault e
            (λ f. IsFault (D.faults self.old.disk) (D.faults self.new.disk) f
            × (self.new.broken ≡ true) × (self.new.count ≡ 0))
            (self.new ≡ self.old)) }
        ensures durable { OnOk result (IsLasting D.Disk self.new) }

        // Once the first sync has succeeded, a stop leaves the old bytes, or no log, or the whole one.
        ensures remade { OnOk result (IsRemade D.Disk
            (IsOldOrMade (first.now ∷ bodies_of rest.now)) self.old.disk self.new.disk) }
        ensures any_moment { IsRemadeOrStill D.Disk
            (IsOldOrMade (first.now ∷ bodies_of rest.now)) self.old.disk self.new.disk }

        // What is reserved is enough. Nothing is reserved afterwards.
        ensures reserved { IsErrOf result LogFault.Memory → (self.old.anew_records ≤ length rest.now)
            ⊎ (self.old.anew_bytes < total_length (first.now ∷ bodies_of rest.now)) }
        ensures spent { OnOk result ((self.new.spare ≡ 0) × (self.new.anew_records ≡ 0)) }
    {
        fill_frames(&mut self.frame, first, rest)?;
        make_room(&mut self.places, rest.len() + 1)?;
        self.places.clear();
        self.end = 0;
        self.spare = 0;
        self.anew_records = 0;
        let before = self.disk.faults();
        if start(&mut self.disk, &self.frame).is_err() {
            self.broken = true;
            let after = self.disk.faults();
            return Err(LogFault::DiskFault(DiskFault { before, after }));
        }
        self.end = add_places(&mut self.places, first, rest);
        self.broken = false;
        Ok(())
    }

    /// Takes the memory for a log made anew of at most so many records, with at most so many bytes
    /// together. An `append` or a mounting spends it.
    pub fn reserve_anew(&mut self, records: u64, bytes: u64) -> Result<(), Memory>
        ensures ok { OnOk result
            (self.new ≡ record self.old { anew_records = records; anew_bytes = bytes }) }
        ensures err { OnErr result (self.new ≡ self.old) }
    {
        let heads = records.checked_mul(HEAD).ok_or(Memory)?;
        let room = heads.checked_add(bytes).ok_or(Memory)?;
        make_room(&mut self.places, records as usize)?;
        self.frame.clear();
        self.frame.reserve(room as usize)?;
        self.anew_records = records;
        self.anew_bytes = bytes;
        Ok(())
    }

    /// Takes the memory for a record of at most so many bytes. The next `append` spends it.
    pub fn reserve(&mut self, bytes: u64) -> Result<(), Memory>
        requires { self.old.broken ≡ false }
        ensures spare { OnOk result ((bytes ≤ self.new.spare) × (0 < self.new.spare)) }
        ensures same { OnOk result (self.new ≡ record self.old { spare = self.new.spare }) }
        ensures err { OnErr result (self.new ≡ self.old) }
    {
        let spare = bytes.max(self.spare).max(1);
        let room = (spare as usize).checked_add(HEAD as usize).ok_or(Memory)?;
        self.frame.clear();
        self.frame.reserve(room)?;
        self.places.reserve(1)?;
        self.spare = spare;
        Ok(())
    }

    /// The record with this index. After `Memory` nothing has changed; after a fault of the disk
    /// the log is broken.
    pub fn read(&mut self, alloc: Global, index: u64) -> Result<Vec<u8>, LogFault>
        requires known { index < self.old.count }
        requires whole { self.old.broken ≡ false }
        ensures record_asked { IfOk result (λ body. IfSome self.old.records
            (λ records. slice_get records index ≡ Some body.items)) }
        ensures records { self.new.records ≡ self.old.records }
        ensures count { self.new.count ≡ self.old.count }
        ensures ok { OnOk result ((self.new.broken ≡ false) × (self.new.spare ≡ self.old.spare)) }
        ensures told { D.told self.new.disk ≡ D.told self.old.disk }
        ensures untouched { IsUntouched D.Disk self.old.disk self.new.disk }
        ensures any_moment { LeavesOnly D.Disk self.old.disk self.new.disk (IsOfRecords self.old.records) }
        ensures left { (image : List ℕ) → D.may_leave self.new.disk image → IsOfRecords self.old.records image }
        ensures stands { IfSome (D.told self.new.disk) (IsOfRecords self.old.records) }
        ensures durable { OnOk result (IsLasting D.Disk self.new) }
        ensures later { D.faults self.old.disk ≤ D.faults self.new.disk }
        ensures came { D.came 0 self.old.disk self.new.disk }
        ensures cause { IfErr result (λ e. MatchFault e
            (λ f. IsFault (D.faults self.old.disk) (D.faults self.new.disk) f
            × (self.new.broken ≡ true) × (self.new.spare ≡ self.old.spare))
            (self.new ≡ self.old)) }
    {
        let place = self.places[index as usize];
        let mut body = vec![in alloc; 0; place.len as usize]?;
        let before = self.disk.faults();
        if read_body(&mut self.disk, place.at, &mut body).is_err() {
            self.broken = true;
            let after = self.disk.faults();
            return Err(LogFault::DiskFault(DiskFault { before, after }));
        }
        Ok(body)
    }

    /// How many records there are.
    pub fn count(&self) -> u64
        ensures value { result ≡ self.now.count }
        ensures told { IfSome self.now.records (λ records. length records ≡ result) }
    {
        self.places.len() as u64
    }

    /// How often the disk has failed.
    pub fn faults(&self) -> u64
        ensures { result ≡ D.faults self.now.disk }
    {
        self.disk.faults()
    }

    /// The place of the gate of the record with this index.
    pub fn place_of(&self, index: u64) -> u64
        requires known { index < self.now.count }
        requires whole { self.now.broken ≡ false }
        ensures place { IfSome self.now.records (λ records. result ≡ length (log_bytes (take index records))) }
    {
        self.places[index as usize].at - HEAD
    }

    /// Whether a call has failed, so that the log is to be mounted again.
    pub fn is_broken(&self) -> bool
        ensures value { result ≡ self.now.broken }
        ensures durable { self.now.broken ≡ false → IsLasting D.Disk self.now }
    {
        self.broken
    }

    /// The disk. It begins with the records, and holds no others unless the log is broken.
    pub fn into_disk(self) -> D
        ensures disk { result ≡ self.disk }
        ensures told { is_some self.records ≡ is_some (D.told result) }
        ensures begins { IfSome (D.told result) (λ bytes. IfSome self.records (Begins bytes)) }
        ensures held { self.broken ≡ false → IfSome (D.told result) (λ bytes. IfSome self.records (Holds bytes)) }
    {
        let Log {
            disk,
            places: _,
            end: _,
            frame: _,
            spare: _,
            anew_records: _,
            anew_bytes: _,
            broken: _,
        } = self;
        disk
    }
}

impl<D: Fusible> Log<D> {
    /// Sets the fuse of the disk of this number, of which there is one, 0.
    pub fn fuse(&mut self, disk: u8, calls: u64)
        requires { disk ≡ 0 }
        ensures set { D.fused self.new.disk ≡ Some calls }
        ensures same { self.new ≡ record self.old { disk = self.new.disk } }
        ensures told { D.told self.new.disk ≡ D.told self.old.disk }
        ensures size { D.size self.new.disk ≡ D.size self.old.disk }
        ensures images { SameImages (D.may_leave self.old.disk) (D.may_leave self.new.disk) }
        ensures moment { D.moment self.new.disk ≡ D.moment self.old.disk }
        ensures past { (since : ℕ) → SameImages (D.left_since self.old.disk since) (D.left_since self.new.disk since) }
        ensures faults { D.faults self.new.disk ≡ D.faults self.old.disk }
        ensures starved { D.starved self.new.disk ≡ D.starved self.old.disk }
        ensures listed { D.listed self.new.disk → D.listed self.old.disk }
    {
        let _ = disk;
        self.disk.fuse(calls);
    }

    /// How many calls of the disk have failed for want of memory.
    pub fn starved(&self) -> u64
        ensures { result ≡ D.starved self.now.disk }
    {
        self.disk.starved()
    }
}
