// The live metrics of a sack on its disks.
ghost use Rattle.std.specs.Prelude.{◌≡◌, ⊤, [], ◌∷◌, List, ℕ, IfOk, IfErr, IfSome, IsSome, MatchOption, None, OnErr, OnOk, Some, is_some, length, map, option_map, false};
ghost use Rattle.std.specs.List.Sorted.{IsStrictlyIncreasing};
ghost use Rattle.gno_disk.specs.Phases.{AreUnwritten, phase};
ghost use Rattle.gate_log.specs.LogView.{IsFault, MatchFault, MatchMountFault};
ghost use Rattle.split_update.specs.Live.{Live, live_from_scratch};
ghost use Rattle.gno_codec.specs.declared.item.ShelfItem.TheVariants as items;
ghost use Rattle.gno_codec.specs.declared.item.ShelfItem.{ShelfItem};
ghost use Rattle.shelf_records.specs.Shelved.{Shelved, after_record, after_records, metric_of};
ghost use Rattle.sack_history.specs.Scratch.{commit_live, with_live, without_live};
ghost use Rattle.split_store.specs.Turn.{IsCommitted, WritesBlocks};
ghost use Rattle.split_store.specs.Damage.{HasOddChunk, HasOddSplit, HasOddSplits, IsDamagedShelf};
ghost use Rattle.split_store.specs.Shelf.{HasNoShelfLog, HasShelfLog, HoldsShelf, IsShelfLog, live_by, shelf_place};
ghost use Rattle.split_store.specs.ShelfView.{HasFailed, IsCause, IsChanged, IsKeptAs, IsLastingShelf, IsMakingShelf, IsOldOrChanged, IsOnlySeen, Keeps, LeavesOldOrChanged, ThreeTold, all_faults, keys_in, last_in, shelf_faults, stored_split};

use crate::load::load;
use crate::reading::{breaks, fault_of, faults_of, keys_of, raw_in, split_in};
use crate::registering::{prepare_drop, prepare_register, write_record};
use crate::turn::turn_in;
use crate::write::write_turn;
use archive_policy::{Kind, Policy};
use bound_series::{Prepared, Raw};
use gno_disk::Disk;
use gno_num::{DiskFault, Failed, Memory, Stamp};
use log_pair::{LogFault, LogPair, MountFault, Place};
use series_model::{MetricId, Split};
use shelf_records::Book;
use std::alloc::Global;
use std::marker::Model;

/// The live metrics of a sack with their kept windows and their splits, on a pair of logs and a disk of
/// blocks. After a fault of a disk, or damage that a read found, it is broken, and its disks are to be
/// mounted again.
#[derive(Drop)]
pub struct Shelf<D: Disk> {
    pair: LogPair<D>,
    blocks: D,
    book: Book,
    damaged: bool,
}

impl<D: Disk> Model for Shelf<D> {
    ghost use Rattle.split_store.specs.ShelfView.{ShelfView};

    ghost Value = { ShelfView D };

    ghost use Rattle.split_store.specs.Inside.{shelf_view, KeepsShelf};

    ghost view = { shelf_view };

    ghost invariant = { KeepsShelf D.Disk };
}

/// The role of a shelf's log.
const SHELF: u8 = 3;

fn place_of(place: Place) -> Place
    ensures { result ≡ shelf_place place }
{
    Place {
        role: SHELF,
        sack: place.sack,
        sacks: place.sacks,
    }
}

/// How often three disks have failed.
fn all_faults<D: Disk>(a: &D, b: &D, blocks: &D) -> u64
    ensures { result ≡ all_faults D.Disk a.now b.now blocks.now }
{
    a.faults()
        .saturating_add(b.faults())
        .saturating_add(blocks.faults())
}

/// A fault of a call that began and ended when three disks had failed so often.
fn counted(fault: MountFault, before: u64, after: u64) -> MountFault
    ensures { MatchMountFault fault
        (λ f. result ≡ MountFault.DiskFault (record { before = before; after = after }))
        (λ d. result ≡ MountFault.Damaged d)
        (result ≡ MountFault.Memory) }
{
    match fault {
        MountFault::DiskFault(_) => MountFault::DiskFault(DiskFault { before, after }),
        MountFault::Damaged(damaged) => MountFault::Damaged(damaged),
        MountFault::Memory => MountFault::Memory,
    }
}

impl<D: Disk> Shelf<D> {
    /// A shelf without metrics, the role of whose log is 3, whatever role the place has. It syncs the
    /// blocks, makes the second disk ready, and then the log on the first. An `Err` hands the disks back.
    pub fn create(
        alloc: Global,
        a: D,
        b: D,
        mut blocks: D,
        place: Place,
    ) -> Result<Shelf<D>, (D, D, D, LogFault)>
        ensures made { IfOk result (λ shelf. (shelf.place ≡ shelf_place place) × (shelf.epoch ≡ 1) × (shelf.broken ≡ false) × (shelf.metrics ≡ [])) }
        ensures keeps { IfOk result (λ shelf. IsSome (D.told a) → IsSome (D.told b) → IsSome (D.told blocks) → Keeps D.Disk shelf []) }
        ensures durable { IfOk result (IsLastingShelf D.Disk) }

        // On disks of which no image has a log, a stop leaves no log or the empty shelf.
        ensures any_moment { IfOk result (λ shelf. IsMakingShelf D.Disk place a b blocks shelf.first shelf.second shelf.blocks) }
        ensures came { IfOk result (λ shelf. D.came 9 a shelf.first × D.came 5 b shelf.second × D.came 1 blocks shelf.blocks) }

        ensures any_moment_err { IfErr result (λ e. IsMakingShelf D.Disk place a b blocks e.0 e.1 e.2) }
        ensures came_err { IfErr result (λ e. D.came 9 a e.0 × D.came 5 b e.1 × D.came 1 blocks e.2) }
        ensures cause { IfErr result (λ e. MatchFault e.3
            (IsFault (all_faults D.Disk a b blocks) (all_faults D.Disk e.0 e.1 e.2)) ((e.0 ≡ a) × (e.1 ≡ b))) }
    {
        let before = all_faults(&a, &b, &blocks);
        match blocks.sync() {
            Ok(()) => {}
            Err(_) => {
                let after = all_faults(&a, &b, &blocks);
                return Err((
                    a,
                    b,
                    blocks,
                    LogFault::DiskFault(DiskFault { before, after }),
                ));
            }
        }
        match LogPair::create(alloc, a, b, place_of(place)) {
            Ok(pair) => Ok(Shelf {
                pair,
                blocks,
                book: Book::new(alloc),
                damaged: false,
            }),
            Err((a, b, LogFault::Memory)) => Err((a, b, blocks, LogFault::Memory)),
            Err((a, b, LogFault::DiskFault(_))) => {
                let after = all_faults(&a, &b, &blocks);
                Err((
                    a,
                    b,
                    blocks,
                    LogFault::DiskFault(DiskFault { before, after }),
                ))
            }
        }
    }

    /// Syncs all disks and reads each record of the log that counts once, in order. It writes nothing. An
    /// `Err` hands the disks back. What stands in the blocks isn't read: damage there is found by the calls
    /// that read it.
    pub fn mount(
        alloc: Global,
        a: D,
        b: D,
        mut blocks: D,
        place: Place,
    ) -> Result<Shelf<D>, (D, D, D, MountFault)>
        ensures place { IfOk result (λ shelf. (shelf.place ≡ shelf_place place) × (shelf.broken ≡ false)) }
        ensures log { IfOk result (λ shelf. ThreeTold (D.told a) (D.told b) (D.told blocks)
            (λ x y z. HasShelfLog place (length z) shelf.epoch shelf.metrics x y)) }
        ensures exact { IfOk result (λ shelf. ThreeTold (D.told a) (D.told b) (D.told blocks)
            (λ x y z. (epoch : ℕ) (items : List ShelfItem) → IsShelfLog place (length z) epoch items x y
            → (shelf.epoch ≡ epoch) × (shelf.metrics ≡ after_records [] items))) }
        ensures keeps { IfOk result (λ shelf. ThreeTold (D.told a) (D.told b) (D.told blocks)
            (λ x y z. (lives : List Live) → HoldsShelf place lives x y z → Keeps D.Disk shelf lives)) }
        ensures held { IfOk result (λ shelf. ThreeTold (D.told a) (D.told b) (D.told blocks)
            (λ x y z. (lives : List Live) → Keeps D.Disk shelf lives → HoldsShelf place lives x y z)) }
        ensures durable { IfOk result (IsLastingShelf D.Disk) }
        ensures unwritten { IfOk result (λ shelf. AreUnwritten D.Disk (phase blocks shelf.blocks ∷ phase a shelf.first ∷ phase b shelf.second ∷ [])) }
        ensures came { IfOk result (λ shelf. D.came 2 a shelf.first × D.came 2 b shelf.second × D.came 1 blocks shelf.blocks) }

        ensures unwritten_err { IfErr result (λ e. AreUnwritten D.Disk (phase blocks e.2 ∷ phase a e.0 ∷ phase b e.1 ∷ [])) }
        ensures came_err { IfErr result (λ e. D.came 2 a e.0 × D.came 2 b e.1 × D.came 1 blocks e.2) }
        ensures told_err { IfErr result (λ e. (is_some (D.told e.0) ≡ is_some (D.told a)) × (is_some (D.told e.1) ≡ is_some (D.told b)) × (D.told e.2 ≡ D.told blocks)) }
        ensures cause { IfErr result (λ e. MatchMountFault e.3
            (IsFault (all_faults D.Disk a b blocks) (all_faults D.Disk e.0 e.1 e.2))
            (λ d. ThreeTold (D.told a) (D.told b) (D.told blocks) (λ x y z. IsDamagedShelf place (length z) x y d)) ⊤) }
        ensures never_held { IfErr result (λ e. MatchMountFault e.3 (λ _. ⊤)
            (λ _. ThreeTold (D.told a) (D.told b) (D.told blocks) (λ x y z. HasNoShelfLog place (length z) x y)) ⊤) }
    {
        let before = all_faults(&a, &b, &blocks);
        match blocks.sync() {
            Ok(()) => {}
            Err(_) => {
                let after = all_faults(&a, &b, &blocks);
                return Err((
                    a,
                    b,
                    blocks,
                    MountFault::DiskFault(DiskFault { before, after }),
                ));
            }
        }
        let mut pair = match LogPair::mount(alloc, a, b, place_of(place)) {
            Ok(pair) => pair,
            Err((a, b, fault)) => {
                let fault = counted(fault, before, all_faults(&a, &b, &blocks));
                return Err((a, b, blocks, fault));
            }
        };
        match load(alloc, &mut pair, blocks.len()) {
            Ok(book) => Ok(Shelf {
                pair,
                blocks,
                book,
                damaged: false,
            }),
            Err(fault) => {
                let (a, b) = pair.into_disks();
                let fault = counted(fault, before, all_faults(&a, &b, &blocks));
                Err((a, b, blocks, fault))
            }
        }
    }

    /// Whether a call has failed. While none has, what a stop now leaves has the live metrics that it has.
    pub fn is_broken(&self) -> bool
        ensures value { result ≡ self.now.broken }
        ensures durable { self.now.broken ≡ false → IsLastingShelf D.Disk self.now }
    {
        self.damaged || self.pair.is_broken()
    }

    /// The live metrics, by rising identifier.
    pub fn metrics(&self) -> &[MetricId]
        ensures value { result.now ≡ map (λ m. m.id) self.now.metrics }
        ensures rising { IsStrictlyIncreasing (map (λ m. m.id.0) self.now.metrics) }
    {
        self.book.metrics()
    }

    /// How often its disks have failed, at most 2^64 - 1.
    pub fn faults(&self) -> u64
        ensures { result ≡ shelf_faults D.Disk self.now }
    {
        faults_of(&self.pair, &self.blocks)
    }

    /// The policy of a live metric.
    pub fn policy_of(&self, metric: MetricId) -> Option<&Policy>
        ensures { MatchOption result (metric_of metric self.now.metrics ≡ None)
            (λ policy. option_map (λ m. m.policy) (metric_of metric self.now.metrics) ≡ Some policy.now) }
    {
        match self.book.get(metric) {
            Some(filed) => Some(filed.policy()),
            None => None,
        }
    }

    /// The done number of a live metric.
    pub fn done_of(&self, metric: MetricId) -> Option<u64>
        ensures { result ≡ option_map (λ m. m.done) (metric_of metric self.now.metrics) }
    {
        match self.book.get(metric) {
            Some(filed) => Some(filed.done()),
            None => None,
        }
    }

    /// The greatest accepted timestamp of a metric; none where it isn't live, or nothing was accepted.
    pub fn last_of(&self, metric: MetricId) -> Option<Stamp>
        ensures { result ≡ last_in (metric_of metric self.now.metrics) }
    {
        match self.book.get(metric) {
            Some(filed) => filed.last(),
            None => None,
        }
    }

    /// The keys of the stored splits of a live metric, for the policy's definition at this place and a kind, by
    /// rising key; there are none where the policy hasn't these.
    pub fn keys(&self, metric: MetricId, definition: u8, kind: Kind) -> Option<&[Stamp]>
        ensures { MatchOption result (metric_of metric self.now.metrics ≡ None)
            (λ keys. option_map (λ m. keys_in definition kind m) (metric_of metric self.now.metrics) ≡ Some keys.now) }
    {
        match self.book.get(metric) {
            Some(filed) => Some(keys_of(filed, definition, kind)),
            None => None,
        }
    }

    /// The raw series of a live metric. After `Memory` all is as before.
    pub fn raw_of(&mut self, alloc: Global, metric: MetricId) -> Result<Raw, MountFault>
        requires whole { self.old.broken ≡ false }
        requires live { IsSome (metric_of metric self.old.metrics) }
        ensures raw { IfOk result (λ raw. (lives : List Live) → Keeps D.Disk self.old lives
            → option_map (λ l. l.raw) (live_by metric lives) ≡ Some raw) }
        ensures whole { OnOk result (self.new.broken ≡ false) }
        ensures seen { IsOnlySeen D.Disk self.old self.new }
        ensures left { IsLastingShelf D.Disk self.new }
        ensures cause { IfErr result (IsCause D.Disk (HasOddChunk self.old.metrics metric) self.old self.new) }
    {
        let before = faults_of(&self.pair, &self.blocks);
        match raw_in(alloc, &mut self.blocks, &self.book, metric) {
            Ok(raw) => Ok(raw),
            Err(fault) => {
                self.damaged = breaks(&fault);
                Err(fault_of(fault, before, faults_of(&self.pair, &self.blocks)))
            }
        }
    }

    /// The stored split of a live metric with this key, for the policy's definition at this place and a kind, if
    /// it is stored. After `Memory` all is as before.
    pub fn read_split(
        &mut self,
        alloc: Global,
        metric: MetricId,
        definition: u8,
        kind: Kind,
        key: Stamp,
    ) -> Result<Option<Split>, MountFault>
        requires whole { self.old.broken ≡ false }
        requires live { IsSome (metric_of metric self.old.metrics) }
        ensures split { IfOk result (λ split. (lives : List Live) → Keeps D.Disk self.old lives
            → split ≡ stored_split metric definition kind key lives) }
        ensures whole { OnOk result (self.new.broken ≡ false) }
        ensures seen { IsOnlySeen D.Disk self.old self.new }
        ensures left { IsLastingShelf D.Disk self.new }
        ensures cause { IfErr result (IsCause D.Disk (HasOddSplit self.old.metrics metric definition kind key) self.old self.new) }
    {
        let before = faults_of(&self.pair, &self.blocks);
        match split_in(
            alloc,
            &mut self.blocks,
            &self.book,
            metric,
            definition,
            kind,
            key,
        ) {
            Ok(split) => Ok(split),
            Err(fault) => {
                self.damaged = breaks(&fault);
                Err(fault_of(fault, before, faults_of(&self.pair, &self.blocks)))
            }
        }
    }

    /// A metric is live from now on, with this policy and this done number, and without measures. After `Memory`
    /// all is as before.
    pub fn register(
        &mut self,
        alloc: Global,
        metric: MetricId,
        policy: &Policy,
        done: u64,
    ) -> Result<(), LogFault>
        requires whole { self.old.broken ≡ false }
        requires absent { metric_of metric self.old.metrics ≡ None }
        ensures metrics { OnOk result (self.new.metrics ≡ after_record self.old.metrics (items.Register metric done policy.now)) }
        ensures changed { OnOk result (IsChanged D.Disk (with_live (live_from_scratch metric policy.now done [])) self.old self.new) }
        ensures kept { OnErr result ((self.new.metrics ≡ self.old.metrics) × IsKeptAs D.Disk self.old self.new) }
        ensures same { (self.new.place ≡ self.old.place) × (self.new.epoch ≡ self.old.epoch) × (self.new.blocks ≡ self.old.blocks) }
        ensures whole { OnOk result (self.new.broken ≡ false) }
        ensures came { D.came 4 self.old.first self.new.first × D.came 4 self.old.second self.new.second }

        // At every moment a stop leaves the metrics without the new one, or with it; so it does at the exit.
        ensures any_moment { IsOldOrChanged D.Disk (with_live (live_from_scratch metric policy.now done [])) self.old self.new }
        ensures left { LeavesOldOrChanged D.Disk (with_live (live_from_scratch metric policy.now done [])) self.old self.new }
        ensures durable { OnOk result (IsLastingShelf D.Disk self.new) }

        ensures cause { IfErr result (λ e. MatchFault e (HasFailed D.Disk self.old self.new) (self.new ≡ self.old)) }
    {
        let before = faults_of(&self.pair, &self.blocks);
        let (body, filed) = match prepare_register(
            alloc,
            &mut self.pair,
            &mut self.book,
            metric,
            policy,
            done,
        ) {
            Ok(ready) => ready,
            Err(Memory) => return Err(LogFault::Memory),
        };
        match write_record(&mut self.pair, &body) {
            Ok(()) => {
                self.book.register(filed);
                Ok(())
            }
            Err(Failed) => {
                let after = faults_of(&self.pair, &self.blocks);
                Err(LogFault::DiskFault(DiskFault { before, after }))
            }
        }
    }

    /// A metric is live no longer, and its blocks are free. After `Memory` all is as before.
    pub fn drop_metric(&mut self, alloc: Global, metric: MetricId) -> Result<(), LogFault>
        requires whole { self.old.broken ≡ false }
        requires live { IsSome (metric_of metric self.old.metrics) }
        ensures metrics { OnOk result (self.new.metrics ≡ after_record self.old.metrics (items.Drop metric)) }
        ensures changed { OnOk result (IsChanged D.Disk (without_live metric) self.old self.new) }
        ensures kept { OnErr result ((self.new.metrics ≡ self.old.metrics) × IsKeptAs D.Disk self.old self.new) }
        ensures same { (self.new.place ≡ self.old.place) × (self.new.epoch ≡ self.old.epoch) × (self.new.blocks ≡ self.old.blocks) }
        ensures whole { OnOk result (self.new.broken ≡ false) }
        ensures came { D.came 4 self.old.first self.new.first × D.came 4 self.old.second self.new.second }

        // At every moment a stop leaves the metrics with this one, or without it; so it does at the exit.
        ensures any_moment { IsOldOrChanged D.Disk (without_live metric) self.old self.new }
        ensures left { LeavesOldOrChanged D.Disk (without_live metric) self.old self.new }
        ensures durable { OnOk result (IsLastingShelf D.Disk self.new) }

        ensures cause { IfErr result (λ e. MatchFault e (HasFailed D.Disk self.old self.new) (self.new ≡ self.old)) }
    {
        let before = faults_of(&self.pair, &self.blocks);
        let body = match prepare_drop(alloc, &mut self.pair, &mut self.book, metric) {
            Ok(body) => body,
            Err(Memory) => return Err(LogFault::Memory),
        };
        match write_record(&mut self.pair, &body) {
            Ok(()) => {
                self.book.drop_metric(metric);
                Ok(())
            }
            Err(Failed) => {
                let after = faults_of(&self.pair, &self.blocks);
                Err(LogFault::DiskFault(DiskFault { before, after }))
            }
        }
    }

    /// Commits the prepared work of a live metric: its raw series and the splits that are new are written to free
    /// slots, the blocks are synced, and one record is added. Blocks that fall free may be used from then on. It
    /// reads the splits that the work touches, and no others. After `Memory` all is as before.
    pub fn commit(&mut self, alloc: Global, prepared: &Prepared) -> Result<(), MountFault>
        requires whole { self.old.broken ≡ false }
        requires live { IsSome (metric_of prepared.now.job.metric self.old.metrics) }
        requires policy { (m : Shelved) → metric_of prepared.now.job.metric self.old.metrics ≡ Some m → prepared.now.job.policy ≡ m.policy }
        ensures committed { OnOk result (IsCommitted prepared.now self.old.metrics self.new.metrics) }
        ensures changed { OnOk result (IsChanged D.Disk (commit_live prepared.now.job.metric prepared.now) self.old self.new) }
        ensures kept { OnErr result ((self.new.metrics ≡ self.old.metrics) × IsKeptAs D.Disk self.old self.new) }
        ensures same { (self.new.place ≡ self.old.place) × (self.new.epoch ≡ self.old.epoch) }
        ensures whole { OnOk result (self.new.broken ≡ false) }
        ensures came { D.came 4 self.old.first self.new.first × D.came 4 self.old.second self.new.second }
        ensures writes { WritesBlocks D.Disk self.old.metrics prepared.now self.old.blocks self.new.blocks }

        // At every moment a stop leaves the metrics as they were, or with this one as it is after the commit; so it
        // does at the exit. While the blocks are written, it leaves the metrics as they were.
        ensures any_moment { IsOldOrChanged D.Disk (commit_live prepared.now.job.metric prepared.now) self.old self.new }
        ensures left { LeavesOldOrChanged D.Disk (commit_live prepared.now.job.metric prepared.now) self.old self.new }
        ensures durable { OnOk result (IsLastingShelf D.Disk self.new) }

        ensures cause { IfErr result (IsCause D.Disk (HasOddSplits self.old.metrics prepared.now.job.metric) self.old self.new) }
        // After damage or want of memory nothing was written.
        ensures seen { IfErr result (λ e. MatchMountFault e (λ f. ⊤) (λ d. IsOnlySeen D.Disk self.old self.new) (IsOnlySeen D.Disk self.old self.new)) }
    {
        let _ids = self.book.metrics();
        let before = faults_of(&self.pair, &self.blocks);
        let mut turn = match turn_in(
            alloc,
            &mut self.blocks,
            &mut self.pair,
            &mut self.book,
            prepared,
        ) {
            Ok(turn) => turn,
            Err(fault) => {
                self.damaged = breaks(&fault);
                let after = faults_of(&self.pair, &self.blocks);
                return Err(fault_of(fault, before, after));
            }
        };
        match write_turn(&mut self.blocks, &mut self.pair, &mut turn) {
            Ok(()) => {
                self.book.settle(turn.item, turn.series);
                Ok(())
            }
            Err(Failed) => {
                self.book.release();
                self.damaged = true;
                let after = faults_of(&self.pair, &self.blocks);
                Err(MountFault::DiskFault(DiskFault { before, after }))
            }
        }
    }

    /// Its disks, in the order in which they were handed in.
    pub fn into_disks(self) -> (D, D, D)
        ensures { (result.0 ≡ self.first) × (result.1 ≡ self.second) × (result.2 ≡ self.blocks) }
    {
        let (a, b) = self.pair.into_disks();
        (a, b, self.blocks)
    }
}
