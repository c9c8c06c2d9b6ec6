// The index's book: the maps in memory over a pair of logs. It doesn't mount by itself.
ghost use Rattle.std.specs.Prelude.{◌≡◌, ⊤, ℕ, List, [], ◌∷◌, IfOk, IfErr, OnOk, OnErr, is_some, min, false, true, ◌&&◌, ◌+◌, ◌-◌, ◌^◌, ◌<◌, ◌≤◌, ◌==◌, Some};
ghost use Rattle.gno_disk.specs.Phases.{AtExit, AreUnwritten, EachMoment, phase};
ghost use Rattle.gate_log.specs.LogView.{IsFault, MatchFault, MatchMountFault};
ghost use Rattle.gno_codec.specs.Index.{IsUsable, index_bytes};
ghost use Rattle.log_pair.specs.Choice.{TwoTold};
ghost use Rattle.log_pair.specs.Pair.{one_of, other_of};
ghost use Rattle.log_pair.specs.PairView.{IsMaking, OfTwo, both_faults};
ghost use Rattle.front_api.specs.Calls.{IsSpentFor, RefusedCall};
ghost use Rattle.front_api.specs.declared.history.IndexEntry.{IndexEntry};
ghost use Rattle.front_api.specs.Maps.{Maps, id_of, last_counter, new_maps};
ghost use Rattle.front_api.specs.Replies.{IsAcceptedMetric, IsRefusedMetric, doc_refusal, refusal_of, reply_of};
ghost use Rattle.metric_index.specs.BookView.{AreOldOrNext, IsLastingBook, book_phases};
ghost use Rattle.metric_index.specs.Catalog.{AreKept};
ghost use Rattle.metric_index.specs.IndexDamage.{HoldsNoIndex, IsDamagedIndex};
ghost use Rattle.metric_index.specs.IndexLog.{HoldsIndex, index_place};
ghost use Rattle.metric_index.specs.Items.{May, after_one, counted_of};

use crate::catalog::Catalog;
use crate::load::load;
use crate::reading::since;
use crate::writing::{prepare, store_records};
use archive_policy::{Name, Policy};
use front_api::{Command, ControlFault, MetricDoc, Reply};
use gno_codec::IndexItem;
use gno_disk::{Disk, Fusible};
use gno_num::Memory;
use log_pair::{LogFault, LogPair, MountFault, Place};
use series_model::MetricId;
use std::alloc::Global;
use std::marker::Model;

/// The maps of the index on a pair of logs. After a fault of a disk it is broken, and its disks are to be
/// mounted again.
#[derive(Drop)]
pub struct Book<D: Disk> {
    pair: LogPair<D>,
    catalog: Catalog,
}

impl<D: Disk> Model for Book<D> {
    ghost use Rattle.metric_index.specs.BookView.{BookView};

    ghost Value = { BookView D };

    ghost use Rattle.metric_index.specs.Inside.{KeepsBook, book_view};

    ghost view = { book_view };

    ghost invariant = { KeepsBook };
}

/// The place of the index's log.
fn place_of(sacks: u16) -> Place
    ensures { result ≡ index_place sacks }
{
    Place {
        role: 1,
        sack: 0,
        sacks,
    }
}

/// How often two disks have failed.
pub fn both_faults<D: Disk>(a: &D, b: &D) -> u64
    ensures { result ≡ both_faults D.Disk a.now b.now }
{
    a.faults().saturating_add(b.faults())
}

impl<D: Disk> Book<D> {
    /// The index of a new store of this number. It makes the second disk ready, and then the log on the first,
    /// with its first record at once. An `Err` hands the disks back; after `Memory` nothing was called on them.
    pub fn create(
        alloc: Global,
        a: D,
        b: D,
        sacks: u16,
        number: u32,
    ) -> Result<Book<D>, (D, D, LogFault)>
        ensures made { IfOk result (λ book. (book.sacks ≡ sacks) × (book.epoch ≡ 1) × (book.broken ≡ false)) }
        ensures maps { IfOk result (λ book. book.maps ≡ new_maps number) }
        ensures kept { IfOk result (λ book. AreKept book.maps) }
        ensures told { IfOk result (λ book. book.is_told ≡ (is_some (D.told a) && is_some (D.told b))) }
        ensures durable { IfOk result (IsLastingBook D.Disk) }

        // On disks of which no image has a log, a stop leaves no log or the whole one.
        ensures any_moment { IfOk result (λ book. IsMaking D.Disk (index_place sacks) (index_bytes (IndexItem.Store number 0) ∷ []) a b book.first book.second) }
        ensures came { IfOk result (λ book. D.came 9 a book.first × D.came 5 b book.second) }

        ensures any_moment_err { IfErr result (λ e. IsMaking D.Disk (index_place sacks) (index_bytes (IndexItem.Store number 0) ∷ []) a b e.0 e.1) }
        ensures came_err { IfErr result (λ e. D.came 9 a e.0 × D.came 5 b e.1) }
        ensures cause { IfErr result (λ e. MatchFault e.2
            (IsFault (both_faults D.Disk a b) (both_faults D.Disk e.0 e.1)) ((e.0 ≡ a) × (e.1 ≡ b))) }
    {
        let Ok(records) = store_records(alloc, number) else {
            return Err((a, b, LogFault::Memory));
        };
        let made = LogPair::create_with(alloc, a, b, place_of(sacks), records.as_slice());
        let pair = match made {
            Ok(pair) => pair,
            Err((a, b, fault)) => return Err((a, b, fault)),
        };
        Ok(Book {
            pair,
            catalog: Catalog::new(alloc, number, 0),
        })
    }

    /// Syncs both disks and reads each record of the log that counts once, in order. It writes nothing. An
    /// `Err` hands the disks back.
    pub fn mount(alloc: Global, a: D, b: D, sacks: u16) -> Result<Book<D>, (D, D, MountFault)>
        ensures place { IfOk result (λ book. (book.sacks ≡ sacks) × (book.broken ≡ false)) }
        ensures told { IfOk result (λ book. book.is_told ≡ (is_some (D.told a) && is_some (D.told b))) }
        ensures kept { IfOk result (λ book. AreKept book.maps) }
        ensures held { IfOk result (λ book. TwoTold (D.told a) (D.told b) (HoldsIndex sacks book.maps)) }
        ensures exact { IfOk result (λ book. TwoTold (D.told a) (D.told b) (λ x y. (m : Maps) → HoldsIndex sacks m x y → book.maps ≡ m)) }
        ensures durable { IfOk result (IsLastingBook D.Disk) }
        ensures unwritten { IfOk result (λ book. AreUnwritten D.Disk (phase a book.first ∷ phase b book.second ∷ [])) }
        ensures came { IfOk result (λ book. D.came 2 a book.first × D.came 2 b book.second) }

        ensures unwritten_err { IfErr result (λ e. AreUnwritten D.Disk (phase a e.0 ∷ phase b e.1 ∷ [])) }
        ensures came_err { IfErr result (λ e. D.came 2 a e.0 × D.came 2 b e.1) }
        ensures told_err { IfErr result (λ e. (is_some (D.told e.0) ≡ is_some (D.told a)) × (is_some (D.told e.1) ≡ is_some (D.told b))) }
        ensures cause { IfErr result (λ e. MatchMountFault e.2
            (IsFault (both_faults D.Disk a b) (both_faults D.Disk e.0 e.1))
            (λ d. TwoTold (D.told a) (D.told b) (λ x y. IsDamagedIndex sacks x y d)) ⊤) }
        ensures never_held { IfErr result (λ e. MatchMountFault e.2 (λ _. ⊤)
            (λ _. TwoTold (D.told a) (D.told b) (HoldsNoIndex sacks)) ⊤) }
    {
        let before = both_faults(&a, &b);
        let mut pair = match LogPair::mount(alloc, a, b, place_of(sacks)) {
            Ok(pair) => pair,
            Err((a, b, fault)) => return Err((a, b, fault)),
        };
        match load(alloc, &mut pair) {
            Ok(catalog) => Ok(Book { pair, catalog }),
            Err(fault) => {
                let (a, b) = pair.into_disks();
                Err((a, b, since(fault, before)))
            }
        }
    }

    /// Writes a record that may stand here, and takes it in. All memory is taken before the first write: after
    /// `Memory` nothing has changed. After a fault of a disk it is broken, and its disks hold the old maps or
    /// those with the record.
    pub fn write(&mut self, alloc: Global, item: IndexItem) -> Result<(), LogFault>
        requires whole { self.old.broken ≡ false }
        requires may { May self.old.maps (counted_of item) }
        requires usable { IsUsable item }
        ensures taken { OnOk result (self.new.maps ≡ after_one self.old.maps (counted_of item)) }
        ensures kept { OnErr result (self.new.maps ≡ self.old.maps) }
        ensures whole { OnOk result (self.new.broken ≡ false) }
        ensures same { (self.new.sacks ≡ self.old.sacks) × (self.new.epoch ≡ self.old.epoch) × (self.new.is_told ≡ self.old.is_told) }
        ensures came { D.came 4 self.old.first self.new.first × D.came 4 self.old.second self.new.second }
        ensures cause { IfErr result (λ e. MatchFault e
            (λ f. IsFault (both_faults D.Disk self.old.first self.old.second)
            (both_faults D.Disk self.new.first self.new.second) f × (self.new.broken ≡ true)) (self.new ≡ self.old)) }

        // At every moment a stop leaves the old maps, or those with the record; so it does at the exit, after Ok
        // and after a fault.
        ensures any_moment { EachMoment D.Disk (book_phases self.old self.new) (OfTwo (AreOldOrNext self.old item)) }
        ensures left { (images : List (List ℕ)) → AtExit D.Disk (book_phases self.old self.new) images
            → OfTwo (AreOldOrNext self.old item) images }
        ensures durable { OnOk result (IsLastingBook D.Disk self.new) }
    {
        // Its images hold the maps: this says so of each way out before the first write.
        let _broken = self.pair.is_broken();
        let Ok(body) = prepare(alloc, &mut self.pair, &mut self.catalog, &item) else {
            return Err(LogFault::Memory);
        };
        match self.pair.append(body.as_slice()) {
            Ok(_) => {}
            Err(fault) => return Err(fault),
        }
        self.catalog.take(item);
        Ok(())
    }

    /// Why a command is refused by name, if it is.
    pub fn refusal(&self, command: &Command) -> Option<ControlFault>
        ensures { result ≡ refusal_of self.now.maps command.now }
    {
        self.catalog.refusal(command)
    }

    /// The reply to a command that isn't refused.
    pub fn reply(&self, alloc: Global, command: &Command) -> Result<Reply, Memory>
        ensures { IfOk result (λ reply. reply ≡ reply_of self.now.maps command.now) }
    {
        self.catalog.reply(alloc, command)
    }

    /// Why a metric's document can't be added, if so.
    pub fn refuse_doc(&self, doc: &MetricDoc) -> Option<ControlFault>
        ensures { result ≡ doc_refusal self.now.maps doc.now }
    {
        self.catalog.refuse_doc(doc)
    }

    /// The identifier that is drawn next for a new metric of these words, and the metric's policy; or why the
    /// metric is refused.
    pub fn begun(
        &self,
        policy: &Option<Name>,
        name: &Option<Name>,
        resource: &Option<u128>,
    ) -> Result<(MetricId, Policy), ControlFault>
        ensures ok { IfOk result (λ drawn. IsAcceptedMetric self.now.maps policy.now name.now resource.now drawn.1
            × (self.now.maps.counter + 1 ≤ last_counter) × (drawn.0.0 ≡ id_of self.now.maps.number (self.now.maps.counter + 1))) }
        ensures err { IfErr result (λ e. RefusedCall (IsRefusedMetric self.now.maps policy.now name.now resource.now)
            (IsSpentFor self.now.maps policy.now name.now resource.now) (λ c. ⊥) e (IndexEntry.Look ∷ [])) }
    {
        self.catalog.begin(policy, name, resource)
    }

    /// The last counter drawn.
    pub fn counter(&self) -> u64
        ensures value { result ≡ self.now.maps.counter }
        ensures limit { result ≤ last_counter }
    {
        self.catalog.counter
    }

    /// How often both disks have failed, at most 2^64 - 1.
    pub fn faults(&self) -> u64
        ensures { result ≡ both_faults D.Disk self.now.first self.now.second }
    {
        self.pair.faults()
    }

    /// Whether a call has failed, so that the disks are to be mounted again.
    pub fn is_broken(&self) -> bool
        ensures value { result ≡ self.now.broken }
        ensures durable { self.now.broken ≡ false → IsLastingBook D.Disk self.now }
        ensures kept { AreKept self.now.maps }
    {
        let _kept = self.catalog.counter;
        self.pair.is_broken()
    }

    /// The disks, in the order in which they were handed in. They hold the maps unless it is broken.
    pub fn into_disks(self) -> (D, D)
        ensures disks { (result.0 ≡ self.first) × (result.1 ≡ self.second) }
        ensures held { self.broken ≡ false → TwoTold (D.told result.0) (D.told result.1) (HoldsIndex self.sacks self.maps) }
    {
        let Book { pair, catalog: _ } = self;
        pair.into_disks()
    }
}

impl<D: Fusible> Book<D> {
    /// Sets the fuse of the disk of this number, 0 or 1.
    pub fn fuse(&mut self, disk: u8, calls: u64)
        requires { disk < 2 }
        ensures set { D.fused (one_of (disk == 1) self.new.first self.new.second) ≡ Some calls }
        ensures still { other_of (disk == 1) self.new.first self.new.second ≡ other_of (disk == 1) self.old.first self.old.second }
        ensures same { self.new ≡ record self.old { first = self.new.first; second = self.new.second } }
    {
        self.pair.fuse(disk, calls);
    }

    /// How many calls of the disks have failed for want of memory, at most 2^64 - 1.
    pub fn starved(&self) -> u64
        ensures { result ≡ min (D.starved self.now.first + D.starved self.now.second) (2 ^ 64 - 1) }
    {
        self.pair.starved()
    }
}
