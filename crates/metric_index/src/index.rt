// The index.
ghost use Rattle.std.specs.Prelude.{◌≡◌, ◌∷◌, [], ⊤, List, Some, IfSome, IfOk, IfErr, IsSome, ◌+◌, ◌<◌, ◌==◌, is_some, not, false, true};
ghost use Rattle.gate_log.specs.LogView.{IsFault, MatchFault, MatchMountFault};
ghost use Rattle.gno_codec.specs.Index.{index_bytes};
ghost use Rattle.gno_codec.specs.declared.item.IndexItem.TheVariants as items;
ghost use Rattle.gno_disk.specs.Phases.{AreUnwritten, phase};
ghost use Rattle.log_pair.specs.Choice.{TwoTold};
ghost use Rattle.log_pair.specs.Pair.{one_of, other_of};
ghost use Rattle.log_pair.specs.PairView.{IsMaking, both_faults};
ghost use Rattle.front_api.specs.Calls.{AddsTo, AppliesTo, BeginsOn, IsAdded, IsApplied, IsBegun};
ghost use Rattle.front_api.specs.FaultWords.{is_control_damage};
ghost use Rattle.front_api.specs.Maps.{Maps, new_maps};
ghost use Rattle.front_api.specs.declared.history.IndexCounted.TheVariants as counted;
ghost use Rattle.front_api.specs.declared.history.IndexEntry.{IndexEntry};
ghost use Rattle.metric_index.specs.BookCalls.{MatchDisk, entry_by, written_by};
ghost use Rattle.metric_index.specs.IndexCalls.{BeginsBy, IsAddMetric, IsBegunBy};
ghost use Rattle.metric_index.specs.IndexDamage.{HoldsNoIndex, IsDamagedIndex};
ghost use Rattle.metric_index.specs.IndexLog.{HoldsIndex, index_place};
ghost use Rattle.metric_index.specs.IndexView.{AllCame, IsFaultOf, OfDisks, StandsAfter, StandsFor, capped, entries_of};

use crate::book::Book;
use crate::holding::{Held, put_back, take_book};
use archive_policy::{Name, Policy};
use front_api::{Command, ControlFault, MetricDoc, Reply};
use gno_disk::{Disk, Fusible};
use log_pair::{LogFault, MountFault};
use series_model::MetricId;
use std::alloc::Global;
use std::marker::Model;

/// The index: the book of policies, rules, metric documents and resources on two disks. After a fault of a disk,
/// or damage, its next call mounts it again first.
#[derive(Drop)]
pub struct Index<D: Disk> {
    alloc: Global,
    held: Option<Held<D>>,
    sacks: u16,
    entries: u64,
}

impl<D: Disk> Model for Index<D> {
    ghost use Rattle.metric_index.specs.IndexView.{IndexView};

    ghost Value = { IndexView D };

    ghost use Rattle.metric_index.specs.IndexInside.{KeepsIndex, index_view};

    ghost view = { index_view };

    ghost invariant = { KeepsIndex };
}

/// A fault of a mounting as a refusal.
fn refusal_of(fault: MountFault) -> ControlFault
    ensures { MatchMountFault fault (λ f. result ≡ ControlFault.DiskFault f) (λ d. result ≡ ControlFault.Damaged d) (result ≡ ControlFault.Memory) }
{
    match fault {
        MountFault::DiskFault(fault) => ControlFault::DiskFault(fault),
        MountFault::Damaged(damaged) => ControlFault::Damaged(damaged),
        MountFault::Memory => ControlFault::Memory,
    }
}

/// How many entries a call adds that mounted the book, or found it mounted.
fn entries_after(entries: u64, anew: bool) -> u64
    ensures { result ≡ capped (entries + entries_of anew) }
{
    if anew {
        entries.saturating_add(2)
    } else {
        entries.saturating_add(1)
    }
}

impl<D: Disk> Index<D> {
    /// The index of a new store of this number. It makes the second disk ready, and then the log on the first,
    /// with its first record at once. An `Err` hands the disks back; after `Memory` nothing was called on them.
    pub fn create(
        alloc: Global,
        a: D,
        b: D,
        sacks: u16,
        number: u32,
    ) -> Result<Index<D>, (D, D, LogFault)>
        ensures made { IfOk result (λ index. (index.sacks ≡ sacks) × (index.maps ≡ Some (new_maps number)) × (index.entries ≡ 0)) }
        ensures stands { IfOk result (λ index. is_some (D.told a) ≡ true → is_some (D.told b) ≡ true → StandsFor D.Disk (new_maps number) [] index) }

        // On disks of which no image has a log, a stop leaves no log or the whole one.
        ensures any_moment { IfOk result (λ index. OfDisks index.disks (IsMaking D.Disk (index_place sacks) (index_bytes (items.Store number 0) ∷ []) a b)) }
        ensures came { IfOk result (λ index. OfDisks index.disks (λ first second. D.came 9 a first × D.came 5 b second)) }

        ensures any_moment_err { IfErr result (λ e. IsMaking D.Disk (index_place sacks) (index_bytes (items.Store number 0) ∷ []) a b e.0 e.1) }
        ensures came_err { IfErr result (λ e. D.came 9 a e.0 × D.came 5 b e.1) }
        ensures cause { IfErr result (λ e. MatchFault e.2
            (IsFault (both_faults D.Disk a b) (both_faults D.Disk e.0 e.1)) ((e.0 ≡ a) × (e.1 ≡ b))) }
    {
        match Book::create(alloc, a, b, sacks, number) {
            Ok(book) => Ok(Index {
                alloc,
                held: Some(Held::Mounted(book)),
                sacks,
                entries: 0,
            }),
            Err((a, b, fault)) => Err((a, b, fault)),
        }
    }

    /// Syncs both disks and reads each record of the log that counts once, in order. It writes nothing. An
    /// `Err` hands the disks back.
    pub fn mount(alloc: Global, a: D, b: D, sacks: u16) -> Result<Index<D>, (D, D, MountFault)>
        ensures made { IfOk result (λ index. (index.sacks ≡ sacks) × (index.entries ≡ 0) × IsSome index.maps) }
        ensures held { IfOk result (λ index. IfSome index.maps (λ m. TwoTold (D.told a) (D.told b) (HoldsIndex sacks m))) }
        ensures exact { IfOk result (λ index. TwoTold (D.told a) (D.told b) (λ x y. (m : Maps) → HoldsIndex sacks m x y → index.maps ≡ Some m)) }
        ensures stands { IfOk result (λ index. is_some (D.told a) ≡ true → is_some (D.told b) ≡ true → IfSome index.maps (λ m. StandsFor D.Disk m [] index)) }
        ensures unwritten { IfOk result (λ index. OfDisks index.disks (λ first second. AreUnwritten D.Disk (phase a first ∷ phase b second ∷ []))) }
        ensures came { IfOk result (λ index. OfDisks index.disks (λ first second. D.came 2 a first × D.came 2 b second)) }

        ensures unwritten_err { IfErr result (λ e. AreUnwritten D.Disk (phase a e.0 ∷ phase b e.1 ∷ [])) }
        ensures came_err { IfErr result (λ e. D.came 2 a e.0 × D.came 2 b e.1) }
        ensures cause { IfErr result (λ e. MatchMountFault e.2
            (IsFault (both_faults D.Disk a b) (both_faults D.Disk e.0 e.1))
            (λ d. TwoTold (D.told a) (D.told b) (λ x y. IsDamagedIndex sacks x y d)) ⊤) }
        ensures never_held { IfErr result (λ e. MatchMountFault e.2 (λ _. ⊤)
            (λ _. TwoTold (D.told a) (D.told b) (HoldsNoIndex sacks)) ⊤) }
    {
        match Book::mount(alloc, a, b, sacks) {
            Ok(book) => Ok(Index {
                alloc,
                held: Some(Held::Mounted(book)),
                sacks,
                entries: 0,
            }),
            Err((a, b, fault)) => Err((a, b, fault)),
        }
    }

    /// Does what a command asks, every one but `AddMetric`, and answers it. A refused one changes nothing.
    pub fn apply(&mut self, command: &Command) -> Result<Reply, ControlFault>
        // By the maps, unless it is broken.
        ensures whole { IfSome self.old.maps (λ m. AppliesTo command.now m (entry_by (written_by command.now) result ∷ []) result) }

        // Where its disks tell their bytes: what it adds to its history, and what it stands for then.
        ensures stands { (first : Maps) (h : List IndexEntry) → StandsFor D.Disk first h self.old → StandsAfter D.Disk first h (λ m. written_by command.now) self.old self.new (λ own. IsApplied command.now first h own result) }
        ensures cause { IfErr result (λ e. MatchDisk e (IsFaultOf D.Disk self.old.disks self.new.disks) ⊤) }
        ensures sound { (first : Maps) (h : List IndexEntry) → StandsFor D.Disk first h self.old → IfErr result (λ e. is_control_damage e ≡ false) }
        ensures came { AllCame D.Disk 6 self.old.disks self.new.disks }
        ensures same { self.new.sacks ≡ self.old.sacks }
    {
        let taken = take_book(self.alloc, &mut self.held, self.sacks);
        let (mut book, anew) = match taken {
            Ok(taken) => taken,
            Err(fault) => {
                self.entries = self.entries.saturating_add(1);
                return Err(refusal_of(fault));
            }
        };
        let result = book.apply(self.alloc, command);
        put_back(&mut self.held, Held::Mounted(book));
        self.entries = entries_after(self.entries, anew);
        result
    }

    /// Draws an identifier for a new metric, and gives it with the metric's policy once it is on the disk. The
    /// command is `AddMetric`.
    pub fn begin_metric(&mut self, command: &Command) -> Result<(MetricId, Policy), ControlFault>
        requires { IsAddMetric command.now }
        ensures whole { IfSome self.old.maps (λ m. BeginsBy command.now m (entry_by (Some (counted.Draw (m.counter + 1))) result ∷ []) result) }
        ensures stands { (first : Maps) (h : List IndexEntry) → StandsFor D.Disk first h self.old → StandsAfter D.Disk first h (λ m. Some (counted.Draw (m.counter + 1))) self.old self.new (λ own. IsBegunBy command.now first h own result) }
        ensures cause { IfErr result (λ e. MatchDisk e (IsFaultOf D.Disk self.old.disks self.new.disks) ⊤) }
        ensures sound { (first : Maps) (h : List IndexEntry) → StandsFor D.Disk first h self.old → IfErr result (λ e. is_control_damage e ≡ false) }
        ensures came { AllCame D.Disk 6 self.old.disks self.new.disks }
        ensures same { self.new.sacks ≡ self.old.sacks }
    {
        match command {
            Command::AddMetric {
                policy,
                name,
                unit: _unit,
                resource,
            } => self.begin_of(policy, name, resource),
            _ => unreachable!(),
        }
    }

    /// The same by the words of the command.
    fn begin_of(
        &mut self,
        policy: &Option<Name>,
        name: &Option<Name>,
        resource: &Option<u128>,
    ) -> Result<(MetricId, Policy), ControlFault>
        ensures whole { IfSome self.old.maps (λ m. BeginsOn policy.now name.now resource.now m (entry_by (Some (counted.Draw (m.counter + 1))) result ∷ []) result) }
        ensures stands { (first : Maps) (h : List IndexEntry) → StandsFor D.Disk first h self.old → StandsAfter D.Disk first h (λ m. Some (counted.Draw (m.counter + 1))) self.old self.new (λ own. IsBegun policy.now name.now resource.now first h own result) }
        ensures cause { IfErr result (λ e. MatchDisk e (IsFaultOf D.Disk self.old.disks self.new.disks) ⊤) }
        ensures sound { (first : Maps) (h : List IndexEntry) → StandsFor D.Disk first h self.old → IfErr result (λ e. is_control_damage e ≡ false) }
        ensures came { AllCame D.Disk 6 self.old.disks self.new.disks }
        ensures same { self.new.sacks ≡ self.old.sacks }
    {
        let taken = take_book(self.alloc, &mut self.held, self.sacks);
        let (mut book, anew) = match taken {
            Ok(taken) => taken,
            Err(fault) => {
                self.entries = self.entries.saturating_add(1);
                return Err(refusal_of(fault));
            }
        };
        let result = book.begin(self.alloc, policy, name, resource);
        put_back(&mut self.held, Held::Mounted(book));
        self.entries = entries_after(self.entries, anew);
        result
    }

    /// Adds a metric under an identifier that was drawn. One with a resource has a name.
    pub fn add_metric(&mut self, doc: &MetricDoc) -> Result<(), ControlFault>
        requires { IsSome doc.now.resource → IsSome doc.now.name }
        ensures whole { IfSome self.old.maps (λ m. AddsTo doc.now m (entry_by (Some (counted.Add doc.now)) result ∷ []) result) }
        ensures stands { (first : Maps) (h : List IndexEntry) → StandsFor D.Disk first h self.old → StandsAfter D.Disk first h (λ m. Some (counted.Add doc.now)) self.old self.new (λ own. IsAdded doc.now first h own result) }
        ensures cause { IfErr result (λ e. MatchDisk e (IsFaultOf D.Disk self.old.disks self.new.disks) ⊤) }
        ensures sound { (first : Maps) (h : List IndexEntry) → StandsFor D.Disk first h self.old → IfErr result (λ e. is_control_damage e ≡ false) }
        ensures came { AllCame D.Disk 6 self.old.disks self.new.disks }
        ensures same { self.new.sacks ≡ self.old.sacks }
    {
        let taken = take_book(self.alloc, &mut self.held, self.sacks);
        let (mut book, anew) = match taken {
            Ok(taken) => taken,
            Err(fault) => {
                self.entries = self.entries.saturating_add(1);
                return Err(refusal_of(fault));
            }
        };
        let result = book.add(self.alloc, doc);
        put_back(&mut self.held, Held::Mounted(book));
        self.entries = entries_after(self.entries, anew);
        result
    }

    /// How many entries the calls since the opening have added to the history, at most 2^64 - 1.
    pub fn entries(&self) -> u64
        ensures { result ≡ self.now.entries }
    {
        self.entries
    }

    /// Whether its disks are to be mounted again, which the next call does first.
    pub fn is_broken(&self) -> bool
        ensures { is_some self.now.maps ≡ not result }
    {
        match &self.held {
            Some(Held::Mounted(book)) => book.is_broken(),
            _ => true,
        }
    }

    /// The disks, in the order in which they were handed in.
    pub fn into_disks(self) -> (D, D)
        ensures { self.disks ≡ result.0 ∷ result.1 ∷ [] }
    {
        let Index {
            alloc: _,
            held,
            sacks: _,
            entries: _,
        } = self;
        match held {
            Some(Held::Mounted(book)) => book.into_disks(),
            Some(Held::Apart(a, b)) => (a, b),
            None => unreachable!(),
        }
    }
}

impl<D: Fusible> Index<D> {
    /// Sets the fuse of the disk of this number, 0 or 1.
    pub fn fuse(&mut self, disk: u8, calls: u64)
        requires { disk < 2 }
        ensures set { OfDisks self.new.disks (λ a b. D.fused (one_of (disk == 1) a b) ≡ Some calls) }
        ensures still { OfDisks self.old.disks (λ a b. OfDisks self.new.disks (λ c d. other_of (disk == 1) c d ≡ other_of (disk == 1) a b)) }
        ensures same { self.new ≡ record self.old { disks = self.new.disks } }
    {
        match self.held.take() {
            Some(Held::Mounted(mut book)) => {
                book.fuse(disk, calls);
                put_back(&mut self.held, Held::Mounted(book));
            }
            Some(Held::Apart(mut a, mut b)) => {
                if disk == 1 {
                    b.fuse(calls);
                } else {
                    a.fuse(calls);
                }
                put_back(&mut self.held, Held::Apart(a, b));
            }
            None => unreachable!(),
        }
    }

    /// How many calls of the disks have failed for want of memory, at most 2^64 - 1.
    pub fn starved(&self) -> u64
        ensures { OfDisks self.now.disks (λ a b. result ≡ capped (D.starved a + D.starved b)) }
    {
        match &self.held {
            Some(Held::Mounted(book)) => book.starved(),
            Some(Held::Apart(a, b)) => a.starved().saturating_add(b.starved()),
            None => unreachable!(),
        }
    }
}
