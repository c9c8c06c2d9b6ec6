// The sack.
ghost use Rattle.std.specs.Prelude.{◌≡◌, ◌≢◌, ◌⊎◌, ◌+◌, ◌||◌, ◌++◌, [], ◌∷◌, List, Some, None, IfOk, IfErr, length, map, option_map, if◌then◌else◌, false, true, ⊤};
ghost use Rattle.gate_log.specs.LogView.{MatchMountFault};
ghost use Rattle.sack_history.specs.declared.entry.Counted.{Counted};
ghost use Rattle.sack_history.specs.declared.entry.Counted.TheVariants as counted;
ghost use Rattle.sack_history.specs.declared.entry.Entry.{Entry};
ghost use Rattle.sack_history.specs.declared.entry.Entry.TheVariants as entries;
ghost use Rattle.sack_history.specs.Calls.{IsAnswering, IsClaiming, IsCommitting, IsCreating, IsDraining, IsDropping, IsPosting, IsRefreshing, IsReleasing};
ghost use Rattle.sack_history.specs.Entries.{all_counted, kept};
ghost use Rattle.sack_history.specs.Holding.{held_after, holder_of, is_broken};
ghost use Rattle.sack_history.specs.Lives.{live_ids, next_post, pending_posts};
ghost use Rattle.sack_history.specs.Turns.{drain_turns, refresh_turns};
ghost use Rattle.sack_state.specs.Books.{AreMaking, IsUnmade, IsUnmounted};
ghost use Rattle.sack_state.specs.Claiming.{KeepsNone, claim_given, tickets_given};
ghost use Rattle.sack_state.specs.Committing.{CameByCommit, entries_of_turns};
ghost use Rattle.sack_state.specs.Disks.{CameWithin, IsSackFault, OnIncoming, OnShelfLog, TellAll, sack_phases};
ghost use Rattle.sack_state.specs.SackCalls.{HandsBack, HasTicketOf, MatchAnswerOnDisk, MatchCommitOnDisk, MatchCreateOnDisk, MatchOnDisk, entries_of_call};
ghost use Rattle.sack_state.specs.SackTurns.{StandsAfterTurns};
ghost use Rattle.sack_state.specs.SackView.{IsEarlier, Of, OfBoth, StandsAfter, StandsFor, capped, marks_waiting};
ghost use Rattle.gno_disk.specs.Phases.{AreUnwritten};

use crate::answering::answering_fault;
use crate::books::{make_books, mount_books};
use crate::claiming::is_holder;
use crate::committing::committing_fault;
use crate::disks::{Opening, SackDisks};
use crate::holding::{Keeping, Remains, put_back, take_books};
use archive_policy::Policy;
use bound_series::Prepared;
use gno_disk::Disk;
use log_pair::{LogFault, MountFault, Place};
use sack_history::{
    AnswerFault, Claim, CommitFault, CreateFault, HeldClaim, ReleaseFault, SackFault,
};
use series_model::{Answer, Batch, MetricId, Query, Ticket};
use split_update::turn_is_from_scratch;
use std::alloc::Global;
use std::marker::Model;
use std::snapshot::Snapshot;

/// A sack: posts in its incoming log, and live metrics with what is kept of them on its shelf. After a fault of a disk,
/// or damage, its next call mounts it again first.
#[derive(Drop)]
pub struct Sack<D: Disk> {
    alloc: Global,
    keeping: Option<Keeping<D>>,
    place: Place,
    opened: Snapshot<Opening<D>>,
    claim: Option<HeldClaim>,
    tickets: u64,
    entries: u64,
}

impl<D: Disk> Model for Sack<D> {
    ghost use Rattle.sack_state.specs.SackView.{SackView};

    ghost Value = { SackView D };

    ghost use Rattle.sack_state.specs.Inside.{KeepsSack, sack_view};

    ghost view = { sack_view };

    ghost invariant = { KeepsSack };
}

/// A fault of a mounting as a refusal.
fn refusal_of(fault: MountFault) -> SackFault
    ensures { MatchMountFault fault (λ f. result ≡ SackFault.DiskFault f) (λ d. result ≡ SackFault.Damaged d) (result ≡ SackFault.Memory) }
{
    match fault {
        MountFault::DiskFault(fault) => SackFault::DiskFault(fault),
        MountFault::Damaged(damaged) => SackFault::Damaged(damaged),
        MountFault::Memory => SackFault::Memory,
    }
}

/// A fault of a mounting as a refusal of a creating.
fn creating_refusal_of(fault: MountFault) -> CreateFault
    ensures { MatchMountFault fault (λ f. result ≡ CreateFault.DiskFault f) (λ d. result ≡ CreateFault.Damaged d) (result ≡ CreateFault.Memory) }
{
    match fault {
        MountFault::DiskFault(fault) => CreateFault::DiskFault(fault),
        MountFault::Damaged(damaged) => CreateFault::Damaged(damaged),
        MountFault::Memory => CreateFault::Memory,
    }
}

/// How many entries there are after a call of one entry that mounted the books, or found them mounted.
fn entries_after(entries: u64, anew: bool) -> u64
    ensures { result ≡ capped (entries + entries_of_call anew) }
{
    if anew {
        entries.saturating_add(2)
    } else {
        entries.saturating_add(1)
    }
}

/// How many entries there are after a call that took so many turns, and was refused behind them or not.
fn entries_after_turns(entries: u64, anew: bool, turns: u64, ok: bool) -> u64
    ensures { result ≡ capped (entries + ((if anew then 1 else 0) + entries_of_turns turns ok)) }
{
    let own = if turns == 0 {
        1
    } else if ok {
        turns
    } else {
        turns.saturating_add(1)
    };
    let mounting = if anew { 1 } else { 0 };
    entries.saturating_add(mounting).saturating_add(own)
}

/// The claim that is still held: none where the books were mounted anew, or have broken.
fn claim_left(claim: Option<HeldClaim>, anew: bool, broken: bool) -> Option<HeldClaim>
    ensures { result ≡ (if anew || broken then None else claim) }
{
    if anew || broken { None } else { claim }
}

/// The claim that is still held: none where its metric was dropped.
fn claim_without(claim: Option<HeldClaim>, metric: MetricId, dropped: bool) -> Option<HeldClaim>
    ensures { result ≡ (if dropped then held_after claim (entries.Counted (counted.Drop metric)) else claim) }
{
    match claim {
        Some(held) if dropped && metric.0 == held.metric.0 => None,
        _ => claim,
    }
}

/// The claim that is held after a claim with this answer.
fn claim_given(held: Option<HeldClaim>, given: &Result<Claim, SackFault>) -> Option<HeldClaim>
    ensures { result ≡ claim_given held given.now }
{
    match given {
        Ok(Claim::Job(job)) => Some(HeldClaim {
            ticket: job.ticket(),
            metric: job.metric(),
            upto: job.upto(),
        }),
        _ => held,
    }
}

/// The number of the last ticket after a claim with this answer.
fn tickets_given(tickets: u64, given: &Result<Claim, SackFault>) -> u64
    ensures { result ≡ tickets_given tickets given.now }
{
    match given {
        Ok(Claim::Job(job)) => job.ticket().number,
        _ => tickets,
    }
}

impl<D: Disk> Sack<D> {
    /// The sack of no posts and no metrics. It makes the incoming log, and then the shelf. An `Err` hands the disks back.
    pub fn create(
        alloc: Global,
        disks: SackDisks<D>,
        place: Place,
    ) -> Result<Sack<D>, (SackDisks<D>, LogFault)>
        ensures made { IfOk result (λ sack. (sack.place ≡ place) × (sack.opening ≡ record { disks = disks; is_new = true }) × (sack.entries ≡ 0)) }
        ensures free { IfOk result (λ sack. (sack.held ≡ None) × (sack.tickets ≡ 0)) }

        // It stands for no entries, and nothing counted before it.
        ensures stands { IfOk result (λ sack. TellAll D.Disk disks → StandsFor D.Disk [] sack) }

        // On disks of which no image has a log, a stop leaves no log or an empty one.
        ensures any_moment { IfOk result (λ sack. Of sack (λ s. AreMaking D.Disk place disks s.disks)) }
        ensures came { IfOk result (λ sack. Of sack (λ s. CameWithin D.Disk 9 9 1 disks s.disks)) }
        ensures err { IfErr result (λ e. IsUnmade D.Disk place disks e.0 e.1) }
    {
        let opening = Opening {
            disks,
            is_new: true,
        };
        let opened = Snapshot::of(&opening);
        let Opening { disks, is_new: _ } = opening;
        match make_books(alloc, disks, place) {
            Ok(books) => Ok(Sack {
                alloc,
                keeping: Some(Keeping::Mounted(books)),
                place,
                opened,
                claim: None,
                tickets: 0,
                entries: 0,
            }),
            Err((disks, fault)) => Err((disks, fault)),
        }
    }

    /// Mounts the incoming log, and then the shelf. It writes nothing. No claim is held then. An `Err` hands the disks
    /// back.
    pub fn mount(
        alloc: Global,
        disks: SackDisks<D>,
        place: Place,
    ) -> Result<Sack<D>, (SackDisks<D>, MountFault)>
        ensures made { IfOk result (λ sack. (sack.place ≡ place) × (sack.opening ≡ record { disks = disks; is_new = false }) × (sack.entries ≡ 0)) }
        ensures free { IfOk result (λ sack. (sack.held ≡ None) × (sack.tickets ≡ 0)) }

        // It stands for no entries, behind whatever the disks held.
        ensures stands { IfOk result (StandsFor D.Disk []) }
        ensures unwritten { IfOk result (λ sack. Of sack (λ s. AreUnwritten D.Disk (sack_phases disks s.disks))) }
        ensures came { IfOk result (λ sack. Of sack (λ s. CameWithin D.Disk 2 2 1 disks s.disks)) }

        // Faults of disks and damage have their causes, and nothing was written.
        ensures err { IfErr result (λ e. IsUnmounted D.Disk place disks e.0 e.1) }
    {
        let opening = Opening {
            disks,
            is_new: false,
        };
        let opened = Snapshot::of(&opening);
        let Opening { disks, is_new: _ } = opening;
        match mount_books(alloc, disks, place) {
            Ok(books) => Ok(Sack {
                alloc,
                keeping: Some(Keeping::Mounted(books)),
                place,
                opened,
                claim: None,
                tickets: 0,
                entries: 0,
            }),
            Err((disks, fault)) => Err((disks, fault)),
        }
    }

    /// A metric that isn't live is live from now on, with this policy. It starts empty: earlier posts to it don't count.
    /// All memory is taken before the first write.
    pub fn create_metric(&mut self, metric: MetricId, policy: &Policy) -> Result<(), CreateFault>
        // By its history: what it answers and adds, what it stands for then, and what a stop leaves at any moment.
        ensures stands { (h : List Entry) → StandsFor D.Disk h self.old → StandsAfter D.Disk h
            (λ counts. Some (counted.Create metric policy.now)) self.old self.new (IsCreating metric policy.now result) }
        ensures same { (self.new.place ≡ self.old.place) × (self.new.opening ≡ self.old.opening) × (self.new.tickets ≡ self.old.tickets) }
        ensures cause { IfErr result (λ e. MatchCreateOnDisk e (λ f. OfBoth self.old self.new (λ s t. IsSackFault D.Disk s.disks t.disks f)) (Of self.old (λ s. s.broken ≡ true))) }
        ensures sound { (earlier : List Counted) (h : List Entry) → StandsFor D.Disk h self.old → IsEarlier D.Disk self.old.place self.old.opening earlier
            → IfErr result (λ e. MatchCreateOnDisk e (λ f. ⊤) ⊥) }
        ensures came { OfBoth self.old self.new (λ s t. CameWithin D.Disk 2 6 1 s.disks t.disks) }
        ensures uses { OfBoth self.old self.new (λ s t. s.broken ≡ false → OnShelfLog D.Disk 4 s.disks t.disks) }
    {
        let taken = take_books(self.alloc, &mut self.keeping, self.place);
        let (mut books, anew) = match taken {
            Ok(taken) => taken,
            Err(fault) => {
                self.entries = self.entries.saturating_add(1);
                return Err(creating_refusal_of(fault));
            }
        };
        let result = books.create_metric(self.alloc, metric, policy);
        self.claim = claim_left(self.claim, anew, books.is_broken());
        put_back(&mut self.keeping, Keeping::Mounted(books));
        self.entries = entries_after(self.entries, anew);
        result
    }

    /// A live metric is live no longer, and a claim of it ends. All memory is taken before the first write.
    pub fn drop_metric(&mut self, metric: MetricId) -> Result<(), SackFault>
        // By its history: what it answers and adds, what it stands for then, and what a stop leaves at any moment.
        ensures stands { (h : List Entry) → StandsFor D.Disk h self.old → StandsAfter D.Disk h
            (λ counts. Some (counted.Drop metric)) self.old self.new (IsDropping metric result) }
        ensures same { (self.new.place ≡ self.old.place) × (self.new.opening ≡ self.old.opening) × (self.new.tickets ≡ self.old.tickets) }
        ensures cause { IfErr result (λ e. MatchOnDisk e (λ f. OfBoth self.old self.new (λ s t. IsSackFault D.Disk s.disks t.disks f)) (Of self.old (λ s. s.broken ≡ true))) }
        ensures sound { (earlier : List Counted) (h : List Entry) → StandsFor D.Disk h self.old → IsEarlier D.Disk self.old.place self.old.opening earlier
            → IfErr result (λ e. MatchOnDisk e (λ f. ⊤) ⊥) }
        ensures came { OfBoth self.old self.new (λ s t. CameWithin D.Disk 2 6 1 s.disks t.disks) }
        ensures uses { OfBoth self.old self.new (λ s t. s.broken ≡ false → OnShelfLog D.Disk 4 s.disks t.disks) }
    {
        let taken = take_books(self.alloc, &mut self.keeping, self.place);
        let (mut books, anew) = match taken {
            Ok(taken) => taken,
            Err(fault) => {
                self.entries = self.entries.saturating_add(1);
                return Err(refusal_of(fault));
            }
        };
        let result = books.drop_metric(self.alloc, metric);
        let left = claim_without(self.claim, metric, result.is_ok());
        self.claim = claim_left(left, anew, books.is_broken());
        put_back(&mut self.keeping, Keeping::Mounted(books));
        self.entries = entries_after(self.entries, anew);
        result
    }

    /// Adds a batch to the posts of a live metric, and answers its number. All memory is taken before the first write.
    pub fn post(&mut self, metric: MetricId, batch: &Batch) -> Result<u64, SackFault>
        // By its history: what it answers and adds, what it stands for then, and what a stop leaves at any moment.
        ensures stands { (h : List Entry) → StandsFor D.Disk h self.old → StandsAfter D.Disk h
            (λ counts. Some (counted.Post (next_post counts) metric batch.now)) self.old self.new (IsPosting metric batch.now result) }
        ensures same { (self.new.place ≡ self.old.place) × (self.new.opening ≡ self.old.opening) × (self.new.tickets ≡ self.old.tickets) }
        ensures cause { IfErr result (λ e. MatchOnDisk e (λ f. OfBoth self.old self.new (λ s t. IsSackFault D.Disk s.disks t.disks f)) (Of self.old (λ s. s.broken ≡ true))) }
        ensures sound { (earlier : List Counted) (h : List Entry) → StandsFor D.Disk h self.old → IsEarlier D.Disk self.old.place self.old.opening earlier
            → IfErr result (λ e. MatchOnDisk e (λ f. ⊤) ⊥) }
        ensures came { OfBoth self.old self.new (λ s t. CameWithin D.Disk 6 2 1 s.disks t.disks) }
        ensures uses { OfBoth self.old self.new (λ s t. s.broken ≡ false → OnIncoming D.Disk 4 s.disks t.disks) }
    {
        let taken = take_books(self.alloc, &mut self.keeping, self.place);
        let (mut books, anew) = match taken {
            Ok(taken) => taken,
            Err(fault) => {
                self.entries = self.entries.saturating_add(1);
                return Err(refusal_of(fault));
            }
        };
        let result = books.post(metric, batch);
        self.claim = claim_left(self.claim, anew, books.is_broken());
        put_back(&mut self.keeping, Keeping::Mounted(books));
        self.entries = entries_after(self.entries, anew);
        result
    }

    /// Work on the metric whose post has waited longest, unless a claim is held: its first 64 posts that wait, or all where
    /// there are fewer. It never answers `Unknown`. It writes nothing.
    pub fn claim(&mut self) -> Result<Claim, SackFault>
        // By its history: what it answers and adds, what it stands for then, and what a stop leaves at any moment.
        ensures stands { (h : List Entry) → StandsFor D.Disk h self.old → StandsAfter D.Disk h (λ _. None) self.old self.new (IsClaiming self.old.place.sack result) }
        ensures same { (self.new.place ≡ self.old.place) × (self.new.opening ≡ self.old.opening) }
        ensures known { IfErr result (λ e. e ≢ SackFault.Unknown) }
        ensures of_place { IfOk result (HasTicketOf self.old.place.sack) }
        ensures cause { IfErr result (λ e. MatchOnDisk e (λ f. OfBoth self.old self.new (λ s t. IsSackFault D.Disk s.disks t.disks f)) (Of self.old (λ s. (s.broken ≡ true) ⊎ KeepsNone D.Disk s.books))) }
        ensures sound { (earlier : List Counted) (h : List Entry) → StandsFor D.Disk h self.old → IsEarlier D.Disk self.old.place self.old.opening earlier
            → IfErr result (λ e. MatchOnDisk e (λ f. ⊤) ⊥) }
        ensures came { OfBoth self.old self.new (λ s t. CameWithin D.Disk 2 2 1 s.disks t.disks) }
        ensures reads { OfBoth self.old self.new (λ s t. AreUnwritten D.Disk (sack_phases s.disks t.disks)) }
    {
        let taken = take_books(self.alloc, &mut self.keeping, self.place);
        let (mut books, anew) = match taken {
            Ok(taken) => taken,
            Err(fault) => {
                self.entries = self.entries.saturating_add(1);
                return Err(refusal_of(fault));
            }
        };
        let held = claim_left(self.claim, anew, false);
        let result = books.claim(self.alloc, held, self.place.sack, self.tickets);
        self.claim = claim_left(claim_given(held, &result), false, books.is_broken());
        self.tickets = tickets_given(self.tickets, &result);
        put_back(&mut self.keeping, Keeping::Mounted(books));
        self.entries = entries_after(self.entries, anew);
        result
    }

    /// Commits prepared work, if it is that of the held claim, which has ended then, and answers the metric's done number. All
    /// memory is taken before the first write. Where there was none, or the work is another, it is handed back.
    pub fn commit(&mut self, prepared: Prepared) -> Result<u64, CommitFault>
        // By its history: what it answers and adds, what it stands for then, and what a stop leaves at any moment.
        ensures stands { (h : List Entry) → StandsFor D.Disk h self.old → StandsAfter D.Disk h
            (λ counts. Some (counted.Done prepared.job.metric prepared.job.upto)) self.old self.new (IsCommitting prepared result) }
        ensures same { (self.new.place ≡ self.old.place) × (self.new.opening ≡ self.old.opening) × (self.new.tickets ≡ self.old.tickets) }
        ensures back { IfErr result (HandsBack prepared) }
        ensures cause { IfErr result (λ e. MatchCommitOnDisk e (λ f. OfBoth self.old self.new (λ s t. IsSackFault D.Disk s.disks t.disks f)) (Of self.old (λ s. (s.broken ≡ true) ⊎ KeepsNone D.Disk s.books))) }
        ensures sound { (earlier : List Counted) (h : List Entry) → StandsFor D.Disk h self.old → IsEarlier D.Disk self.old.place self.old.opening earlier
            → IfErr result (λ e. MatchCommitOnDisk e (λ f. ⊤) ⊥) }
        ensures came { OfBoth self.old self.new (λ s t. CameByCommit D.Disk prepared s.disks t.disks) }
    {
        // What a turn leaves is from scratch: this says so.
        turn_is_from_scratch();
        let taken = take_books(self.alloc, &mut self.keeping, self.place);
        let (mut books, anew) = match taken {
            Ok(taken) => taken,
            Err(fault) => {
                self.entries = self.entries.saturating_add(1);
                return Err(committing_fault(refusal_of(fault), prepared));
            }
        };
        let held = claim_left(self.claim, anew, false);
        let result = books.commit(self.alloc, held, prepared);
        self.claim = claim_left(held, result.is_ok(), books.is_broken());
        put_back(&mut self.keeping, Keeping::Mounted(books));
        self.entries = entries_after(self.entries, anew);
        result
    }

    /// Processes all posts of a live metric, at most 64 in a turn, and answers its done number. A claim of the metric has
    /// ended then. After a refusal the turns that were taken stay.
    pub fn refresh(&mut self, metric: MetricId) -> Result<u64, SackFault>
        // By its history: what it answers and adds, what it stands for then, and what a stop leaves at any moment.
        ensures stands { (h : List Entry) → StandsFor D.Disk h self.old → StandsAfterTurns D.Disk h (refresh_turns metric) self.old self.new (IsRefreshing metric result) }
        ensures same { (self.new.place ≡ self.old.place) × (self.new.opening ≡ self.old.opening) × (self.new.tickets ≡ self.old.tickets) }
        ensures cause { IfErr result (λ e. MatchOnDisk e (λ f. OfBoth self.old self.new (λ s t. IsSackFault D.Disk s.disks t.disks f)) ⊤) }
        ensures sound { (earlier : List Counted) (h : List Entry) → StandsFor D.Disk h self.old → IsEarlier D.Disk self.old.place self.old.opening earlier
            → IfErr result (λ e. MatchOnDisk e (λ f. ⊤) ⊥) }
    {
        // What a turn leaves is from scratch: this says so.
        turn_is_from_scratch();
        let taken = take_books(self.alloc, &mut self.keeping, self.place);
        let (mut books, anew) = match taken {
            Ok(taken) => taken,
            Err(fault) => {
                self.entries = self.entries.saturating_add(1);
                return Err(refusal_of(fault));
            }
        };
        let held = claim_left(self.claim, anew, false);
        let turned = books.refresh(self.alloc, metric, held);
        self.claim = claim_left(turned.held, false, books.is_broken());
        put_back(&mut self.keeping, Keeping::Mounted(books));
        self.entries = entries_after_turns(self.entries, anew, turned.turns, turned.result.is_ok());
        turned.result
    }

    /// Processes all posts of all live metrics, always those of the metric whose post has waited longest, at most 64 in a
    /// turn, and answers the number of turns. A claim has ended then. It never answers `Unknown`. After a refusal the turns
    /// that were taken stay.
    pub fn drain(&mut self) -> Result<u64, SackFault>
        // By its history: what it answers and adds, what it stands for then, and what a stop leaves at any moment.
        ensures stands { (h : List Entry) → StandsFor D.Disk h self.old → StandsAfterTurns D.Disk h drain_turns self.old self.new (IsDraining result) }
        ensures same { (self.new.place ≡ self.old.place) × (self.new.opening ≡ self.old.opening) × (self.new.tickets ≡ self.old.tickets) }
        ensures known { IfErr result (λ e. e ≢ SackFault.Unknown) }
        ensures cause { IfErr result (λ e. MatchOnDisk e (λ f. OfBoth self.old self.new (λ s t. IsSackFault D.Disk s.disks t.disks f)) ⊤) }
        ensures sound { (earlier : List Counted) (h : List Entry) → StandsFor D.Disk h self.old → IsEarlier D.Disk self.old.place self.old.opening earlier
            → IfErr result (λ e. MatchOnDisk e (λ f. ⊤) ⊥) }
    {
        // What a turn leaves is from scratch: this says so.
        turn_is_from_scratch();
        let taken = take_books(self.alloc, &mut self.keeping, self.place);
        let (mut books, anew) = match taken {
            Ok(taken) => taken,
            Err(fault) => {
                self.entries = self.entries.saturating_add(1);
                return Err(refusal_of(fault));
            }
        };
        let held = claim_left(self.claim, anew, false);
        let turned = books.drain(self.alloc, held);
        self.claim = claim_left(turned.held, false, books.is_broken());
        put_back(&mut self.keeping, Keeping::Mounted(books));
        self.entries = entries_after_turns(self.entries, anew, turned.turns, turned.result.is_ok());
        turned.result
    }

    /// The rows that a query of a live metric asks for. It writes nothing.
    pub fn answer(&mut self, metric: MetricId, query: &Query) -> Result<Answer, AnswerFault>
        // By its history: what it answers and adds, what it stands for then, and what a stop leaves at any moment.
        ensures stands { (h : List Entry) → StandsFor D.Disk h self.old → StandsAfter D.Disk h (λ _. None) self.old self.new (IsAnswering metric query.now result) }
        ensures same { (self.new.place ≡ self.old.place) × (self.new.opening ≡ self.old.opening) × (self.new.tickets ≡ self.old.tickets) }
        ensures cause { IfErr result (λ e. MatchAnswerOnDisk e (λ f. OfBoth self.old self.new (λ s t. IsSackFault D.Disk s.disks t.disks f)) (Of self.old (λ s. (s.broken ≡ true) ⊎ KeepsNone D.Disk s.books))) }
        ensures sound { (earlier : List Counted) (h : List Entry) → StandsFor D.Disk h self.old → IsEarlier D.Disk self.old.place self.old.opening earlier
            → IfErr result (λ e. MatchAnswerOnDisk e (λ f. ⊤) ⊥) }
        ensures came { OfBoth self.old self.new (λ s t. CameWithin D.Disk 2 2 1 s.disks t.disks) }
        ensures reads { OfBoth self.old self.new (λ s t. AreUnwritten D.Disk (sack_phases s.disks t.disks)) }
    {
        let taken = take_books(self.alloc, &mut self.keeping, self.place);
        let (mut books, anew) = match taken {
            Ok(taken) => taken,
            Err(fault) => {
                self.entries = self.entries.saturating_add(1);
                return Err(answering_fault(refusal_of(fault)));
            }
        };
        let result = books.answer(self.alloc, metric, query);
        self.claim = claim_left(self.claim, anew, books.is_broken());
        put_back(&mut self.keeping, Keeping::Mounted(books));
        self.entries = entries_after(self.entries, anew);
        result
    }

    /// Gives a claim back. A sack that is broken holds none, and isn't mounted. It takes no memory.
    pub fn release(&mut self, ticket: Ticket) -> Result<(), ReleaseFault>
        // By its history: what it answers and adds, what it stands for then, and what a stop leaves at any moment.
        ensures stands { (h : List Entry) → StandsFor D.Disk h self.old → StandsAfter D.Disk h (λ _. None) self.old self.new (IsReleasing ticket result) }
        ensures same { (self.new.place ≡ self.old.place) × (self.new.opening ≡ self.old.opening) × (self.new.tickets ≡ self.old.tickets) }

        // Its disks and its books stand still.
        ensures still { self.new.state ≡ self.old.state }
    {
        self.entries = self.entries.saturating_add(1);
        if is_holder(ticket, self.claim) {
            self.claim = None;
            return Ok(());
        }
        Err(ReleaseFault::NotHolder {
            given: ticket,
            holder: self.holder(),
        })
    }

    /// The ticket of the claim that is held.
    pub fn holder(&self) -> Option<Ticket>
        ensures value { result ≡ option_map (λ claim. claim.ticket) self.now.held }
        ensures by_history { (earlier : List Counted) (h : List Entry) → StandsFor D.Disk h self.now → IsEarlier D.Disk self.now.place self.now.opening earlier
            → result ≡ holder_of (all_counted earlier ++ h) }
    {
        match &self.claim {
            Some(claim) => Some(claim.ticket),
            None => None,
        }
    }

    /// The live metrics, by rising identifier.
    pub fn metrics(&self) -> &[MetricId]
        ensures value { Of self.now (λ s. result.now ≡ map (λ m. m.id) s.books.shelf.metrics) }
        ensures by_history { (earlier : List Counted) (h : List Entry) → StandsFor D.Disk h self.now → IsEarlier D.Disk self.now.place self.now.opening earlier
            → result.now ≡ live_ids (kept (all_counted earlier ++ h)) }
    {
        match &self.keeping {
            Some(Keeping::Mounted(books)) => books.shelf.metrics(),
            Some(Keeping::Apart(remains)) => remains.metrics.as_slice(),
            None => unreachable!(),
        }
    }

    /// How many metrics are live.
    pub fn live(&self) -> u64
        ensures by_history { (earlier : List Counted) (h : List Entry) → StandsFor D.Disk h self.now → IsEarlier D.Disk self.now.place self.now.opening earlier
            → result ≡ length (live_ids (kept (all_counted earlier ++ h))) }
    {
        self.metrics().len() as u64
    }

    /// How many posts of live metrics wait to be processed.
    pub fn pending(&self) -> u64
        ensures value { Of self.now (λ s. result ≡ length (marks_waiting s.books)) }
        ensures by_history { (earlier : List Counted) (h : List Entry) → StandsFor D.Disk h self.now → IsEarlier D.Disk self.now.place self.now.opening earlier
            → result ≡ length (pending_posts (kept (all_counted earlier ++ h))) }
    {
        match &self.keeping {
            Some(Keeping::Mounted(books)) => books.pending(),
            Some(Keeping::Apart(remains)) => remains.pending,
            None => unreachable!(),
        }
    }

    /// How many entries the calls since the opening have added to the history, at most 2^64 - 1.
    pub fn entries(&self) -> u64
        ensures { result ≡ self.now.entries }
    {
        self.entries
    }

    /// Whether its disks are to be mounted again, which the next call does first.
    pub fn is_broken(&self) -> bool
        ensures value { Of self.now (λ s. result ≡ s.broken) }
        ensures by_history { (earlier : List Counted) (h : List Entry) → StandsFor D.Disk h self.now → IsEarlier D.Disk self.now.place self.now.opening earlier
            → result ≡ is_broken (all_counted earlier ++ h) }
    {
        match &self.keeping {
            Some(Keeping::Mounted(books)) => books.is_broken(),
            _ => true,
        }
    }

    /// Its disks, as they were handed in.
    pub fn into_disks(self) -> SackDisks<D>
        ensures { Of self (λ s. result ≡ s.disks) }
    {
        let Sack {
            alloc: _,
            keeping,
            place: _,
            opened: _,
            claim: _,
            tickets: _,
            entries: _,
        } = self;
        match keeping {
            Some(Keeping::Mounted(books)) => books.into_disks(),
            Some(Keeping::Apart(remains)) => {
                let Remains {
                    disks,
                    metrics: _,
                    pending: _,
                    books: _,
                } = remains;
                disks
            }
            None => unreachable!(),
        }
    }
}
