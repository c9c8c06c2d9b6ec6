// The posts of a sack that wait for their turn.
ghost use Rattle.std.specs.Prelude.{◌≡◌, ◌⊎◌, ◌+◌, ◌<◌, ◌≤◌, ◌↔◌, ◌==◌, ◌&&◌, ◌^◌, ⊤, ℕ, List, Some, None, Err, [], ◌∷◌, ◌++◌, IfOk, IfErr, IfSome, OnOk, OnErr, is_some, min, map, take, length, slice_get, false, true, ◌-◌};
ghost use Rattle.gno_disk.specs.Phases.{AtExit, AreUnwritten, EachMoment, phase};
ghost use Rattle.gate_log.specs.LogView.{IsFault, MatchFault, MatchMountFault};
ghost use Rattle.log_pair.specs.Choice.{TwoTold};
ghost use Rattle.log_pair.specs.Pair.{one_of, other_of};
ghost use Rattle.log_pair.specs.PairView.{IsMaking, OfTwo, both_faults};
ghost use Rattle.incoming.specs.Damage.{HoldsNoIncoming, IsDamagedIncoming};
ghost use Rattle.incoming.specs.IncomingView.{AddsPost, AreOfIncoming, AreOldOrPosted, IsLastingIncoming, MatchPostFault, incoming_phases};
ghost use Rattle.incoming.specs.Posts.{HoldsIncoming, Post, RiseFrom, incoming_place, last_number, marks_of, numbers_above, posts_above};
ghost use Rattle.incoming.specs.Reading.{answer_of};

use crate::contents::Contents;
use crate::load::load;
use crate::posting::prepare;
use crate::reading::{is_damage, read_above, since};
use crate::{Mark, PostFault};
use gno_disk::{Disk, Fusible};
use gno_num::{Counter, Spent};
use log_pair::{LogFault, LogPair, MountFault, Place};
use series_model::{Batch, MetricId};
use std::alloc::Global;
use std::marker::Model;

/// Numbered posts on a pair of logs. After a fault of a disk, or damage that a read found, it is broken,
/// and its disks are to be mounted again.
#[derive(Drop)]
pub struct Incoming<D: Disk> {
    pair: LogPair<D>,
    contents: Contents,
    damaged: bool,
}

impl<D: Disk> Model for Incoming<D> {
    ghost use Rattle.incoming.specs.IncomingView.{IncomingView};

    ghost Value = { IncomingView D };

    ghost use Rattle.incoming.specs.Inside.{incoming_view, KeepsIncoming};

    ghost view = { incoming_view };

    ghost invariant = { KeepsIncoming };
}

/// The role of an incoming log.
const INCOMING: u8 = 2;

/// The number that no post can have.
const SPENT: u64 = 0x8000_0000_0000_0000;

fn place_of(place: Place) -> Place
    ensures { result ≡ incoming_place place }
{
    Place {
        role: INCOMING,
        sack: place.sack,
        sacks: place.sacks,
    }
}

/// How often two disks have failed.
fn both_faults<D: Disk>(a: &D, b: &D) -> u64
    ensures { result ≡ both_faults D.Disk a.now b.now }
{
    a.faults().saturating_add(b.faults())
}

impl<D: Disk> Incoming<D> {
    /// An incoming log without posts, whose role is 2, whatever role the place has. It makes the second
    /// disk ready, and then the log on the first. An `Err` hands the disks back; after `Memory` nothing
    /// was called on them.
    pub fn create(alloc: Global, a: D, b: D, place: Place) -> Result<Incoming<D>, (D, D, LogFault)>
        ensures made { IfOk result (λ log. (log.place ≡ incoming_place place) × (log.epoch ≡ 1) × (log.broken ≡ false)) }
        ensures empty { IfOk result (λ log. (log.marks ≡ []) × (log.next ≡ 1)) }
        ensures told { IfOk result (λ log. is_some log.posts ≡ (is_some (D.told a) && is_some (D.told b))) }
        ensures posts { IfOk result (λ log. IfSome log.posts (λ posts. posts ≡ [])) }
        ensures durable { IfOk result (IsLastingIncoming D.Disk) }

        // On disks of which no image has a log, a stop leaves no log or the empty one.
        ensures any_moment { IfOk result (λ log. IsMaking D.Disk (incoming_place place) [] a b log.first log.second) }
        ensures came { IfOk result (λ log. D.came 9 a log.first × D.came 5 b log.second) }

        ensures any_moment_err { IfErr result (λ e. IsMaking D.Disk (incoming_place place) [] a b e.0 e.1) }
        ensures came_err { IfErr result (λ e. D.came 9 a e.0 × D.came 5 b e.1) }
        ensures cause { IfErr result (λ e. MatchFault e.2
            (IsFault (both_faults D.Disk a b) (both_faults D.Disk e.0 e.1)) ((e.0 ≡ a) × (e.1 ≡ b))) }
    {
        let pair = LogPair::create(alloc, a, b, place_of(place))?;
        Ok(Incoming {
            pair,
            contents: Contents::empty(alloc),
            damaged: false,
        })
    }

    /// Syncs both disks and reads each record of the log that counts once, in order. It writes nothing. An
    /// `Err` hands the disks back.
    pub fn mount(alloc: Global, a: D, b: D, place: Place) -> Result<Incoming<D>, (D, D, MountFault)>
        ensures place { IfOk result (λ log. (log.place ≡ incoming_place place) × (log.broken ≡ false)) }
        ensures told { IfOk result (λ log. is_some log.posts ≡ (is_some (D.told a) && is_some (D.told b))) }
        ensures held { IfOk result (λ log. TwoTold (D.told a) (D.told b) (AreOfIncoming log)) }
        ensures exact { IfOk result (λ log. TwoTold (D.told a) (D.told b) (λ x y. (posts : List Post) (next : ℕ)
            → HoldsIncoming place posts next x y → (log.posts ≡ Some posts) × (log.next ≡ next))) }
        ensures durable { IfOk result (IsLastingIncoming D.Disk) }
        ensures unwritten { IfOk result (λ log. AreUnwritten D.Disk (phase a log.first ∷ phase b log.second ∷ [])) }
        ensures came { IfOk result (λ log. D.came 2 a log.first × D.came 2 b log.second) }

        ensures unwritten_err { IfErr result (λ e. AreUnwritten D.Disk (phase a e.0 ∷ phase b e.1 ∷ [])) }
        ensures came_err { IfErr result (λ e. D.came 2 a e.0 × D.came 2 b e.1) }
        ensures told_err { IfErr result (λ e. (is_some (D.told e.0) ≡ is_some (D.told a)) × (is_some (D.told e.1) ≡ is_some (D.told b))) }
        ensures cause { IfErr result (λ e. MatchMountFault e.2
            (IsFault (both_faults D.Disk a b) (both_faults D.Disk e.0 e.1))
            (λ d. TwoTold (D.told a) (D.told b) (λ x y. IsDamagedIncoming place x y d)) ⊤) }
        ensures never_held { IfErr result (λ e. MatchMountFault e.2 (λ _. ⊤)
            (λ _. TwoTold (D.told a) (D.told b) (HoldsNoIncoming place)) ⊤) }
    {
        let before = both_faults(&a, &b);
        let mut pair = match LogPair::mount(alloc, a, b, place_of(place)) {
            Ok(pair) => pair,
            Err((a, b, fault)) => return Err((a, b, fault)),
        };
        match load(alloc, &mut pair) {
            Ok(contents) => Ok(Incoming {
                pair,
                contents,
                damaged: false,
            }),
            Err(fault) => {
                let (a, b) = pair.into_disks();
                Err((a, b, since(fault, before)))
            }
        }
    }

    /// Adds a post and answers its number, the old next one. All memory is taken before the first write:
    /// after `Spent` and `Memory` nothing has changed. After a fault of a disk it is broken, and its disks
    /// hold the old posts or those with this one.
    pub fn post(&mut self, metric: MetricId, batch: &Batch) -> Result<u64, PostFault>
        requires { self.old.broken ≡ false }
        ensures number { IfOk result (λ number. (number ≡ self.old.next) × (self.new.next ≡ number + 1)) }
        ensures marks { OnOk result (self.new.marks ≡ self.old.marks ++ record { number = self.old.next; metric = metric } ∷ []) }
        ensures posted { OnOk result (AddsPost self.old.posts self.new.posts (record { number = self.old.next; metric = metric; measures = batch.now })) }
        ensures kept { OnErr result ((self.new.marks ≡ self.old.marks) × (self.new.next ≡ self.old.next) × (self.new.posts ≡ self.old.posts)) }
        ensures whole { OnOk result (self.new.broken ≡ false) }
        ensures same { (self.new.place ≡ self.old.place) × (self.new.epoch ≡ self.old.epoch) }
        ensures came { D.came 4 self.old.first self.new.first × D.came 4 self.old.second self.new.second }

        // `Spent` comes exactly where no number is left.
        ensures spent { (result ≡ Err (PostFault.Spent (record { counter = Counter.PostNumber; at = 2 ^ 63 }))) ↔ (self.old.next ≡ 2 ^ 63) }
        ensures cause { IfErr result (λ e. MatchPostFault e
            (λ s. (s.counter ≡ Counter.PostNumber) × (s.at ≡ 2 ^ 63) × (self.new ≡ self.old)) (self.new ≡ self.old)
            (λ f. IsFault (both_faults D.Disk self.old.first self.old.second)
            (both_faults D.Disk self.new.first self.new.second) f × (self.new.broken ≡ true))) }

        // At every moment a stop leaves the old posts, or those with the new one; so it does at the exit,
        // after Ok and after a fault.
        ensures any_moment { EachMoment D.Disk (incoming_phases self.old self.new)
            (OfTwo (AreOldOrPosted self.old (record { number = self.old.next; metric = metric; measures = batch.now }))) }
        ensures left { (images : List (List ℕ)) → AtExit D.Disk (incoming_phases self.old self.new) images
            → OfTwo (AreOldOrPosted self.old (record { number = self.old.next; metric = metric; measures = batch.now })) images }
        ensures durable { OnOk result (IsLastingIncoming D.Disk self.new) }
    {
        // Its images hold the posts: this says so of each way out before the first write.
        let _broken = self.pair.is_broken();
        let number = self.contents.next;
        if number >= SPENT {
            return Err(PostFault::Spent(Spent {
                counter: Counter::PostNumber,
                at: number,
            }));
        }
        let Ok(body) = prepare(&mut self.pair, &mut self.contents, metric, batch) else {
            return Err(PostFault::Memory);
        };
        match self.pair.append(body.as_slice()) {
            Ok(_) => {}
            Err(fault) => return Err(fault_of_post(fault)),
        }
        self.contents.push(Mark { number, metric });
        Ok(number)
    }

    /// The first `most` posts of a metric above a number: their numbers and measures, in order. After
    /// `Memory` nothing has changed; after a fault of a disk or damage it is broken.
    pub fn batches(
        &mut self,
        alloc: Global,
        metric: MetricId,
        above: u64,
        most: u64,
    ) -> Result<Vec<(u64, Batch)>, MountFault>
        requires { self.old.broken ≡ false }
        ensures numbers { IfOk result (λ found. map (λ post. post.0) found.items ≡ take most (numbers_above metric above self.old.marks)) }
        ensures batches { IfOk result (λ found. IfSome self.old.posts
            (λ posts. found.items ≡ map answer_of (take most (posts_above metric above posts)))) }
        ensures kept { (self.new.marks ≡ self.old.marks) × (self.new.next ≡ self.old.next) × (self.new.posts ≡ self.old.posts) }
        ensures same { (self.new.place ≡ self.old.place) × (self.new.epoch ≡ self.old.epoch) }
        ensures whole { OnOk result (self.new.broken ≡ false) }
        ensures told { (D.told self.new.first ≡ D.told self.old.first) × (D.told self.new.second ≡ D.told self.old.second) }
        ensures unwritten { AreUnwritten D.Disk (incoming_phases self.old self.new) }
        ensures left { IsLastingIncoming D.Disk self.new }
        ensures came { D.came 0 self.old.first self.new.first × D.came 0 self.old.second self.new.second }

        // Where both disks tell their bytes, nothing is damaged.
        ensures cause { IfErr result (λ e. MatchMountFault e
            (λ f. IsFault (both_faults D.Disk self.old.first self.old.second)
            (both_faults D.Disk self.new.first self.new.second) f × (self.new.broken ≡ true))
            (λ d. (self.new.broken ≡ true) × (d.disk < 2) × (self.old.posts ≡ None)) (self.new.broken ≡ false)) }
    {
        let _broken = self.pair.is_broken();
        let found = read_above(alloc, &mut self.pair, &self.contents, metric, above, most);
        self.damaged = is_damage(&found);
        found
    }

    /// The number of the next post, from 1 to 2^63. Posts are above each other, and below it.
    pub fn next(&self) -> u64
        ensures value { result ≡ self.now.next }
        ensures range { (1 ≤ result) × (result ≤ 2 ^ 63) }
        ensures rise { RiseFrom 0 self.now.marks × (last_number self.now.marks < result) }
        ensures marks { IfSome self.now.posts (λ posts. self.now.marks ≡ marks_of posts) }
    {
        self.contents.next
    }

    /// The least number of a post of the metric above this number.
    pub fn first_above(&self, metric: MetricId, above: u64) -> Option<u64>
        ensures { result ≡ slice_get (numbers_above metric above self.now.marks) 0 }
    {
        self.contents.first_above(metric, above)
    }

    /// How many posts of the metric are above this number.
    pub fn count_above(&self, metric: MetricId, above: u64) -> u64
        ensures { result ≡ length (numbers_above metric above self.now.marks) }
    {
        self.contents.places_above(metric, above).len() as u64
    }

    /// How often both disks have failed, at most 2^64 - 1.
    pub fn faults(&self) -> u64
        ensures { result ≡ both_faults D.Disk self.now.first self.now.second }
    {
        self.pair.faults()
    }

    /// Whether a call has failed, so that the disks are to be mounted again.
    pub fn is_broken(&self) -> bool
        ensures value { result ≡ self.now.broken }
        ensures durable { self.now.broken ≡ false → IsLastingIncoming D.Disk self.now }
    {
        self.damaged || self.pair.is_broken()
    }

    /// The disks, in the order in which they were handed in. They hold the posts and no others unless it
    /// is broken.
    pub fn into_disks(self) -> (D, D)
        ensures disks { (result.0 ≡ self.first) × (result.1 ≡ self.second) }
        ensures held { self.broken ≡ false → TwoTold (D.told result.0) (D.told result.1) (AreOfIncoming self) }
    {
        let Incoming {
            pair,
            contents: _,
            damaged: _,
        } = self;
        pair.into_disks()
    }
}

impl<D: Fusible> Incoming<D> {
    /// Sets the fuse of the disk of this number, 0 or 1.
    pub fn fuse(&mut self, disk: u8, calls: u64)
        requires { disk < 2 }
        ensures set { D.fused (one_of (disk == 1) self.new.first self.new.second) ≡ Some calls }
        ensures still { other_of (disk == 1) self.new.first self.new.second ≡ other_of (disk == 1) self.old.first self.old.second }
        ensures same { self.new ≡ record self.old { first = self.new.first; second = self.new.second } }
    {
        self.pair.fuse(disk, calls);
    }

    /// How many calls of the disks have failed for want of memory, at most 2^64 - 1.
    pub fn starved(&self) -> u64
        ensures { result ≡ min (D.starved self.now.first + D.starved self.now.second) (2 ^ 64 - 1) }
    {
        self.pair.starved()
    }
}

fn fault_of_post(fault: LogFault) -> PostFault
    ensures { MatchFault fault (λ f. result ≡ PostFault.DiskFault f) (result ≡ PostFault.Memory) }
{
    match fault {
        LogFault::DiskFault(fault) => PostFault::DiskFault(fault),
        LogFault::Memory => PostFault::Memory,
    }
}
