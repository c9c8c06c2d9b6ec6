// Prepared work that is committed.
ghost use Rattle.std.specs.Prelude.{◌≡◌, ◌≢◌, ◌↔◌, ◌∷◌, List, MatchOption, nat_le, IsSome, IsTrue, map, option_map};
ghost use Rattle.std.specs.List.{filter};
ghost use Rattle.series_model.specs.declared.measure.Measure.{Measure};
ghost use Rattle.shelf_records.specs.Shelved.{metric_of};
ghost use Rattle.sack_state.specs.Books.{AreWhole};
ghost use Rattle.sack_state.specs.Committing.{CommitsFrom, DrainsFrom, ReadsWork, RefreshesFrom, TakesTurn, TakesTurns, claim_past, commit_fault_of, turn_due};

use crate::books::Books;
use crate::claiming::{POSTS_PER_TURN, fault_of_posts, fault_of_shelf, is_holder};
use bound_series::{Job, Prepared, Raw};
use gno_disk::Disk;
use regroup::prepare;
use sack_history::{CommitFault, HeldClaim, SackFault};
use series_model::{Batch, Measure, MetricId, Ticket};
use std::alloc::Global;

/// The ticket of a turn that no claim is held for.
const NO_TICKET: Ticket = Ticket { sack: 0, number: 0 };

/// What turns gave: the answer, how many were taken, and the claim that is held still.
#[derive(Drop)]
pub struct Turned<T> {
    pub result: Result<T, SackFault>,
    pub turns: u64,
    pub held: Option<HeldClaim>,
}

/// Whether two raw series are equal.
fn same_raw(a: &Raw, b: &Raw) -> bool
    ensures { IsTrue result ↔ (a.now ≡ b.now) }
{
    same_measures(a.points(), b.points()) && a.anchor() == b.anchor()
}

/// Whether two lists of measures are equal.
fn same_measures(a: &[Measure], b: &[Measure]) -> bool
    ensures { IsTrue result ↔ (a.now ≡ b.now) }
{
    a == b
}

/// What follows a batch, if it is the first of these.
fn behind<'a>(batches: &'a [Batch], batch: &Batch) -> Option<&'a [Batch]>
    ensures { MatchOption result ((rest : List (List Measure)) → batches.now ≢ batch.now ∷ rest) (λ rest. batches.now ≡ batch.now ∷ rest.now) }
{
    match batches {
        [first, rest @ ..] if same_measures(first.measures(), batch.measures()) => Some(rest),
        _ => None,
    }
}

/// Whether these are the batches of the posts up to a number, in order.
fn are_batches_up_to(posts: &[(u64, Batch)], upto: u64, batches: &[Batch]) -> bool
    ensures { IsTrue result ↔ (batches.now ≡ map (λ p. p.1) (filter (λ p. nat_le p.0 upto) posts.now)) }
{
    let mut left = batches;
    for (number, batch) in posts {
        if *number > upto {
            continue;
        }
        let Some(rest) = behind(left, batch) else {
            return false;
        };
        left = rest;
    }
    left.is_empty()
}

/// What is left of a claim after a turn of a metric: one of this metric has ended.
fn claim_past(held: Option<HeldClaim>, metric: MetricId) -> Option<HeldClaim>
    ensures { result ≡ claim_past metric held }
{
    match held {
        Some(claim) if metric.0 == claim.metric.0 => None,
        _ => held,
    }
}

/// How a commit answers a fault: where there was no memory, the prepared work is handed back.
pub fn committing_fault(fault: SackFault, prepared: Prepared) -> CommitFault
    ensures { result ≡ commit_fault_of prepared fault }
{
    match fault {
        SackFault::DiskFault(fault) => CommitFault::DiskFault(fault),
        SackFault::Damaged(damaged) => CommitFault::Damaged(damaged),
        SackFault::Memory | SackFault::Unknown | SackFault::Spent(_) => {
            CommitFault::Memory(prepared)
        }
    }
}

/// The ticket of a claim, if one is held.
pub fn ticket_of(held: Option<HeldClaim>) -> Option<Ticket>
    ensures { result ≡ option_map (λ claim. claim.ticket) held }
{
    match held {
        Some(claim) => Some(claim.ticket),
        None => None,
    }
}

impl<D: Disk> Books<D> {
    /// Whether a job is the work of the held claim, as the books tell it. It reads, and writes nothing.
    fn is_work(&mut self, alloc: Global, job: &Job, claim: HeldClaim) -> Result<bool, SackFault>
        requires { AreWhole self.old }
        ensures { ReadsWork D.Disk claim job.now self.old self.new result }
    {
        let before = self.faults();
        if job.metric().0 != claim.metric.0 || job.upto() != claim.upto {
            return Ok(false);
        }
        let Some(done) = self.shelf.done_of(claim.metric) else {
            return Ok(false);
        };
        match self.shelf.policy_of(claim.metric) {
            Some(policy) if policy.equals(job.policy()) => {}
            _ => return Ok(false),
        }
        let posts = match self
            .incoming
            .batches(alloc, claim.metric, done, POSTS_PER_TURN)
        {
            Ok(posts) => posts,
            Err(fault) => return Err(fault_of_posts(fault, before, self.faults())),
        };
        if !are_batches_up_to(posts.as_slice(), claim.upto, job.batches()) {
            return Ok(false);
        }
        match self.shelf.raw_of(alloc, claim.metric) {
            Ok(base) => Ok(same_raw(&base, job.base())),
            Err(fault) => Err(fault_of_shelf(fault, before, self.faults())),
        }
    }

    /// Commits prepared work, where this claim is held, if it is the claim's.
    pub fn commit(
        &mut self,
        alloc: Global,
        held: Option<HeldClaim>,
        prepared: Prepared,
    ) -> Result<u64, CommitFault>
        requires { AreWhole self.old }
        ensures { CommitsFrom D.Disk held prepared self.old self.new result }
    {
        let before = self.faults();
        let job = prepared.job();
        let given = job.ticket();
        if !is_holder(given, held) {
            return Err(CommitFault::NotHolder {
                given,
                holder: ticket_of(held),
            });
        }
        let Some(claim) = held else {
            unreachable!();
        };
        match self.is_work(alloc, job, claim) {
            Ok(true) => {}
            Ok(false) => return Err(CommitFault::Differs(prepared)),
            Err(fault) => return Err(committing_fault(fault, prepared)),
        }
        match self.shelf.commit(alloc, &prepared) {
            Ok(()) => Ok(prepared.job().upto()),
            Err(fault) => {
                let fault = fault_of_shelf(fault, before, self.faults());
                Err(committing_fault(fault, prepared))
            }
        }
    }

    /// Takes the next turn of a live metric of which a post waits: processes its first 64 posts that wait, or all where
    /// there are fewer.
    fn take_turn(&mut self, alloc: Global, metric: MetricId) -> Result<(), SackFault>
        requires whole { AreWhole self.old }
        requires live { IsSome (metric_of metric self.old.shelf.metrics) }
        ensures { TakesTurn D.Disk metric self.old self.new result }
    {
        let before = self.faults();
        let job = match self.job(alloc, metric, NO_TICKET) {
            Ok(job) => job,
            Err(fault) => return Err(fault),
        };
        let prepared = match prepare(alloc, job) {
            Ok(prepared) => prepared,
            Err(_job) => return Err(SackFault::Memory),
        };
        match self.shelf.commit(alloc, &prepared) {
            Ok(()) => Ok(()),
            Err(fault) => Err(fault_of_shelf(fault, before, self.faults())),
        }
    }

    /// The metric whose turn is next, if any post waits: of one metric alone, or of all that whose post has waited longest.
    fn turn_due(&self, only: Option<MetricId>) -> Option<MetricId>
        ensures { result ≡ turn_due only self.now }
    {
        let first = match only {
            Some(metric) => self.first_waiting(metric)?,
            None => self.longest_waiting()?,
        };
        Some(first.metric)
    }

    /// Takes turns until no post waits, of one metric or of any, but at most so many.
    fn take_turns(
        &mut self,
        alloc: Global,
        only: Option<MetricId>,
        most: u64,
        held: Option<HeldClaim>,
    ) -> Turned<()>
        requires { AreWhole self.old }
        ensures { TakesTurns D.Disk only most held self.old self.new result.result result.turns result.held }
    {
        let mut held = held;
        let mut turns = 0_u64;
        for _turn in 0..most {
            let Some(metric) = self.turn_due(only) else {
                return Turned {
                    result: Ok(()),
                    turns,
                    held,
                };
            };
            if let Err(fault) = self.take_turn(alloc, metric) {
                return Turned {
                    result: Err(fault),
                    turns,
                    held,
                };
            }
            turns += 1;
            held = claim_past(held, metric);
        }
        Turned {
            result: Ok(()),
            turns,
            held,
        }
    }

    /// Processes all posts of a live metric that wait, and tells its done number.
    pub fn refresh(
        &mut self,
        alloc: Global,
        metric: MetricId,
        held: Option<HeldClaim>,
    ) -> Turned<u64>
        requires { AreWhole self.old }
        ensures { RefreshesFrom D.Disk metric held self.old self.new result.result result.turns result.held }
    {
        if !self.knows(metric) {
            return Turned {
                result: Err(SackFault::Unknown),
                turns: 0,
                held,
            };
        }
        let most = self.waiting_of(metric);
        let turned = self.take_turns(alloc, Some(metric), most, held);
        let result = match turned.result {
            Ok(()) => Ok(self.shelf.done_of(metric).unwrap_or(0)),
            Err(fault) => Err(fault),
        };
        Turned {
            result,
            turns: turned.turns,
            held: turned.held,
        }
    }

    /// Processes all posts that wait, and tells the number of turns.
    pub fn drain(&mut self, alloc: Global, held: Option<HeldClaim>) -> Turned<u64>
        requires { AreWhole self.old }
        ensures { DrainsFrom D.Disk held self.old self.new result.result result.turns result.held }
    {
        let most = self.pending();
        let turned = self.take_turns(alloc, None, most, held);
        let result = match turned.result {
            Ok(()) => Ok(turned.turns),
            Err(fault) => Err(fault),
        };
        Turned {
            result,
            turns: turned.turns,
            held: turned.held,
        }
    }
}
