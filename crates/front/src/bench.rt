// What is asked of the front as a bench.
ghost use Rattle.std.specs.Prelude.{◌≡◌, ◌<◌, ℕ, IfErr, IfOk, List, length};
ghost use Rattle.bound_series.specs.Jobs.{JobView, PreparedView};
ghost use Rattle.series_model.specs.declared.ticket.Ticket.{Ticket as TicketView};
ghost use Rattle.front_api.specs.Bench.{ClaimsWork, Commits, IsOfSack, NotesClaim, Releases, StandsForTicket, counted_commit, last_claim_of, one_starved};
ghost use Rattle.front_api.specs.FaultWords.{IsKnown};
ghost use Rattle.front_api.specs.Seen.{LeadsTo, SeenBooks};
ghost use Rattle.front.specs.declared.bench.Starved.{Starved as StarvedView};
ghost use Rattle.front.specs.SoloView.{StandsForBooks, as_many_books};
ghost use Rattle.front.specs.Working.{as_it_is, claimed_by};

use crate::fault::{told_of_committing, told_of_releasing, told_of_sack};
use crate::solo::Solo;
use bound_series::{Job, Prepared};
use front_api::{Bench, BenchFault, Claimed, FreeFault, LastClaim, Refusals};
use gno_disk::Disk;
use sack_history::{Claim, SackFault};
use series_model::Ticket;
use std::alloc::Global;

/// What stands for work that can't be done.
#[derive(Clone, Copy, Debug)]
pub struct Starved {
    pub ticket: Ticket,
}

/// What stands for a job.
pub fn starved_of(job: &Job) -> Starved
    ensures { result.ticket ≡ job.now.ticket }
{
    Starved {
        ticket: job.ticket(),
    }
}

/// What a sack's claim gives a worker.
fn claimed_by(claim: Claim) -> Claimed<Job>
    ensures { result ≡ claimed_by claim }
{
    match claim {
        Claim::Job(job) => Claimed::Job(job),
        Claim::Held { ticket } => Claimed::Held { ticket },
        Claim::Nothing => Claimed::Nothing,
    }
}

/// What a claim with this answer was.
fn last_claim_of(given: &Result<Claimed<Job>, SackFault>) -> LastClaim
    ensures { result ≡ last_claim_of given.now }
{
    match given {
        Ok(Claimed::Job(_)) => LastClaim::GaveJob,
        _ => LastClaim::GaveNone,
    }
}

/// The refusals after a commit with this answer.
fn counted_commit(given: &Result<u64, BenchFault<Starved>>, refusals: Refusals) -> Refusals
    ensures { result ≡ counted_commit given.now refusals }
{
    match given {
        Err(BenchFault::Stale { .. }) => Refusals {
            stale: refusals.stale.saturating_add(1),
            ..refusals
        },
        Err(BenchFault::Spent(_) | BenchFault::DiskFault(_) | BenchFault::Damaged(_)) => Refusals {
            faults: refusals.faults.saturating_add(1),
            ..refusals
        },
        _ => refusals,
    }
}

impl<D: Disk> Solo<D> {
    /// How many sacks there are.
    pub(crate) fn sack_count(&self) -> u16
        ensures { result ≡ length self.now.sacks }
    {
        self.made.sacks
    }

    /// Claims work on a sack, and keeps what was given.
    pub(crate) fn claim_on(&mut self, sack: u16) -> Result<Claimed<Job>, SackFault>
        requires { sack < length self.old.sacks }
        ensures claims { LeadsTo (StandsForBooks D.Disk) self.old self.new (ClaimsWork as_it_is sack result) }
        ensures known { IfErr result IsKnown }
        ensures of_sack { IfOk result (IsOfSack as_it_is sack) }
        ensures notes { NotesClaim sack (last_claim_of result) self.old.duty self.new.duty }
        ensures same { self.new ≡ record self.old { sacks = self.new.sacks; duty = self.new.duty } }
        ensures as_many { length self.new.sacks ≡ length self.old.sacks }
    {
        let given = self.claim_in(sack);
        self.last_claims[usize::from(sack)] = last_claim_of(&given);
        given
    }

    /// Claims work on a sack.
    fn claim_in(&mut self, sack: u16) -> Result<Claimed<Job>, SackFault>
        requires { sack < length self.old.sacks }
        ensures claims { LeadsTo (StandsForBooks D.Disk) self.old self.new (ClaimsWork as_it_is sack result) }
        ensures known { IfErr result IsKnown }
        ensures of_sack { IfOk result (IsOfSack as_it_is sack) }
        ensures same { self.new ≡ record self.old { sacks = self.new.sacks } }
        ensures as_many { length self.new.sacks ≡ length self.old.sacks }
    {
        let book = &mut self.sacks[usize::from(sack)];
        match book.claim() {
            Ok(claim) => Ok(claimed_by(claim)),
            Err(fault) => Err(told_of_sack(sack, fault)),
        }
    }

    /// Commits prepared work, and counts the refusal.
    pub(crate) fn commit_work(&mut self, prepared: Prepared) -> Result<u64, BenchFault<Starved>>
        requires { prepared.job.ticket.sack < length self.old.sacks }
        ensures commits { LeadsTo (StandsForBooks D.Disk) self.old self.new (Commits prepared result) }
        ensures of_ticket { IfErr result (StandsForTicket (λ starved. starved.ticket) prepared.job.ticket) }
        ensures counts { self.new.duty ≡ record self.old.duty { refusals = counted_commit result self.old.duty.refusals } }
        ensures same { self.new ≡ record self.old { sacks = self.new.sacks; duty = self.new.duty } }
        ensures as_many { length self.new.sacks ≡ length self.old.sacks }
    {
        let given = self.commit_in(prepared);
        self.refusals = counted_commit(&given, self.refusals);
        given
    }

    /// Commits prepared work in the sack of its ticket.
    fn commit_in(&mut self, prepared: Prepared) -> Result<u64, BenchFault<Starved>>
        requires { prepared.job.ticket.sack < length self.old.sacks }
        ensures commits { LeadsTo (StandsForBooks D.Disk) self.old self.new (Commits prepared result) }
        ensures of_ticket { IfErr result (StandsForTicket (λ starved. starved.ticket) prepared.job.ticket) }
        ensures same { self.new ≡ record self.old { sacks = self.new.sacks } }
        ensures as_many { length self.new.sacks ≡ length self.old.sacks }
    {
        let sack = prepared.job().ticket().sack;
        let book = &mut self.sacks[usize::from(sack)];
        match book.commit(prepared) {
            Ok(done) => Ok(done),
            Err(fault) => Err(told_of_committing(sack, fault)),
        }
    }

    /// Releases the claim of a job that can't be done, and counts it. It takes no memory.
    pub(crate) fn release_work(&mut self, starved: Starved) -> Result<(), FreeFault>
        requires { starved.ticket.sack < length self.old.sacks }
        ensures releases { LeadsTo (StandsForBooks D.Disk) self.old self.new (Releases starved.ticket result) }
        ensures counts { self.new.duty ≡ record self.old.duty { refusals = one_starved self.old.duty.refusals } }
        ensures same { self.new ≡ record self.old { sacks = self.new.sacks; duty = self.new.duty } }
        ensures as_many { length self.new.sacks ≡ length self.old.sacks }
    {
        self.refusals.starved = self.refusals.starved.saturating_add(1);
        self.release_in_sack(starved.ticket)
    }

    /// Gives a claim back to its sack.
    fn release_in_sack(&mut self, ticket: Ticket) -> Result<(), FreeFault>
        requires { ticket.sack < length self.old.sacks }
        ensures releases { LeadsTo (StandsForBooks D.Disk) self.old self.new (Releases ticket result) }
        ensures same { self.new ≡ record self.old { sacks = self.new.sacks } }
        ensures as_many { length self.new.sacks ≡ length self.old.sacks }
    {
        let book = &mut self.sacks[usize::from(ticket.sack)];
        match book.release(ticket) {
            Ok(()) => Ok(()),
            Err(fault) => Err(told_of_releasing(fault)),
        }
    }
}

/// A worker's calls on the store.
impl<D: Disk> Bench for Solo<D> {
    type Job = Job;

    type Prepared = Prepared;

    type Starved = Starved;

    ghost as_job = { λ job. job };

    ghost as_prepared = { λ prepared. prepared };

    ghost ticket_of = { λ starved. starved.ticket };

    fn sacks(&self) -> u16 {
        self.sack_count()
    }

    fn claim(&mut self, _alloc: Global, sack: u16) -> Result<Claimed<Job>, SackFault> {
        self.claim_on(sack)
    }

    fn prepare(alloc: Global, job: Job) -> Result<Prepared, Starved> {
        match regroup::prepare(alloc, job) {
            Ok(prepared) => Ok(prepared),
            Err(job) => Err(starved_of(&job)),
        }
    }

    fn commit(&mut self, _alloc: Global, prepared: Prepared) -> Result<u64, BenchFault<Starved>> {
        self.commit_work(prepared)
    }

    fn release(&mut self, starved: Starved) -> Result<(), FreeFault> {
        self.release_work(starved)
    }

    fn refusals(&self) -> Refusals {
        self.refusals
    }

    ghost as_many = { λ solo books stands. as_many_books _ 0 solo.sacks books.sacks stands.sacks };
}
