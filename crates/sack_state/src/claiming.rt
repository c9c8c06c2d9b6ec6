// Claims.
ghost use Rattle.std.specs.Prelude.{◌≡◌, ◌+◌, ◌-◌, ◌^◌, min, IfOk, IsSome, map, slice_get};
ghost use Rattle.gate_log.specs.LogView.{MatchMountFault};
ghost use Rattle.shelf_records.specs.Shelved.{metric_of};
ghost use Rattle.sack_state.specs.Books.{AreWhole};
ghost use Rattle.sack_state.specs.Claiming.{ClaimsFrom, ReadsJob, first_waiting, last_number_of, smaller};
ghost use Rattle.sack_state.specs.SackCalls.{is_holder};
ghost use Rattle.sack_state.specs.SackView.{marks_waiting};

use crate::books::Books;
use bound_series::Job;
use gno_disk::Disk;
use gno_num::{Counter, Damaged, DiskFault, Memory, Spent};
use incoming::Mark;
use log_pair::MountFault;
use sack_history::{Claim, HeldClaim, SackFault};
use series_model::{Batch, MetricId, Ticket};
use std::alloc::Global;

/// How many posts a turn takes.
pub const POSTS_PER_TURN: u64 = 64;

/// The number that no ticket can have.
const SPENT: u64 = 0x8000_0000_0000_0000;

/// Whether the claim that is held has this ticket.
pub fn is_holder(ticket: Ticket, claim: Option<HeldClaim>) -> bool
    ensures { result ≡ is_holder ticket claim }
{
    match claim {
        Some(held) => ticket.sack == held.ticket.sack && ticket.number == held.ticket.number,
        None => false,
    }
}

/// Of two marks that there may be, the one with the smaller number; the first where both have it.
fn smaller(a: Option<Mark>, b: Option<Mark>) -> Option<Mark>
    ensures { result ≡ smaller a b }
{
    match (a, b) {
        (Some(first), Some(second)) => {
            if second.number < first.number {
                Some(second)
            } else {
                Some(first)
            }
        }
        (Some(first), None) => Some(first),
        (None, second) => second,
    }
}

/// The batches of posts, and the number of the last one.
fn unnumbered(alloc: Global, posts: Vec<(u64, Batch)>) -> Result<(Vec<Batch>, u64), Memory>
    ensures { IfOk result (λ r. (r.0.items ≡ map (λ p. p.1) posts.items) × (r.1 ≡ last_number_of 0 (map (λ p. p.0) posts.items))) }
{
    let mut batches = Vec::with_capacity(alloc, posts.len())?;
    let mut upto = 0;
    for (number, batch) in posts {
        upto = number;
        batches.push(batch)?;
    }
    Ok((batches, upto))
}

/// A fault of a read of the incoming log, whose disks are the first two, on books whose disks had failed so often.
pub fn fault_of_posts(fault: MountFault, before: u64, after: u64) -> SackFault
    ensures { MatchMountFault fault
        (λ f. result ≡ SackFault.DiskFault (record { before = before; after = after }))
        (λ d. result ≡ SackFault.Damaged d)
        (result ≡ SackFault.Memory) }
{
    match fault {
        MountFault::DiskFault(_) => SackFault::DiskFault(DiskFault { before, after }),
        MountFault::Damaged(damaged) => SackFault::Damaged(damaged),
        MountFault::Memory => SackFault::Memory,
    }
}

/// The same of the shelf, whose disks are numbered from 2 on.
pub fn fault_of_shelf(fault: MountFault, before: u64, after: u64) -> SackFault
    ensures { MatchMountFault fault
        (λ f. result ≡ SackFault.DiskFault (record { before = before; after = after }))
        (λ d. result ≡ SackFault.Damaged (record { disk = min (d.disk + 2) (2 ^ 16 - 1); at = d.at }))
        (result ≡ SackFault.Memory) }
{
    match fault {
        MountFault::DiskFault(_) => SackFault::DiskFault(DiskFault { before, after }),
        MountFault::Damaged(damaged) => SackFault::Damaged(Damaged {
            disk: damaged.disk.saturating_add(2),
            at: damaged.at,
        }),
        MountFault::Memory => SackFault::Memory,
    }
}

impl<D: Disk> Books<D> {
    /// The first of a metric's posts that wait, if any does.
    pub fn first_waiting(&self, metric: MetricId) -> Option<Mark>
        ensures { result ≡ first_waiting self.now metric }
    {
        let done = self.shelf.done_of(metric)?;
        let number = self.incoming.first_above(metric, done)?;
        Some(Mark { number, metric })
    }

    /// The post that has waited longest, if any waits.
    pub fn longest_waiting(&self) -> Option<Mark>
        ensures { result ≡ slice_get (marks_waiting self.now) 0 }
    {
        // The numbers of posts rise: this says so.
        let _next = self.incoming.next();
        let ids = self.shelf.metrics();
        let mut first = None;
        for metric in ids {
            first = smaller(first, self.first_waiting(*metric));
        }
        first
    }

    /// The job of a claim on the first posts of a live metric that wait. It reads, and writes nothing.
    pub fn job(&mut self, alloc: Global, metric: MetricId, ticket: Ticket) -> Result<Job, SackFault>
        requires whole { AreWhole self.old }
        requires live { IsSome (metric_of metric self.old.shelf.metrics) }
        ensures { ReadsJob D.Disk metric ticket self.old self.new result }
    {
        let before = self.faults();
        let Some(done) = self.shelf.done_of(metric) else {
            unreachable!();
        };
        let Some(policy) = self.shelf.policy_of(metric) else {
            unreachable!();
        };
        let policy = match policy.copy() {
            Ok(policy) => policy,
            Err(Memory) => return Err(SackFault::Memory),
        };
        let posts = match self.incoming.batches(alloc, metric, done, POSTS_PER_TURN) {
            Ok(posts) => posts,
            Err(fault) => return Err(fault_of_posts(fault, before, self.faults())),
        };
        let base = match self.shelf.raw_of(alloc, metric) {
            Ok(base) => base,
            Err(fault) => return Err(fault_of_shelf(fault, before, self.faults())),
        };
        match unnumbered(alloc, posts) {
            Ok((batches, upto)) => Ok(Job::make(ticket, metric, policy, base, batches, upto)),
            Err(Memory) => Err(SackFault::Memory),
        }
    }

    /// What a claim gives, where this claim is held and so many tickets were given.
    pub fn claim(
        &mut self,
        alloc: Global,
        held: Option<HeldClaim>,
        sack: u16,
        tickets: u64,
    ) -> Result<Claim, SackFault>
        requires { AreWhole self.old }
        ensures { ClaimsFrom D.Disk held sack tickets self.old self.new result }
    {
        if let Some(claim) = held {
            return Ok(Claim::Held {
                ticket: claim.ticket,
            });
        }
        let Some(first) = self.longest_waiting() else {
            return Ok(Claim::Nothing);
        };
        let number = tickets.saturating_add(1);
        if number >= SPENT {
            return Err(SackFault::Spent(Spent {
                counter: Counter::Ticket,
                at: SPENT,
            }));
        }
        match self.job(alloc, first.metric, Ticket { sack, number }) {
            Ok(job) => Ok(Claim::Job(job)),
            Err(fault) => Err(fault),
        }
    }
}
