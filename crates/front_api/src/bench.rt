// What workers ask of a store.
ghost use Rattle.std.specs.Prelude.{◌≡◌, ◌<◌, ℕ, List, length, IfOk, IfErr};
ghost use Rattle.bound_series.specs.Jobs.{JobView, PreparedView};
ghost use Rattle.series_model.specs.declared.ticket.Ticket.{Ticket as TicketView};
ghost use Rattle.front_api.specs.FaultWords.{IsKnown};
ghost use Rattle.front_api.specs.Seen.{LeadsTo, SeenBooks};
ghost use Rattle.front_api.specs.Bench.{ClaimsWork, Commits, IsOfSack, NotesClaim, Releases, StandsForTicket, counted_commit, last_claim_of, one_starved};

use crate::duty::Refusals;
use crate::seen::Histories;
use gno_num::{Damaged, DiskFault, Spent};
use sack_history::SackFault;
use series_model::Ticket;
use std::alloc::Global;

/// What a claim gives.
#[derive(Debug, Drop)]
pub enum Claimed<J> {
    /// Work on the metric whose post has waited longest.
    Job(J),
    /// A claim is held, under this ticket.
    Held { ticket: Ticket },
    /// No live metric has a post that waits.
    Nothing,
}

/// Why prepared work wasn't committed. What may be released is handed back.
#[derive(Debug, Drop)]
pub enum BenchFault<S> {
    /// The held claim has another ticket, or none is held.
    Stale {
        given: Ticket,
        holder: Option<Ticket>,
    },
    /// The work isn't that of the held claim.
    Differs(S),
    /// There is no room for entries.
    Spent(Spent),
    DiskFault(DiskFault),
    Damaged(Damaged),
    Memory(S),
}

/// Why a claim wasn't released.
#[derive(Clone, Copy, Debug, PartialEq, Eq)]
pub enum FreeFault {
    /// The held claim has another ticket, or none is held.
    Stale {
        given: Ticket,
        holder: Option<Ticket>,
    },
    /// There is no room for entries.
    Spent(Spent),
}

/// The sacks of a store, as workers process their posts: a worker claims a job of a sack, prepares it, holding
/// nothing, and commits what it has prepared; a job that it gives up it releases.
pub trait Bench: Histories {
    /// Work that was claimed.
    type Job: Drop;

    /// Work that is prepared.
    type Prepared;

    /// What stands for work that can't be done.
    type Starved;

    /// What a job is.
    ghost as_job: { Self.Job → JobView };

    /// What prepared work is.
    ghost as_prepared: { Self.Prepared → PreparedView };

    /// The ticket of the job.
    ghost ticket_of: { Self.Starved → TicketView };

    /// How many sacks there are.
    fn sacks(&self) -> u16
        ensures { result ≡ Self.sack_count self.now };

    /// Claims work on a sack. It never answers `Unknown`.
    fn claim(&mut self, alloc: Global, sack: u16) -> Result<Claimed<Self::Job>, SackFault>
        requires { sack < Self.sack_count self.old }
        ensures claims { LeadsTo Self.stands self.old self.new (ClaimsWork as_job sack result) }
        ensures known { IfErr result IsKnown }
        ensures of_sack { IfOk result (IsOfSack as_job sack) }
        ensures notes { NotesClaim sack (last_claim_of result) (Self.duty self.old) (Self.duty self.new) }
        ensures same { (Self.sack_count self.new ≡ Self.sack_count self.old) × (Self.made self.new ≡ Self.made self.old) };

    /// Prepares a job, calling no book. An error is want of memory alone.
    fn prepare(alloc: Global, job: Self::Job) -> Result<Self::Prepared, Self::Starved>
        ensures of_job { IfOk result (λ prepared. (as_prepared prepared).job ≡ as_job job) }
        ensures of_ticket { IfErr result (λ starved. ticket_of starved ≡ (as_job job).ticket) };

    /// Commits prepared work, and gives the metric's new done number.
    fn commit(
        &mut self,
        alloc: Global,
        prepared: Self::Prepared,
    ) -> Result<u64, BenchFault<Self::Starved>>
        requires { (as_prepared prepared).job.ticket.sack < Self.sack_count self.old }
        ensures commits { LeadsTo Self.stands self.old self.new (Commits (as_prepared prepared) result) }
        ensures of_ticket { IfErr result (StandsForTicket ticket_of (as_prepared prepared).job.ticket) }
        ensures counts { Self.duty self.new ≡ record (Self.duty self.old) { refusals = counted_commit result (Self.duty self.old).refusals } }
        ensures same { (Self.sack_count self.new ≡ Self.sack_count self.old) × (Self.made self.new ≡ Self.made self.old) };

    /// Releases the claim of a job that can't be done. It takes no memory.
    fn release(&mut self, starved: Self::Starved) -> Result<(), FreeFault>
        requires { (ticket_of starved).sack < Self.sack_count self.old }
        ensures releases { LeadsTo Self.stands self.old self.new (Releases (ticket_of starved) result) }
        ensures counts { Self.duty self.new ≡ record (Self.duty self.old) { refusals = one_starved (Self.duty self.old).refusals } }
        ensures same { (Self.sack_count self.new ≡ Self.sack_count self.old) × (Self.made self.new ≡ Self.made self.old) };

    /// What it has counted of its commits and releases.
    fn refusals(&self) -> Refusals
        ensures { result ≡ (Self.duty self.now).refusals };

    /// There is a history of each sack.
    ghost as_many: { (bench : Self) (books : SeenBooks) → Self.stands bench books → length books.sacks ≡ Self.sack_count bench };
}
