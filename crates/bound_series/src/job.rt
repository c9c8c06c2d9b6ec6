// Jobs, and what is prepared for them.
ghost use Rattle.std.specs.Prelude.{◌≡◌, ◌⊎◌, [], Contains, None, map, slice_get, slice_index_or};
ghost use Rattle.bound_series.specs.Jobs.{IsPrepared, place_in, points_for};

use crate::Raw;
use archive_policy::{Kind, Policy};
use gno_num::Stamp;
use series_model::{Batch, MetricId, Point, Ticket};
use std::marker::Model;

/// The work of one claim: its ticket, the metric with its policy, the kept window that it begins
/// with, the batches to process, and the number of the last of them.
#[derive(Debug, Drop)]
pub struct Job {
    ticket: Ticket,
    metric: MetricId,
    policy: Policy,
    base: Raw,
    batches: Vec<Batch>,
    upto: u64,
}

impl Model for Job {
    ghost use Rattle.bound_series.specs.Jobs.{JobView};

    ghost Value = { JobView };

    ghost view = { λ j. record { ticket = j.ticket; metric = j.metric; policy = j.policy; base = j.base; batches = j.batches.items; upto = j.upto } };
}

impl Job {
    /// The job of these parts. It takes no memory.
    pub fn make(
        ticket: Ticket,
        metric: MetricId,
        policy: Policy,
        base: Raw,
        batches: Vec<Batch>,
        upto: u64,
    ) -> Job
        ensures { result ≡ record { ticket = ticket; metric = metric; policy = policy; base = base; batches = batches.items; upto = upto } }
    {
        Job {
            ticket,
            metric,
            policy,
            base,
            batches,
            upto,
        }
    }

    /// The ticket of the claim.
    pub fn ticket(&self) -> Ticket
        ensures { result ≡ self.now.ticket }
    {
        self.ticket
    }

    /// The metric.
    pub fn metric(&self) -> MetricId
        ensures { result ≡ self.now.metric }
    {
        self.metric
    }

    /// The metric's policy.
    pub fn policy(&self) -> &Policy
        ensures { result.now ≡ self.now.policy }
    {
        &self.policy
    }

    /// The kept window that the job begins with.
    pub fn base(&self) -> &Raw
        ensures { result.now ≡ self.now.base }
    {
        &self.base
    }

    /// The batches to process, in order.
    pub fn batches(&self) -> &[Batch]
        ensures { result.now ≡ self.now.batches }
    {
        self.batches.as_slice()
    }

    /// The number of the last of the batches.
    pub fn upto(&self) -> u64
        ensures { result ≡ self.now.upto }
    {
        self.upto
    }
}

/// What is prepared for a job: the window that it leaves, the new points of each definition and kind,
/// and the least timestamp that it accepted.
#[derive(Debug, Drop)]
pub struct Prepared {
    job: Job,
    raw: Raw,
    points: Vec<Vec<Point>>,
    from: Option<Stamp>,
}

impl Model for Prepared {
    ghost use Rattle.std.specs.Prelude.{map};
    ghost use Rattle.bound_series.specs.Jobs.{PreparedView, IsPrepared};

    ghost Value = { PreparedView };

    ghost view = { λ p. record { job = p.job; raw = p.raw; points = map (λ v. v.items) p.points.items; from = p.from } };

    ghost invariant = { λ p. IsPrepared (record { job = p.job; raw = p.raw; points = map (λ v. v.items) p.points.items; from = p.from }) };
}

impl Prepared {
    /// The prepared work of these parts: of the points there is one list for each definition and,
    /// within it, each kind. It takes no memory.
    pub fn make(job: Job, raw: Raw, points: Vec<Vec<Point>>, from: Option<Stamp>) -> Prepared
        requires { IsPrepared (record { job = job; raw = raw; points = map (λ v. v.items) points.items; from = from }) }
        ensures { result ≡ record { job = job; raw = raw; points = map (λ v. v.items) points.items; from = from } }
    {
        Prepared {
            job,
            raw,
            points,
            from,
        }
    }

    /// The job.
    pub fn job(&self) -> &Job
        ensures value { result.now ≡ self.now.job }
        ensures prepared { IsPrepared self.now }
    {
        &self.job
    }

    /// The window that the job leaves.
    pub fn raw(&self) -> &Raw
        ensures value { result.now ≡ self.now.raw }
        ensures prepared { IsPrepared self.now }
    {
        &self.raw
    }

    /// The new points of the policy's definition at this place, counted from 0, and of a kind; none
    /// where the policy hasn't these.
    pub fn points(&self, definition: u8, kind: Kind) -> &[Point]
        ensures value { result.now ≡ points_for self.now definition kind }
        ensures absent { (slice_get self.now.job.policy.definitions definition ≡ None) ⊎ (¬ Contains self.now.job.policy.kinds kind)
            → result.now ≡ [] }
        ensures prepared { IsPrepared self.now }
    {
        let policy = self.job.policy();
        let definition = usize::from(definition);
        if definition >= policy.definitions().len() {
            return &[];
        }
        match place_in(policy.kinds(), kind) {
            None => &[],
            Some(place) => list_at(
                self.points.as_slice(),
                definition * policy.kinds().len() + place,
            ),
        }
    }

    /// The least timestamp that the job accepted, where there is one.
    pub fn from(&self) -> Option<Stamp>
        ensures value { result ≡ self.now.from }
        ensures prepared { IsPrepared self.now }
    {
        self.from
    }

    /// Hands the job back.
    pub fn into_job(self) -> Job
        ensures { result ≡ self.job }
    {
        self.job
    }
}

/// The place of a kind among others, where it is one of them.
fn place_in(kinds: &[Kind], kind: Kind) -> Option<usize>
    ensures { result ≡ place_in kinds.now kind }
{
    kinds.iter().position(|k| k.index() == kind.index())
}

/// The list at a place, none beyond them.
fn list_at(points: &[Vec<Point>], place: usize) -> &[Point]
    ensures { result.now ≡ slice_index_or (map (λ v. v.items) points.now) place [] }
{
    match points.get(place) {
        None => &[],
        Some(list) => list.as_slice(),
    }
}
