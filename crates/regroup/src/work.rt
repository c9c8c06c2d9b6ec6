// What a worker prepares for a job.
ghost use Rattle.std.specs.Prelude.{◌≡◌, ◌++◌, ℕ, List, Option, IfOk, IfErr, OnOk, map};
ghost use Rattle.std.specs.List.Sorted.{IsStrictlyIncreasing};
ghost use Rattle.archive_policy.specs.Policies.{AreDefinitions, AreKinds};
ghost use Rattle.bound_series.specs.Jobs.{IsPrepared};
ghost use Rattle.series_model.specs.declared.measure.Measure.{Measure};
ghost use Rattle.series_model.specs.Tail.{members_of};
ghost use Rattle.regroup.specs.Work.{Gives, lists_for, lists_of};

use crate::tallies::{BucketTally, points_by};
use crate::touched::tallies_from;
use crate::turns::{Turned, take_turns};
use archive_policy::{Kind, Policy};
use bound_series::{Job, Prepared, Raw};
use gno_num::{Memory, Span, Stamp, floor};
use series_model::Point;
use std::alloc::Global;

/// What is prepared, beside its job.
#[derive(Debug, Drop)]
struct Work {
    raw: Raw,
    points: Vec<Vec<Point>>,
    from: Option<Stamp>,
}

/// Prepares a job: each of its batches takes its turn in the kept window that it begins with; then
/// the points of every definition and kind are made anew from the bucket of the least accepted
/// timestamp on; then what no later turn can need is dropped. It takes no lock and no sack. An error
/// is want of memory alone, and hands the job back.
pub fn prepare(alloc: Global, job: Job) -> Result<Prepared, Job>
    ensures job { IfOk result (λ prepared. prepared.job ≡ job) }
    ensures prepared { IfOk result (λ prepared. IsPrepared prepared) }
    ensures err { IfErr result (λ back. back ≡ job) }
{
    match work_of(alloc, &job) {
        Ok(work) => Ok(Prepared::make(job, work.raw, work.points, work.from)),
        Err(Memory) => Err(job),
    }
}

/// The work of a job.
fn work_of(alloc: Global, job: &Job) -> Result<Work, Memory>
    ensures { IfOk result (λ work. IsPrepared (record { job = job.now; raw = work.raw; points = map (λ v. v.items) work.points.items; from = work.from })) }
{
    let policy = job.policy();
    let Turned { mut raw, from } = take_turns(policy, job.base(), job.batches())?;
    let points = points_of(alloc, policy, &raw, &from)?;
    raw.cut(policy);
    Ok(Work { raw, points, from })
}

/// The points of each definition and, within it, each kind, from the bucket of a time on.
fn points_of(
    alloc: Global,
    policy: &Policy,
    raw: &Raw,
    from: &Option<Stamp>,
) -> Result<Vec<Vec<Point>>, Memory>
    ensures lists { IfOk result (λ points. map (λ v. v.items) points.items
        ≡ lists_of policy.now.kinds (members_of raw.now) from.now policy.now.definitions) }
    ensures rising { OnOk result (IsStrictlyIncreasing (map (λ m. m.at) (members_of raw.now))) }
    ensures definitions { OnOk result (AreDefinitions policy.now.definitions) }
    ensures kinds { OnOk result (AreKinds policy.now.kinds) }
{
    let definitions = policy.definitions();
    let kinds = policy.kinds();
    let mut points = Vec::with_capacity(alloc, definitions.len().saturating_mul(kinds.len()))?;
    // their times rise
    let _kept = raw.points();
    for definition in definitions {
        let tallies = tallies_since(alloc, raw, from, definition.granularity)?;
        add_points(alloc, kinds, tallies.as_slice(), &mut points)?;
    }
    Ok(points)
}

/// The tallies of all buckets from that of a time on; none where there is no time.
fn tallies_since(
    alloc: Global,
    raw: &Raw,
    from: &Option<Stamp>,
    granularity: Span,
) -> Result<Vec<BucketTally>, Memory>
    ensures { IfOk result (λ tallies. Gives granularity (members_of raw.now) from.now tallies.items) }
{
    match from {
        None => Ok(Vec::new(alloc)),
        Some(from) => tallies_from(alloc, raw, floor(*from, granularity), granularity),
    }
}

/// Adds the points of each kind. After `Memory` those of some kinds are there.
fn add_points(
    alloc: Global,
    kinds: &[Kind],
    tallies: &[BucketTally],
    points: &mut Vec<Vec<Point>>,
) -> Result<(), Memory>
    ensures { OnOk result ((granularity : ℕ) (members : List Measure) (from : Option ℕ) → Gives granularity members from tallies.now
        → map (λ v. v.items) points.new.items ≡ map (λ v. v.items) points.old.items ++ lists_for kinds.now granularity members from) }
{
    for kind in kinds {
        points.push(points_by(alloc, *kind, tallies)?)?;
    }
    Ok(())
}
