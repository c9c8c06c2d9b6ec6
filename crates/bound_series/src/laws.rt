// What the definitions amount to, in the words of the subject.
ghost use Rattle.std.specs.Prelude.{◌≡◌, ◌≤◌, ◌+◌, ◌*◌, [], ℕ, List, None, Some, All, Any, MatchOption, length, slice_get, slice_index_or};
ghost use Rattle.archive_policy.specs.declared.kind.Kind.{Kind};
ghost use Rattle.archive_policy.specs.Policies.{AreKinds};
ghost use Rattle.series_model.specs.declared.measure.Measure.{Measure};
ghost use Rattle.series_model.specs.Tail.{accepted_under, kept_window};
ghost use Rattle.bound_series.specs.Jobs.{IsPrepared, PreparedView, points_for};
ghost use Rattle.bound_series.specs.Turn.{earliest};

/// The earliest timestamp is that of a measure, and no measure is before it.
pub fn earliest_is_least()
    ensures { (measures : List Measure) → MatchOption (earliest measures) (measures ≡ [])
        (λ first. All (λ m. first ≤ m.at) measures × Any (λ m. m.at ≡ first) measures) }
{}

/// The points are listed by definition and, within it, in the order of the policy's kinds.
pub fn points_are_in_order()
    ensures { (p : PreparedView) (i k : ℕ) (kind : Kind) → AreKinds p.job.policy.kinds
        → slice_get p.job.policy.kinds k ≡ Some kind
        → points_for p i kind ≡ slice_index_or p.points (i * length p.job.policy.kinds + k) [] }
{}

/// A job without batches has nothing new, and leaves the window that it begins with.
pub fn empty_job()
    ensures { (p : PreparedView) → p.job.batches ≡ [] → p.raw ≡ p.job.base → p.from ≡ None
        → length p.points ≡ length p.job.policy.definitions * length p.job.policy.kinds
        → All (λ points. points ≡ []) p.points → IsPrepared p }
{}

/// Where a job begins with the kept window of some batches, one thing alone is prepared for it.
pub fn one_preparation()
    ensures { (p q : PreparedView) (before : List (List Measure)) → AreKinds p.job.policy.kinds
        → IsPrepared p → IsPrepared q → p.job ≡ q.job
        → p.job.base ≡ kept_window p.job.policy (accepted_under p.job.policy before)
        → p ≡ q }
{}
