// What a turn leaves, in the words of the subject.
ghost use Rattle.std.specs.Prelude.{◌≡◌, ℕ, ◌<◌, ◌++◌, List, Option, Some, Contains, slice_get};
ghost use Rattle.archive_policy.specs.declared.definition.Definition.{Definition};
ghost use Rattle.archive_policy.specs.declared.kind.Kind.{Kind};
ghost use Rattle.series_model.specs.declared.measure.Measure.{Measure};
ghost use Rattle.series_model.specs.declared.point.Point.{Point};
ghost use Rattle.series_model.specs.declared.point.Split.{Split};
ghost use Rattle.series_model.specs.Stored.{splits_of, stored_of};
ghost use Rattle.series_model.specs.Tail.{accepted_under};
ghost use Rattle.bound_series.specs.Jobs.{AreNew, IsFromScratch, PreparedView, points_for};
ghost use Rattle.split_update.specs.Update.{AreSplits, oldest_by, points_after, points_in, splits_after, splits_from};

/// Where the splits were those of grouping from scratch, a turn that was prepared from scratch leaves
/// those of all batches, cut to retention.
pub fn turn_is_from_scratch()
    ensures { (p : PreparedView) (before : List (List Measure)) (i : ℕ) (d : Definition) (kind : Kind)
        → 0 < d.granularity → slice_get p.job.policy.definitions i ≡ Some d → Contains p.job.policy.kinds kind
        → IsFromScratch p before
        → splits_after d.granularity (oldest_by d p.raw.last) p.from (points_for p i kind)
        (stored_of kind d (accepted_under p.job.policy before))
        ≡ stored_of kind d (accepted_under p.job.policy (before ++ p.job.batches)) }
{}

/// What a turn leaves of splits is what all points give that then stand, cut anew.
pub fn turn_cuts_all_anew()
    ensures { (granularity : ℕ) (oldest from : Option ℕ) (points : List Point) (old : List Split)
        → 0 < granularity → AreSplits granularity old → AreNew granularity from points
        → splits_after granularity oldest from points old
        ≡ splits_from oldest (splits_of granularity (points_after granularity from points (points_in old))) }
{}

/// What is stored of a series are splits by rising key.
pub fn stored_are_splits()
    ensures { (kind : Kind) (d : Definition) (accepted : List Measure)
        → 0 < d.granularity → AreSplits d.granularity (stored_of kind d accepted) }
{}

/// What a turn leaves of splits are splits by rising key.
pub fn turn_leaves_splits()
    ensures { (granularity : ℕ) (oldest from : Option ℕ) (points : List Point) (old : List Split)
        → 0 < granularity → AreSplits granularity old → AreNew granularity from points
        → AreSplits granularity (splits_after granularity oldest from points old) }
{}
