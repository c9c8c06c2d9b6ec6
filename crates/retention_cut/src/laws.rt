// What is kept of a definition, in the words of the subject.
ghost use Rattle.std.specs.Prelude.{◌≡◌, ℕ, ◌<◌, ◌≤◌, min};
ghost use Rattle.archive_policy.specs.declared.definition.Definition.{Definition};
ghost use Rattle.series_model.specs.Answer.{oldest_point_of};
ghost use Rattle.series_model.specs.Stored.{oldest_key_of};
ghost use Rattle.retention_cut.specs.Kept.{HoldsTime, bucket_count};

/// From the oldest point to the greatest timestamp there are as many buckets as the definition has
/// points, or all since the epoch where those are fewer.
pub fn as_many_buckets()
    ensures { (last : ℕ) (d : Definition) → 1 ≤ d.points → 0 < d.granularity
        → bucket_count d.granularity (oldest_point_of last d) last
        ≡ min d.points (bucket_count d.granularity 0 last) }
{}

/// The oldest key is that of the split that holds the oldest point.
pub fn oldest_split_holds()
    ensures { (last : ℕ) (d : Definition) → 0 < d.granularity
        → HoldsTime d.granularity (oldest_key_of last d) (oldest_point_of last d) }
{}
