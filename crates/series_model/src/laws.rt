// What the definitions amount to, in the words of the subject.
ghost use Rattle.std.specs.Prelude.{◌≡◌, ◌↔◌, ◌<◌, ◌≤◌, ◌≤ℤ◌, ℕ, ℤ, List, [], ◌∷◌, ◌++◌, map, length, take, drop, filter, All, Any, Contains, MatchOption};
ghost use Rattle.archive_policy.specs.declared.kind.Kind.{Kind};
ghost use Rattle.archive_policy.specs.declared.definition.Definition.{Definition};
ghost use Rattle.series_model.specs.declared.measure.Measure.{Measure};
ghost use Rattle.series_model.specs.Accepted.{accepted_of, is_within, latest, window};
ghost use Rattle.series_model.specs.Answer.{IsAnswer, answer_of};
ghost use Rattle.series_model.specs.declared.answer.Row.{Row};
ghost use Rattle.series_model.specs.declared.point.Point.{Point};
ghost use Rattle.series_model.specs.declared.point.Split.{Split};
ghost use Rattle.series_model.specs.Bucket.{changes, distinct_count, greatest, least};
ghost use Rattle.series_model.specs.BucketLaws.{IsChange, IsSetOf};
ghost use Rattle.series_model.specs.Points.{ArePoints, IsPoint, points_from, points_of};
ghost use Rattle.series_model.specs.Stored.{AreStoredSplits, stored_of};
ghost use Rattle.series_model.specs.Tail.{members_of, tail_of};
ghost use Rattle.series_model.specs.History.{Entry, Done, posts_of, processed_batches, pending_numbers, turn_ends, turns_of};
ghost use Rattle.series_model.specs.Series.{IsSeries, series_of_measures};
ghost use Rattle.series_model.specs.Turns.{AreNumbered, last_number, turn_end, waiting_posts};

/// The latest timestamp is that of a measure, and no measure is after it.
pub fn latest_is_greatest()
    ensures { (measures : List Measure) → MatchOption (latest measures) (measures ≡ [])
        (λ last. All (λ m. m.at ≤ last) measures × Any (λ m. m.at ≡ last) measures) }
{}

/// Each batch takes its turn by itself: the window that stands as it begins judges all its measures.
pub fn one_batch()
    ensures { (largest back : ℕ) (batches : List (List Measure)) (batch : List Measure)
        → let before = accepted_of largest back batches in
        accepted_of largest back (batches ++ batch ∷ [])
        ≡ before ++ filter (is_within (window largest back (latest before))) batch }
{}

/// The series that is computed is the series.
pub fn series_is_exact()
    ensures { (measures : List Measure) → IsSeries measures (series_of_measures measures) }
{}

/// Measures have one series.
pub fn one_series()
    ensures { (measures xs ys : List Measure) → IsSeries measures xs → IsSeries measures ys → xs ≡ ys }
{}

/// An answer has the kept buckets that have a value, and no other rows.
pub fn rows_are_exact()
    ensures { (kind : Kind) (d : Definition) (accepted : List Measure)
        → IsAnswer kind d accepted (answer_of kind d accepted) }
{}

/// The points of a series are those of the buckets that have a value, by time, and there is one such
/// list.
pub fn points_are_exact()
    ensures exact { (kind : Kind) (granularity : ℕ) (measures : List Measure)
        → ArePoints (IsPoint kind granularity (series_of_measures measures))
        (points_of kind granularity (series_of_measures measures)) }
    ensures one { (kind : Kind) (granularity : ℕ) (series : List Measure) (xs ys : List Point)
        → ArePoints (IsPoint kind granularity series) xs → ArePoints (IsPoint kind granularity series) ys
        → xs ≡ ys }
{}

/// Stored splits have exactly the points of their stretches from the oldest key on, and there is one
/// such list.
pub fn splits_are_exact()
    ensures exact { (kind : Kind) (d : Definition) (accepted : List Measure)
        → AreStoredSplits kind d accepted (stored_of kind d accepted) }
    ensures one { (kind : Kind) (d : Definition) (accepted : List Measure) (xs ys : List Split)
        → AreStoredSplits kind d accepted xs → AreStoredSplits kind d accepted ys → xs ≡ ys }
{}

/// An answer is unique.
pub fn one_answer()
    ensures { (kind : Kind) (d : Definition) (accepted : List Measure) (xs ys : List Row)
        → IsAnswer kind d accepted xs → IsAnswer kind d accepted ys → xs ≡ ys }
{}

/// The tail of a series with its anchor has every later point: from a time on that isn't before the
/// tail's, its points are those of the whole series.
pub fn tail_has_later_points()
    ensures { (kind : Kind) (granularity cut from : ℕ) (accepted : List Measure) → cut ≤ from
        → points_from from (points_of kind granularity (members_of (tail_of cut accepted)))
        ≡ points_from from (points_of kind granularity (series_of_measures accepted)) }
{}

/// A change is that of a member with an earlier one: its value less that of the greatest earlier
/// member.
pub fn changes_are_exact()
    ensures { (measures : List Measure) (change : Measure)
        → Contains (changes (series_of_measures measures)) change
        ↔ IsChange (series_of_measures measures) change }
{}

/// The least and the greatest value are values and bounds, and distinct values are counted as the
/// members of a list without repeats that has the same values.
pub fn values_are_summed_up()
    ensures least { (v : ℤ) (values : List ℤ)
        → Contains (v ∷ values) (least (v ∷ values)) × All (λ w. least (v ∷ values) ≤ℤ w) (v ∷ values) }
    ensures greatest { (v : ℤ) (values : List ℤ)
        → Contains (v ∷ values) (greatest (v ∷ values)) × All (λ w. w ≤ℤ greatest (v ∷ values)) (v ∷ values) }
    ensures distinct { (values : List ℤ) → (set : List ℤ) × IsSetOf values set
        × (length set ≡ distinct_count values) }
{}

/// A turn takes 64 of the posts that wait, and the last one those that are left.
pub fn turns()
    ensures none { turn_ends 63 [] ≡ [] }
    ensures cut { (numbers : List ℕ) → 0 < length numbers
        → turn_ends 63 numbers ≡ last_number (take 64 numbers) ∷ turn_ends 63 (drop 64 numbers) }
{}

/// The next turn of a metric processes the first 64 of its posts that wait, and leaves the others.
pub fn one_turn()
    ensures processed { (metric : ℕ) (entries : List Entry)
        → AreNumbered entries → 0 < length (pending_numbers metric entries)
        → processed_batches metric (entries ++ Done metric (turn_end metric entries) ∷ [])
        ≡ processed_batches metric entries
        ++ map (λ post. post.1) (take 64 (waiting_posts metric entries)) }
    ensures waiting { (metric : ℕ) (entries : List Entry)
        → AreNumbered entries → 0 < length (pending_numbers metric entries)
        → pending_numbers metric (entries ++ Done metric (turn_end metric entries) ∷ [])
        ≡ drop 64 (pending_numbers metric entries) }
{}

/// After the turns of a metric none of its posts waits, and all are processed, in order.
pub fn all_turns()
    ensures processed { (metric : ℕ) (entries : List Entry) → AreNumbered entries
        → processed_batches metric (entries ++ turns_of metric entries)
        ≡ map (λ post. post.1) (posts_of metric entries) }
    ensures waiting { (metric : ℕ) (entries : List Entry) → AreNumbered entries
        → pending_numbers metric (entries ++ turns_of metric entries) ≡ [] }
{}
