// What is true of the grammar.
ghost use Rattle.std.specs.Prelude.{◌≡◌, ◌≤◌, ℕ, List, length, Ok};
ghost use Rattle.std.specs.List.{AllByRecursion};
ghost use Rattle.measure_json.specs.Measures.{measures_read};
ghost use Rattle.measure_json.specs.Plain.{InRange, measures_json};
ghost use Rattle.series_model.specs.declared.measure.Measure.{Measure};
ghost use Rattle.series_model.specs.declared.metric.MetricId.{MetricId};
ghost use Rattle.measure_json.specs.Grammar.{IsMeasures, IsBatch};

/// A body has one reading.
pub fn one_reading()
    ensures { (body : List ℕ) (ms ns : List Measure) → IsMeasures body ms → IsMeasures body ns → ms ≡ ns }
{}

/// A body of several metrics has one reading.
pub fn one_batch_reading()
    ensures { (body : List ℕ) (xs ys : List (MetricId × List Measure)) → IsBatch body xs → IsBatch body ys → xs ≡ ys }
{}

/// What is written plainly is read back.
pub fn plain_reads_back()
    ensures { (ms : List Measure) → AllByRecursion InRange ms → length ms ≤ 50000 → measures_read (measures_json ms) ≡ Ok ms }
{}
