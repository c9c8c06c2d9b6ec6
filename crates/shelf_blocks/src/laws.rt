// What blocks hold once a turn is written, in the words of the subject.
ghost use Rattle.std.specs.Prelude.{◌≡◌, ℕ, List, Some, All, length, map};
ghost use Rattle.std.specs.List.{AllZip};
ghost use Rattle.series_model.specs.declared.point.Split.{Split};
ghost use Rattle.series_model.specs.Tail.{Tail};
ghost use Rattle.bound_series.specs.Jobs.{IsPrepared, PreparedView};
ghost use Rattle.split_update.specs.Live.{Live, all_splits_after, series_under};
ghost use Rattle.shelf_records.specs.declared.moves.Move.{Move};
ghost use Rattle.shelf_records.specs.declared.series.Stored.{Stored};
ghost use Rattle.shelf_records.specs.Changes.{all_moved};
ghost use Rattle.shelf_records.specs.Filed.{IsFiled};
ghost use Rattle.shelf_records.specs.Shelved.{Shelved, blocks_in_use};
ghost use Rattle.block_slots.specs.declared.slots.Piece.{Piece};
ghost use Rattle.block_slots.specs.Slots.{FillsSlot, IsBeside, Spares};
ghost use Rattle.shelf_blocks.specs.declared.turn.Made.{Made};
ghost use Rattle.shelf_blocks.specs.Blocks.{HoldsMetrics, HoldsRaw, HoldsSplits, IsRaw};
ghost use Rattle.shelf_blocks.specs.Pieces.{AreChunkPieces, block_of};
ghost use Rattle.shelf_blocks.specs.Turns.{AreMade, AreTurned};

/// Writes beside the blocks in use leave what these hold of the live metrics.
pub fn spared_metrics_are_held()
    ensures { (places : List ℕ) (old new : List ℕ) → Spares places old new → (metrics : List Shelved) (lives : List Live)
        → All (λ block. All (IsBeside block) places) (blocks_in_use metrics) → HoldsMetrics old metrics lives → HoldsMetrics new metrics lives }
{}

/// Once the pieces of a raw series are written, their blocks hold it.
pub fn written_series_is_held()
    ensures { (disk : List ℕ) (raw : Tail) (places : List ℕ) (pieces : List Piece) → AreChunkPieces raw.points places pieces
        → All (FillsSlot disk) pieces → IsRaw raw → HoldsRaw disk (map block_of pieces) raw.anchor raw.last raw }
{}

/// Once the pieces of a turn are written, and the old splits stand as they stood, the blocks hold of each series
/// of a metric what the turn leaves of its splits.
pub fn written_turn_is_held()
    ensures { (old new : List ℕ) (m : Shelved) (p : PreparedView) (splits : List (List Split)) (all : List Made)
        (series : List (List Stored)) (moves : List (List Move)) (pieces : List Piece)
        → IsFiled m → IsPrepared p → p.job.policy ≡ m.policy → length all ≡ length m.kept
        → AreMade (Some old) m p all → AreTurned m pieces 0 all series moves → All (FillsSlot new) pieces
        → AllZip (HoldsSplits old m.policy) m.kept splits → AllZip (HoldsSplits new m.policy) m.kept splits
        → AllZip (HoldsSplits new m.policy) (all_moved m.kept moves)
        (all_splits_after (series_under m.policy) p.raw.last p.from p.points splits) }
{}
