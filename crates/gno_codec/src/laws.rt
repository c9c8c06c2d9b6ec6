// No two values have one spelling.
ghost use Rattle.std.specs.Prelude.{◌≡◌, ◌<◌, ℕ, List};
ghost use Rattle.series_model.specs.declared.measure.Measure.{Measure};
ghost use Rattle.series_model.specs.declared.point.Split.{Split};
ghost use Rattle.gno_codec.specs.declared.item.IncomingItem.{IncomingItem};
ghost use Rattle.gno_codec.specs.declared.item.IndexItem.{IndexItem};
ghost use Rattle.gno_codec.specs.declared.item.ShelfItem.{ShelfItem};
ghost use Rattle.gno_codec.specs.Blocks.{split_bytes, raw_bytes, IsSplit, IsChunk};
ghost use Rattle.gno_codec.specs.Incoming.{incoming_bytes, IsIncoming};
ghost use Rattle.gno_codec.specs.Index.{index_bytes, IsIndex};
ghost use Rattle.gno_codec.specs.Shelf.{shelf_bytes, IsShelf};

/// Records that have one spelling are one. That a record has no second spelling is plain from the
/// form of its definition, a function of the record.
pub fn one_spelling()
    ensures incoming { (x y : IncomingItem) → IsIncoming x → IsIncoming y → incoming_bytes x ≡ incoming_bytes y → x ≡ y }
    ensures shelf { (x y : ShelfItem) → IsShelf x → IsShelf y → shelf_bytes x ≡ shelf_bytes y → x ≡ y }
    ensures index { (x y : IndexItem) → IsIndex x → IsIndex y → index_bytes x ≡ index_bytes y → x ≡ y }
    // A split's key and granularity stand elsewhere.
    ensures split { (granularity : ℕ) (x y : Split) → 0 < granularity → IsSplit granularity x → IsSplit granularity y
        → x.key ≡ y.key → split_bytes granularity x ≡ split_bytes granularity y → x ≡ y }
    ensures raw { (x y : List Measure) → IsChunk x → IsChunk y → raw_bytes x ≡ raw_bytes y → x ≡ y }
{}
