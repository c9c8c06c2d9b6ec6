// What a change leaves, in the words of the subject.
ghost use Rattle.std.specs.Prelude.{◌≡◌, ◌==◌, ℕ, List, Option, if◌then◌else◌};
ghost use Rattle.gno_codec.specs.declared.item.Block.{Block};
ghost use Rattle.shelf_records.specs.declared.series.Stored.{Stored};
ghost use Rattle.shelf_records.specs.Series.{block_of, changed};

/// After a change its own split is where the change says, and each other one where it was.
pub fn change_moves_one_split()
    ensures { (key other : ℕ) (block : Option Block) (splits : List Stored)
        → block_of other (changed key block splits) ≡ (if other == key then block else block_of other splits) }
{}
