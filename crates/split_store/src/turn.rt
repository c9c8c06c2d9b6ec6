// What a commit writes: the pieces of its blocks, and its record.
ghost use Rattle.std.specs.Prelude.{◌≡◌, ◌≤◌, ◌+◌, ⊤, [], false, All, IfOk, IfErr, IfSome, IsSome, OnOk, OnErr, Some, length, map, vec_capacity};
ghost use Rattle.gno_num.specs.Faults.{Rose};
ghost use Rattle.gno_codec.specs.declared.item.CommitItem.{CommitItem as CommitView};
ghost use Rattle.gno_codec.specs.declared.item.ShelfItem.TheVariants as items;
ghost use Rattle.gno_codec.specs.Shelf.{IsShelf, IsWritable, shelf_bytes};
ghost use Rattle.shelf_records.specs.Book.{places_of};
ghost use Rattle.shelf_records.specs.Shelved.{AreBlocks, Shelved, blocks_in_use, metric_of, slot};
ghost use Rattle.shelf_records.specs.Slots.{AreFirstFree};
ghost use Rattle.block_slots.specs.Reads.{IsReadOnly};
ghost use Rattle.shelf_blocks.specs.BlockFaults.{MatchBlockFault};
ghost use Rattle.shelf_blocks.specs.Pieces.{IsPiece, block_of};
ghost use Rattle.shelf_blocks.specs.Turns.{AreFitting, AreMade, made_count};
ghost use Rattle.split_store.specs.Damage.{HasOddSplits};
ghost use Rattle.split_store.specs.Loading.{IsSound};
ghost use Rattle.split_store.specs.Turn.{AreMadeOf, AreTaken, FitsTurn, IsCut, IsReady, IsTurnOf, item_of};

use block_slots::{Piece, SLOT};
use bound_series::Prepared;
use gno_codec::{Block, Change, CommitItem, ShelfItem, write_shelf};
use gno_disk::Disk;
use gno_num::{List, Memory};
use log_pair::LogPair;
use shelf_blocks::{
    BlockFault, Made, chunks_for, make_all, raw_pieces, turn_all, written_turn_is_held,
};
use shelf_records::{Book, Series, changes_of_moves};
use std::alloc::Global;

/// What a commit writes and leaves: the pieces of its blocks, room for a slot of the disk, its record as bytes and
/// as an item, and the series of its metric as they are then.
#[derive(Drop)]
pub(crate) struct Turn {
    pub(crate) pieces: Vec<Piece>,
    pub(crate) buffer: Vec<u8>,
    pub(crate) body: Vec<u8>,
    pub(crate) item: CommitItem,
    pub(crate) series: Vec<Series>,
}

/// The pieces of a turn, where the chunks of the raw series are then, and what becomes of the series.
#[derive(Drop)]
struct Cut {
    pieces: Vec<Piece>,
    chunks: Vec<Block>,
    changes: Vec<Change>,
    series: Vec<Series>,
}

/// What a commit of prepared work is ready to write, at the first free slots, with all memory for it. It reads the
/// splits that the work touches, and no others. After an `Err` the book holds no slot for it.
pub(crate) fn turn_in<D: Disk>(
    alloc: Global,
    blocks: &mut D,
    pair: &mut LogPair<D>,
    book: &mut Book,
    prepared: &Prepared,
) -> Result<Turn, BlockFault>
    requires whole { pair.old.broken ≡ false }
    requires free { book.old.taken ≡ [] }
    requires live { IsSome (metric_of prepared.now.job.metric book.old.metrics) }
    requires policy { (m : Shelved) → metric_of prepared.now.job.metric book.old.metrics ≡ Some m → prepared.now.job.policy ≡ m.policy }
    requires blocks { AreBlocks (D.size blocks.old) book.old.metrics }
    requires sound { All IsSound book.old.metrics }
    ensures ready { IfOk result (IsReady (D.told blocks.old) book.old.metrics prepared.now book.new.taken) }
    ensures first { OnOk result (AreFirstFree (places_of (blocks_in_use book.old.metrics)) book.new.taken) }
    ensures sure { IfOk result (λ turn. (m : Shelved) → metric_of prepared.now.job.metric book.old.metrics ≡ Some m
        → length book.new.taken + (length m.chunks + length turn.item.changes) ≤ book.new.spare) }
    ensures body { IfOk result (λ turn. (length turn.body.items ≤ pair.new.spare) × (1 ≤ pair.new.spare)) }
    ensures pair { pair.new ≡ record pair.old { spare = pair.new.spare } }
    ensures metrics { book.new.metrics ≡ book.old.metrics }
    ensures err { OnErr result (book.new.taken ≡ []) }
    ensures reads { IsReadOnly D.Disk blocks.old blocks.new }
    ensures cause { IfErr result (λ e. MatchBlockFault e (Rose (D.faults blocks.old) (D.faults blocks.new))
        (λ at. IfSome (D.told blocks.old) (λ z. HasOddSplits book.old.metrics prepared.now.job.metric z at)) ⊤) }
{
    let made = match made_in(alloc, blocks, book, prepared) {
        Ok(made) => made,
        Err(fault) => return Err(fault),
    };
    match prepare_turn(alloc, pair, book, prepared, &made) {
        Ok(turn) => Ok(turn),
        Err(Memory) => Err(BlockFault::Memory),
    }
}

/// What a turn leaves of each series of a live metric.
fn made_in<D: Disk>(
    alloc: Global,
    blocks: &mut D,
    book: &Book,
    prepared: &Prepared,
) -> Result<Vec<Made>, BlockFault>
    requires live { IsSome (metric_of prepared.now.job.metric book.now.metrics) }
    requires policy { (m : Shelved) → metric_of prepared.now.job.metric book.now.metrics ≡ Some m → prepared.now.job.policy ≡ m.policy }
    requires blocks { AreBlocks (D.size blocks.old) book.now.metrics }
    requires sound { All IsSound book.now.metrics }
    ensures made { IfOk result (λ made. (m : Shelved) → metric_of prepared.now.job.metric book.now.metrics ≡ Some m
        → AreMadeOf (D.told blocks.old) m prepared.now made.items) }
    ensures reads { IsReadOnly D.Disk blocks.old blocks.new }
    ensures cause { IfErr result (λ e. MatchBlockFault e (Rose (D.faults blocks.old) (D.faults blocks.new))
        (λ at. IfSome (D.told blocks.old) (λ z. HasOddSplits book.now.metrics prepared.now.job.metric z at)) ⊤) }
{
    let Some(filed) = book.get(prepared.job().metric()) else {
        unreachable!();
    };
    // a list for each definition and kind
    let _id = filed.id();
    match make_all(alloc, blocks, filed, prepared) {
        Ok(made) => Ok(made),
        Err(fault) => Err(fault),
    }
}

/// Makes what a turn writes, at the first free slots, and makes all memory for it sure. After `Memory` the book
/// holds no slot for it.
fn prepare_turn<D: Disk>(
    alloc: Global,
    pair: &mut LogPair<D>,
    book: &mut Book,
    prepared: &Prepared,
    made: &[Made],
) -> Result<Turn, Memory>
    requires whole { pair.old.broken ≡ false }
    requires free { book.old.taken ≡ [] }
    requires fit { FitsTurn book.old.metrics prepared.now made.now }
    ensures turn { IfOk result (λ turn. (m : Shelved) → metric_of prepared.now.job.metric book.old.metrics ≡ Some m
        → IsTurnOf m prepared.now made.now book.new.taken turn) }
    ensures slots { OnOk result (AreTaken prepared.now made.now book.new.taken) }
    ensures first { OnOk result (AreFirstFree (places_of (blocks_in_use book.old.metrics)) book.new.taken) }
    ensures sure { IfOk result (λ turn. (m : Shelved) → metric_of prepared.now.job.metric book.old.metrics ≡ Some m
        → length book.new.taken + (length m.chunks + length turn.item.changes) ≤ book.new.spare) }
    ensures body { IfOk result (λ turn. (length turn.body.items ≤ pair.new.spare) × (1 ≤ pair.new.spare)) }
    ensures pair { pair.new ≡ record pair.old { spare = pair.new.spare } }
    ensures metrics { book.new.metrics ≡ book.old.metrics }
    ensures err { OnErr result (book.new.taken ≡ []) }
{
    take_for(book, prepared, made)?;
    match ready_turn(alloc, pair, book, prepared, made) {
        Ok(turn) => Ok(turn),
        Err(Memory) => {
            book.release();
            Err(Memory)
        }
    }
}

/// Takes a slot for each chunk of the raw series and each split that is made.
fn take_for(book: &mut Book, prepared: &Prepared, made: &[Made]) -> Result<(), Memory>
    requires none { book.old.taken ≡ [] }
    ensures taken { OnOk result (AreTaken prepared.now made.now book.new.taken) }
    ensures first { OnOk result (AreFirstFree (places_of (blocks_in_use book.old.metrics)) book.new.taken) }
    ensures sure { OnOk result (length book.new.taken ≤ book.new.spare) }
    ensures metrics { book.new.metrics ≡ book.old.metrics }
    ensures err { OnErr result (book.new.taken ≡ []) }
{
    let chunks = chunks_for(prepared.raw().points().len());
    let splits = count_made(made).ok_or(Memory)?;
    let count = chunks.checked_add(splits).ok_or(Memory)?;
    book.take_slots(count, 0)?;
    Ok(())
}

/// How many splits are made, unless they are too many to be counted.
fn count_made(made: &[Made]) -> Option<usize>
    ensures { IfSome result (λ count. count ≡ made_count made.now) }
{
    let mut count = 0_usize;
    for one in made {
        count = count.checked_add(one.splits.len())?;
    }
    Some(count)
}

/// What a turn writes at the slots that were taken, with all memory for it.
fn ready_turn<D: Disk>(
    alloc: Global,
    pair: &mut LogPair<D>,
    book: &mut Book,
    prepared: &Prepared,
    made: &[Made],
) -> Result<Turn, Memory>
    requires whole { pair.old.broken ≡ false }
    requires fit { FitsTurn book.old.metrics prepared.now made.now }
    requires taken { AreTaken prepared.now made.now book.old.taken }
    ensures turn { IfOk result (λ turn. (m : Shelved) → metric_of prepared.now.job.metric book.old.metrics ≡ Some m
        → IsTurnOf m prepared.now made.now book.old.taken turn) }
    ensures sure { IfOk result (λ turn. (m : Shelved) → metric_of prepared.now.job.metric book.old.metrics ≡ Some m
        → length book.old.taken + (length m.chunks + length turn.item.changes) ≤ book.new.spare) }
    ensures body { IfOk result (λ turn. (length turn.body.items ≤ pair.new.spare) × (1 ≤ pair.new.spare)) }
    ensures pair { pair.new ≡ record pair.old { spare = pair.new.spare } }
    ensures book { (book.new.metrics ≡ book.old.metrics) × (book.new.taken ≡ book.old.taken) }
    ensures spare { book.old.spare ≤ book.new.spare }
{
    let cut = cut_turn(alloc, book, prepared, made)?;
    let turn = spelled_turn(alloc, prepared, made, cut, book)?;
    make_sure(pair, book, prepared, &turn)?;
    Ok(turn)
}

/// Makes the memory for the record of a turn sure, and for giving back what the turn takes and frees.
fn make_sure<D: Disk>(
    pair: &mut LogPair<D>,
    book: &mut Book,
    prepared: &Prepared,
    turn: &Turn,
) -> Result<(), Memory>
    requires whole { pair.old.broken ≡ false }
    requires live { IsSome (metric_of prepared.now.job.metric book.old.metrics) }
    ensures gives { OnOk result ((m : Shelved) → metric_of prepared.now.job.metric book.old.metrics ≡ Some m
        → length book.old.taken + (length m.chunks + length turn.now.item.changes) ≤ book.new.spare) }
    ensures body { OnOk result ((length turn.now.body.items ≤ pair.new.spare) × (1 ≤ pair.new.spare)) }
    ensures pair { pair.new ≡ record pair.old { spare = pair.new.spare } }
    ensures book { (book.new.metrics ≡ book.old.metrics) × (book.new.taken ≡ book.old.taken) }
    ensures spare { book.old.spare ≤ book.new.spare }
{
    reserve_gives(book, prepared, &turn.item)?;
    pair.reserve(turn.body.len() as u64)?;
    Ok(())
}

/// What is written for the pieces and the changes of a turn: with its record, and room for a slot of the disk.
fn spelled_turn(
    alloc: Global,
    prepared: &Prepared,
    made: &[Made],
    cut: Cut,
    book: &Book,
) -> Result<Turn, Memory>
    requires fit { FitsTurn book.now.metrics prepared.now made.now }
    requires taken { AreTaken prepared.now made.now book.now.taken }
    requires cut { (m : Shelved) → metric_of prepared.now.job.metric book.now.metrics ≡ Some m → IsCut m prepared.now made.now book.now.taken cut }
    ensures { IfOk result (λ turn. (m : Shelved) → metric_of prepared.now.job.metric book.now.metrics ≡ Some m
        → IsTurnOf m prepared.now made.now book.now.taken turn) }
{
    let Cut {
        pieces,
        chunks,
        changes,
        series,
    } = cut;
    let (item, body) = spelled(alloc, item_of(prepared, chunks, changes))?;
    let buffer = Vec::with_capacity(alloc, SLOT)?;
    written_turn_is_held();
    Ok(Turn {
        pieces,
        buffer,
        body,
        item,
        series,
    })
}

/// The pieces of a turn at the slots that were taken, and what becomes of the series of its metric.
fn cut_turn(alloc: Global, book: &Book, prepared: &Prepared, made: &[Made]) -> Result<Cut, Memory>
    requires fit { FitsTurn book.now.metrics prepared.now made.now }
    requires taken { AreTaken prepared.now made.now book.now.taken }
    ensures { IfOk result (λ cut. (m : Shelved) → metric_of prepared.now.job.metric book.now.metrics ≡ Some m
        → IsCut m prepared.now made.now book.now.taken cut) }
{
    let Some(filed) = book.get(prepared.job().metric()) else {
        unreachable!();
    };
    // the metric as it is filed, and a list for each definition and kind
    let _id = filed.id();
    let points = prepared.raw().points();
    let taken = book.taken();
    let (own, others) = taken.split_at(chunks_for(points.len()));
    let mut pieces = raw_pieces(alloc, points, own, taken.len())?;
    let chunks = blocks_of(alloc, &pieces)?;
    let turned = turn_all(alloc, filed, made, others, &mut pieces)?;
    let changes = changes_of_moves(alloc, filed.policy(), &turned.moves)?;
    Ok(Cut {
        pieces,
        chunks,
        changes,
        series: turned.series,
    })
}

/// The blocks of pieces.
fn blocks_of(alloc: Global, pieces: &[Piece]) -> Result<Vec<Block>, Memory>
    requires { All IsPiece pieces.now }
    ensures { IfOk result (λ blocks. blocks.items ≡ map block_of pieces.now) }
{
    let mut blocks = Vec::with_capacity(alloc, pieces.len())?;
    for piece in pieces {
        blocks.push(Block {
            at: piece.at,
            len: piece.bytes.len() as u32,
        })?;
    }
    Ok(blocks)
}

/// The record of a turn.
fn item_of(prepared: &Prepared, chunks: Vec<Block>, changes: Vec<Change>) -> CommitItem
    ensures { result ≡ item_of prepared.now chunks.items changes.items }
{
    let job = prepared.job();
    let raw = prepared.raw();
    CommitItem {
        metric: job.metric(),
        done: job.upto(),
        last: raw.last(),
        anchor: raw.anchor(),
        chunks: List::of(chunks),
        changes: List::of(changes),
    }
}

/// A record, and how it is spelled.
fn spelled(alloc: Global, item: CommitItem) -> Result<(CommitItem, Vec<u8>), Memory>
    ensures item { IfOk result (λ both. both.0 ≡ item) }
    ensures body { IfOk result (λ both. both.1.items ≡ shelf_bytes (items.Commit item)) }
    ensures has { OnOk result (IsWritable (items.Commit item) → IsShelf (items.Commit item)) }
{
    let spoken = ShelfItem::Commit(item);
    let body = write_shelf(alloc, &spoken)?;
    let item = commit_in(spoken);
    Ok((item, body))
}

/// The commit that a record is.
fn commit_in(item: ShelfItem) -> CommitItem
    requires { (c : CommitView) × (item ≡ items.Commit c) }
    ensures { item ≡ items.Commit result }
{
    match item {
        ShelfItem::Commit(commit) => commit,
        _ => unreachable!(),
    }
}

/// Makes giving back what a turn takes and what it frees sure of its memory.
fn reserve_gives(book: &mut Book, prepared: &Prepared, item: &CommitItem) -> Result<(), Memory>
    requires live { IsSome (metric_of prepared.now.job.metric book.old.metrics) }
    ensures sure { OnOk result ((m : Shelved) → metric_of prepared.now.job.metric book.old.metrics ≡ Some m
        → length book.old.taken + (length m.chunks + length item.now.changes) ≤ book.new.spare) }
    ensures book { (book.new.metrics ≡ book.old.metrics) × (book.new.taken ≡ book.old.taken) }
    ensures spare { book.old.spare ≤ book.new.spare }
{
    let Some(filed) = book.get(prepared.job().metric()) else {
        unreachable!();
    };
    let chunks = filed.chunks().len();
    let gives = sum_of(chunks, item.changes.items().len(), book.taken().len()).ok_or(Memory)?;
    book.reserve_gives(gives)
}

/// The sum of three counts, unless it is too large.
fn sum_of(a: usize, b: usize, c: usize) -> Option<usize>
    ensures { IfSome result (λ sum. sum ≡ a + b + c) }
{
    a.checked_add(b)?.checked_add(c)
}
