// The records of the shelf's log.
ghost use Rattle.std.specs.Prelude.{◌≡◌, ◌≢◌, ◌<◌, ◌*◌, ◌^◌, ◌++◌, ℕ, length, All, IfSome, IfOk, OnOk, None, Ok, Err};
ghost use Rattle.std.specs.List.{flat_map};
ghost use Rattle.byteorder.specs.Endian.{big_bytes};
ghost use Rattle.gno_codec.specs.declared.item.ShelfItem.{ShelfItem};
ghost use Rattle.gno_codec.specs.Incoming.{measure_bytes, IsMeasure};
ghost use Rattle.gno_codec.specs.Shelf.{optional_bytes, last_bytes, block_bytes, blocks_bytes, stored_bytes, change_bytes, changes_bytes, register_bytes, commit_bytes, drop_bytes, shelf_bytes, HasLength, IsBlock, IsChange, IsRegister, IsOrderly, IsCommit, IsShelf, IsWritable};
ghost use Rattle.gno_codec.specs.Reading.{Answers, Gives, by_kind, optional_at, items_at, last_of};
ghost use Rattle.gno_codec.specs.IncomingReading.{measure_at};
ghost use Rattle.gno_codec.specs.ShelfReading.{last_at, block_at, blocks_at, stored_at, kind_at, change_at, comes_behind_by_kind, comes_behind, is_behind, change_after, changes_at, register_at, commit_at, drop_at, shelf_kinds, shelf_of};

use crate::incoming::{put_measure, read_measure};
use crate::policy::{put_policy, read_policy};
use crate::reading::Reader;
use crate::writing::{put_u8, put_u32, put_u64, put_u128};
use crate::{Block, Change, CommitItem, ReadFault, ShelfItem};
use archive_policy::{Kind, Policy};
use gno_num::{List, Memory, Stamp};
use series_model::{Measure, MetricId};
use std::alloc::Global;

const REGISTER: u8 = 1;

const COMMIT: u8 = 2;

const DROP: u8 = 3;

const BLOCK_BYTES: usize = 12;

const CHANGE_BYTES: usize = 22;

// No timestamp.
const NONE: u64 = 0xffff_ffff_ffff_ffff;

// ---- written

/// The record of what happened to a metric of the shelf.
pub fn write_shelf(alloc: Global, item: &ShelfItem) -> Result<Vec<u8>, Memory>
    ensures bytes { IfOk result (λ bytes. bytes.items ≡ shelf_bytes item.now) }
    // What was written is a record, so it is read again, where its blocks have a length and its
    // changes come in order.
    ensures has { OnOk result (IsWritable item.now → IsShelf item.now) }
{
    match item {
        ShelfItem::Register {
            metric,
            done,
            policy,
        } => write_register(alloc, *metric, *done, policy),
        ShelfItem::Commit(commit) => write_commit(alloc, commit),
        ShelfItem::Drop { metric } => write_drop(alloc, *metric),
    }
}

fn write_register(
    alloc: Global,
    metric: MetricId,
    done: u64,
    policy: &Policy,
) -> Result<Vec<u8>, Memory>
    ensures bytes { IfOk result (λ bytes. bytes.items ≡ register_bytes metric.0 done policy.now) }
    ensures is { OnOk result (IsRegister metric.0 done policy.now) }
{
    let mut out = Vec::new(alloc);
    put_u8(&mut out, REGISTER)?;
    put_u128(&mut out, metric.0)?;
    put_u64(&mut out, done)?;
    put_policy(&mut out, policy)?;
    Ok(out)
}

fn write_drop(alloc: Global, metric: MetricId) -> Result<Vec<u8>, Memory>
    ensures bytes { IfOk result (λ bytes. bytes.items ≡ drop_bytes metric.0) }
    ensures is { OnOk result (metric.0 < 2 ^ 128) }
{
    let mut out = Vec::new(alloc);
    put_u8(&mut out, DROP)?;
    put_u128(&mut out, metric.0)?;
    Ok(out)
}

fn write_commit(alloc: Global, commit: &CommitItem) -> Result<Vec<u8>, Memory>
    ensures bytes { IfOk result (λ bytes. bytes.items ≡ commit_bytes commit.now) }
    ensures is { OnOk result (IsOrderly commit.now → IsCommit commit.now) }
{
    let chunks = commit.chunks.items();
    let changes = commit.changes.items();
    let mut out = Vec::with_capacity(alloc, commit_room(chunks.len(), changes.len()))?;
    put_u8(&mut out, COMMIT)?;
    put_turn(&mut out, commit)?;
    put_blocks(&mut out, chunks)?;
    put_changes(&mut out, changes)?;
    Ok(out)
}

// At least as many bytes as the record of a commit has.
fn commit_room(chunks: usize, changes: usize) -> usize {
    chunks
        .saturating_mul(12)
        .saturating_add(changes.saturating_mul(22))
        .saturating_add(66)
}

// What stands before the chunks of a commit.
fn put_turn(out: &mut Vec<u8>, commit: &CommitItem) -> Result<(), Memory>
    ensures bytes { OnOk result (out.new.items ≡ out.old.items ++ (big_bytes 16 commit.now.metric.0
        ++ big_bytes 8 commit.now.done ++ last_bytes commit.now.last ++ optional_bytes measure_bytes commit.now.anchor)) }
    ensures id { OnOk result (commit.now.metric.0 < 2 ^ 128) }
    ensures done { OnOk result (commit.now.done < 2 ^ 64) }
    ensures last { OnOk result (IfSome commit.now.last (λ at. at < 9 * 10 ^ 18)) }
    ensures anchor { OnOk result (IfSome commit.now.anchor IsMeasure) }
{
    put_u128(out, commit.metric.0)?;
    put_u64(out, commit.done)?;
    put_last(out, &commit.last)?;
    put_anchor(out, &commit.anchor)
}

fn put_last(out: &mut Vec<u8>, last: &Option<Stamp>) -> Result<(), Memory>
    ensures bytes { OnOk result (out.new.items ≡ out.old.items ++ last_bytes last.now) }
    ensures is { OnOk result (IfSome last.now (λ at. at < 9 * 10 ^ 18)) }
{
    match last {
        None => put_u64(out, NONE),
        Some(at) => put_u64(out, at.nanos()),
    }
}

fn put_anchor(out: &mut Vec<u8>, anchor: &Option<Measure>) -> Result<(), Memory>
    ensures bytes { OnOk result (out.new.items ≡ out.old.items ++ optional_bytes measure_bytes anchor.now) }
    ensures is { OnOk result (IfSome anchor.now IsMeasure) }
{
    match anchor {
        None => put_u8(out, 0),
        Some(measure) => {
            put_u8(out, 1)?;
            put_measure(out, measure)
        }
    }
}

fn put_block(out: &mut Vec<u8>, block: &Block) -> Result<(), Memory>
    ensures bytes { OnOk result (out.new.items ≡ out.old.items ++ block_bytes block.now) }
    ensures is { OnOk result (HasLength block.now → IsBlock block.now) }
{
    put_u64(out, block.at)?;
    put_u32(out, block.len)
}

fn put_blocks(out: &mut Vec<u8>, blocks: &[Block]) -> Result<(), Memory>
    ensures bytes { OnOk result (out.new.items ≡ out.old.items ++ blocks_bytes blocks.now) }
    ensures count { OnOk result (length blocks.now < 2 ^ 64) }
    ensures is { OnOk result (All HasLength blocks.now → All IsBlock blocks.now) }
{
    put_u64(out, blocks.len() as u64)?;
    put_each_block(out, blocks)
}

fn put_each_block(out: &mut Vec<u8>, blocks: &[Block]) -> Result<(), Memory>
    ensures bytes { OnOk result (out.new.items ≡ out.old.items ++ flat_map block_bytes blocks.now) }
    ensures is { OnOk result (All HasLength blocks.now → All IsBlock blocks.now) }
{
    for block in blocks {
        put_block(out, block)?;
    }
    Ok(())
}

fn put_stored(out: &mut Vec<u8>, block: &Option<Block>) -> Result<(), Memory>
    ensures bytes { OnOk result (out.new.items ≡ out.old.items ++ stored_bytes block.now) }
    ensures is { OnOk result (IfSome block.now HasLength → IfSome block.now IsBlock) }
{
    match block {
        None => {
            put_u64(out, 0)?;
            put_u32(out, 0)
        }
        Some(block) => put_block(out, block),
    }
}

fn put_change(out: &mut Vec<u8>, change: &Change) -> Result<(), Memory>
    ensures bytes { OnOk result (out.new.items ≡ out.old.items ++ change_bytes change.now) }
    ensures is { OnOk result (IfSome change.now.block HasLength → IsChange change.now) }
{
    put_u8(out, change.definition)?;
    put_u8(out, change.kind.index())?;
    put_u64(out, change.key.nanos())?;
    put_stored(out, &change.block)
}

fn put_changes(out: &mut Vec<u8>, changes: &[Change]) -> Result<(), Memory>
    ensures bytes { OnOk result (out.new.items ≡ out.old.items ++ changes_bytes changes.now) }
    ensures count { OnOk result (length changes.now < 2 ^ 64) }
    ensures is { OnOk result (All (λ change. IfSome change.block HasLength) changes.now → All IsChange changes.now) }
{
    put_u64(out, changes.len() as u64)?;
    put_each_change(out, changes)
}

fn put_each_change(out: &mut Vec<u8>, changes: &[Change]) -> Result<(), Memory>
    ensures bytes { OnOk result (out.new.items ≡ out.old.items ++ flat_map change_bytes changes.now) }
    ensures is { OnOk result (All (λ change. IfSome change.block HasLength) changes.now → All IsChange changes.now) }
{
    for change in changes {
        put_change(out, change)?;
    }
    Ok(())
}

// ---- read

/// The record that the bytes spell, all of them. `Bad` comes exactly where they spell none, and
/// gives the place of the first field that is cut off or out of its range (for a policy that can't
/// be made, and for a change that isn't behind the one before it, that of its first byte), or of
/// the first byte behind a whole record.
pub fn read_shelf(alloc: Global, bytes: &[u8]) -> Result<ShelfItem, ReadFault>
    // What is read is spelled so.
    ensures found { IfOk result (λ item. IsShelf item × (bytes.now ≡ shelf_bytes item)) }
    // What is spelled so is read, unless memory runs out.
    ensures only { (item : ShelfItem) → IsShelf item → bytes.now ≡ shelf_bytes item
        → Answers result (Ok item) }
    // What is refused is spelled by no record.
    ensures bad { (at : ℕ) → result ≡ Err (ReadFault.Bad at) → (item : ShelfItem) → IsShelf item
        → bytes.now ≢ shelf_bytes item }
    // Which fault it is.
    ensures exact { Answers result (shelf_of bytes.now) }
{
    read_all(alloc, bytes)
}

#[tactic(auto, unfolding(crate::specs::ShelfReading::shelf_of, crate::specs::Reading::whole))]
fn read_all(alloc: Global, bytes: &[u8]) -> Result<ShelfItem, ReadFault>
    ensures { Answers result (shelf_of bytes.now) }
{
    let mut reader = Reader::new(bytes);
    let item = read_item(alloc, &mut reader)?;
    if reader.is_at_end() {
        Ok(item)
    } else {
        Err(ReadFault::Bad { at: reader.at() })
    }
}

#[tactic(auto, unfolding(crate::specs::Reading::by_kind, crate::specs::Reading::standing_for, crate::specs::Reading::then_at, crate::specs::ShelfReading::shelf_kinds))]
fn read_item(alloc: Global, reader: &mut Reader<'_>) -> Result<ShelfItem, ReadFault>
    ensures { Gives (λ item. item) result reader.new (by_kind shelf_kinds reader.old) }
{
    let at = reader.at();
    match reader.u8()? {
        REGISTER => read_register(alloc, reader),
        COMMIT => read_commit(alloc, reader),
        DROP => read_drop(reader),
        _ => Err(ReadFault::Bad { at }),
    }
}

#[tactic(auto, unfolding(crate::specs::ShelfReading::register_at, crate::specs::Reading::then_at, crate::specs::Reading::done))]
fn read_register(alloc: Global, reader: &mut Reader<'_>) -> Result<ShelfItem, ReadFault>
    ensures { Gives (λ item. item) result reader.new (register_at reader.old) }
{
    let metric = MetricId(reader.u128()?);
    let done = reader.u64()?;
    let policy = read_policy(alloc, reader)?;
    Ok(ShelfItem::Register {
        metric,
        done,
        policy,
    })
}

#[tactic(auto, unfolding(crate::specs::ShelfReading::drop_at, crate::specs::Reading::then_at, crate::specs::Reading::done))]
fn read_drop(reader: &mut Reader<'_>) -> Result<ShelfItem, ReadFault>
    ensures { Gives (λ item. item) result reader.new (drop_at reader.old) }
{
    let metric = MetricId(reader.u128()?);
    Ok(ShelfItem::Drop { metric })
}

#[tactic(auto, unfolding(crate::specs::ShelfReading::commit_at, crate::specs::Reading::then_at, crate::specs::Reading::done))]
fn read_commit(alloc: Global, reader: &mut Reader<'_>) -> Result<ShelfItem, ReadFault>
    ensures { Gives (λ item. item) result reader.new (commit_at reader.old) }
{
    let metric = MetricId(reader.u128()?);
    let done = reader.u64()?;
    let last = read_last(reader)?;
    let anchor = read_anchor(reader)?;
    let chunks = read_blocks(alloc, reader)?;
    let changes = read_changes(alloc, reader)?;
    Ok(ShelfItem::Commit(CommitItem {
        metric,
        done,
        last,
        anchor,
        chunks: List::of(chunks),
        changes: List::of(changes),
    }))
}

#[tactic(auto, unfolding(crate::specs::ShelfReading::last_at, crate::specs::Reading::standing_for))]
fn read_last(reader: &mut Reader<'_>) -> Result<Option<Stamp>, ReadFault>
    ensures { Gives (λ last. last) result reader.new (last_at reader.old) }
{
    let at = reader.at();
    let nanos = reader.u64()?;
    match Stamp::of_nanos(nanos) {
        Some(last) => Ok(Some(last)),
        None if nanos == NONE => Ok(None),
        None => Err(ReadFault::Bad { at }),
    }
}

#[tactic(auto, unfolding(crate::specs::Reading::optional_at, crate::specs::Reading::then_at, crate::specs::Reading::done))]
fn read_anchor(reader: &mut Reader<'_>) -> Result<Option<Measure>, ReadFault>
    ensures { Gives (λ anchor. anchor) result reader.new (optional_at measure_at reader.old) }
{
    if reader.u8_to(1)? == 0 {
        return Ok(None);
    }
    let measure = read_measure(reader)?;
    Ok(Some(measure))
}

#[tactic(auto, unfolding(crate::specs::ShelfReading::blocks_at, crate::specs::Reading::then_at))]
fn read_blocks(alloc: Global, reader: &mut Reader<'_>) -> Result<Vec<Block>, ReadFault>
    ensures { Gives (λ blocks. blocks.items) result reader.new (blocks_at reader.old) }
{
    let count = reader.u64()?;
    read_so_many_blocks(alloc, count, reader)
}

fn read_so_many_blocks(
    alloc: Global,
    count: u64,
    reader: &mut Reader<'_>,
) -> Result<Vec<Block>, ReadFault>
    ensures { Gives (λ blocks. blocks.items) result reader.new (items_at (λ _. block_at) None count reader.old) }
{
    let mut blocks = Vec::with_capacity(alloc, reader.room_for(count, BLOCK_BYTES))?;
    for _ in 0..count {
        let block = read_block(reader)?;
        blocks.push(block)?;
    }
    Ok(blocks)
}

#[tactic(auto, unfolding(crate::specs::ShelfReading::block_at, crate::specs::Reading::then_at, crate::specs::Reading::done))]
fn read_block(reader: &mut Reader<'_>) -> Result<Block, ReadFault>
    ensures { Gives (λ block. block) result reader.new (block_at reader.old) }
{
    let at = reader.u64()?;
    let len = reader.u32_from(1)?;
    Ok(Block { at, len })
}

#[tactic(auto, unfolding(crate::specs::ShelfReading::changes_at, crate::specs::Reading::then_at))]
fn read_changes(alloc: Global, reader: &mut Reader<'_>) -> Result<Vec<Change>, ReadFault>
    ensures { Gives (λ changes. changes.items) result reader.new (changes_at reader.old) }
{
    let count = reader.u64()?;
    read_so_many_changes(alloc, count, reader)
}

fn read_so_many_changes(
    alloc: Global,
    count: u64,
    reader: &mut Reader<'_>,
) -> Result<Vec<Change>, ReadFault>
    ensures { Gives (λ changes. changes.items) result reader.new (items_at change_after None count reader.old) }
{
    let mut changes = Vec::with_capacity(alloc, reader.room_for(count, CHANGE_BYTES))?;
    for _ in 0..count {
        let change = read_change(changes.as_slice(), reader)?;
        changes.push(change)?;
    }
    Ok(changes)
}

#[tactic(auto, unfolding(crate::specs::ShelfReading::change_after, crate::specs::Reading::tested))]
fn read_change(before: &[Change], reader: &mut Reader<'_>) -> Result<Change, ReadFault>
    ensures { Gives (λ change. change) result reader.new (change_after (last_of before.now) reader.old) }
{
    let at = reader.at();
    let change = read_change_fields(reader)?;
    if is_behind(before, &change) {
        Ok(change)
    } else {
        Err(ReadFault::Bad { at })
    }
}

#[tactic(auto, unfolding(crate::specs::ShelfReading::change_at, crate::specs::Reading::then_at, crate::specs::Reading::done))]
fn read_change_fields(reader: &mut Reader<'_>) -> Result<Change, ReadFault>
    ensures { Gives (λ change. change) result reader.new (change_at reader.old) }
{
    let definition = reader.u8()?;
    let kind = read_kind(reader)?;
    let key = reader.stamp()?;
    let block = read_stored(reader)?;
    Ok(Change {
        definition,
        kind,
        key,
        block,
    })
}

// Whether a change comes behind the one before it.
fn is_behind(before: &[Change], change: &Change) -> bool
    ensures { result ≡ is_behind (last_of before.now) change.now }
{
    match before {
        [] => true,
        [.., last] => comes_behind(last, change),
    }
}

fn comes_behind(last: &Change, change: &Change) -> bool
    ensures { result ≡ comes_behind last.now change.now }
{
    last.definition < change.definition
        || last.definition == change.definition && comes_behind_by_kind(last, change)
}

fn comes_behind_by_kind(last: &Change, change: &Change) -> bool
    ensures { result ≡ comes_behind_by_kind last.now change.now }
{
    let last_kind = last.kind.index();
    let kind = change.kind.index();
    last_kind < kind || last_kind == kind && last.key.nanos() < change.key.nanos()
}

#[tactic(auto, unfolding(crate::specs::ShelfReading::kind_at, crate::specs::Reading::standing_for))]
fn read_kind(reader: &mut Reader<'_>) -> Result<Kind, ReadFault>
    ensures { Gives (λ kind. kind) result reader.new (kind_at reader.old) }
{
    let at = reader.at();
    let place = reader.u8()?;
    match Kind::of_index(place) {
        Some(kind) => Ok(kind),
        None => Err(ReadFault::Bad { at }),
    }
}

#[tactic(auto, unfolding(crate::specs::ShelfReading::stored_at, crate::specs::Reading::then_at, crate::specs::Reading::done))]
fn read_stored(reader: &mut Reader<'_>) -> Result<Option<Block>, ReadFault>
    ensures { Gives (λ block. block) result reader.new (stored_at reader.old) }
{
    let at = reader.u64()?;
    let len = reader.u32_from(u32::from(at != 0))?;
    if len == 0 {
        Ok(None)
    } else {
        Ok(Some(Block { at, len }))
    }
}
