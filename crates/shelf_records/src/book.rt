// The book of the live metrics of a shelf.
ghost use Rattle.std.specs.Prelude.{◌≡◌, ◌≢◌, ◌↔◌, ◌+◌, ◌%◌, ◌^◌, ◌<◌, ◌≤◌, ◌∷◌, ◌++◌, ℕ, List, [], All, AllPairs, Contains, IfOk, IfErr, IfSome, IfNone, IsSome, MatchOption, OnOk, OnErr, None, Some, length, map, vec_len, vec_capacity, option_to_list, take, drop, slice_get, true, false};
ghost use Rattle.std.specs.Bool.{OnTrue, OnFalse};
ghost use Rattle.std.specs.List.Sorted.{IsStrictlyIncreasing};
ghost use Rattle.series_model.specs.declared.metric.MetricId.{MetricId};
ghost use Rattle.gno_codec.specs.declared.item.ShelfItem.TheVariants as items;
ghost use Rattle.gno_codec.specs.Shelf.{ComesBefore, IsShelf};
ghost use Rattle.shelf_records.specs.Book.{IsPlaceOf, blocks_of_kept, changed_blocks, freed_blocks, new_blocks, places_of};
ghost use Rattle.shelf_records.specs.Shelved.{AreBlocks, IsInSlot, MayFollow, Shelved, after_record, blocks_in_use, blocks_of_metric, committed, kept_after, metric_of, registered};
ghost use Rattle.shelf_records.specs.Slots.{AreFirstFree, AreHeld, IsWithin};

use crate::follow::{FollowFault, are_in_slots, claim_blocks, fits, new_blocks};
use crate::slots::{give_blocks, give_slot, give_slots, take_slots};
use crate::{Filed, Series};
use archive_policy::Policy;
use extent_map::Extents;
use gno_codec::{Block, Change, CommitItem, ShelfItem};
use gno_num::Memory;
use series_model::MetricId;
use std::alloc::Global;
use std::marker::Model;

/// The live metrics by rising identifier, and the slots of the disk of blocks that are held: those of the
/// blocks in use, and those that were taken for blocks to come.
#[derive(Drop)]
pub struct Book {
    ids: Vec<MetricId>,
    metrics: Vec<Filed>,
    used: Extents,
    taken: Vec<u64>,
    /// How many of the taken slots are held: all, if a disk can reach their ends.
    held: usize,
}

impl Model for Book {
    ghost use Rattle.shelf_records.specs.Book.{BookView, IsBook, book_view};

    ghost Value = { BookView };

    ghost view = { book_view };

    ghost invariant = { IsBook };
}

impl Book {
    /// No metrics, and nothing held.
    pub fn new(alloc: Global) -> Book
        ensures metrics { result.metrics ≡ [] }
        ensures taken { result.taken ≡ [] }
    {
        Book {
            ids: Vec::new(alloc),
            metrics: Vec::new(alloc),
            used: Extents::new(alloc),
            taken: Vec::new(alloc),
            held: 0,
        }
    }

    /// The identifiers of the live metrics, which rise.
    pub fn metrics(&self) -> &[MetricId]
        ensures value { result.now ≡ map (λ m. m.id) self.now.metrics }
        ensures rising { IsStrictlyIncreasing (map (λ m. m.id.0) self.now.metrics) }
    {
        self.ids.as_slice()
    }

    /// The metric with this identifier, if it is live. It is looked for by halves.
    pub fn get(&self, id: MetricId) -> Option<&Filed>
        ensures { MatchOption result (metric_of id self.now.metrics ≡ None) (λ filed. metric_of id self.now.metrics ≡ Some filed.now) }
    {
        match self.place(id) {
            Some(place) => Some(&self.metrics[place]),
            None => None,
        }
    }

    /// The book after a record of the shelf's log, as mounting reads it: `Damaged` comes exactly where it
    /// isn't a record of these metrics, or its blocks aren't apart or not on a disk of so many bytes.
    pub fn follow(self, alloc: Global, item: ShelfItem, size: u64) -> Result<Book, FollowFault>
        requires none { self.taken ≡ [] }
        requires size { size ≤ 2 ^ 60 }
        requires shelf { IsShelf item }
        requires blocks { AreBlocks size self.metrics }
        ensures ok { IfOk result (λ book. book.metrics ≡ after_record self.metrics item) }
        ensures taken { IfOk result (λ book. book.taken ≡ []) }
        ensures legal { IfOk result (λ book. MayFollow self.metrics item × AreBlocks size book.metrics) }
        ensures damaged { IfErr result (λ fault. fault ≡ FollowFault.Damaged → MayFollow self.metrics item
            → AreBlocks size (after_record self.metrics item) → ⊥) }
    {
        match item {
            ShelfItem::Register {
                metric,
                done,
                policy,
            } => self.follow_register(alloc, metric, done, policy),
            ShelfItem::Commit(item) => self.follow_commit(alloc, item, size),
            ShelfItem::Drop { metric } => self.follow_drop(metric),
        }
    }

    /// The book after a metric was registered.
    fn follow_register(
        mut self,
        alloc: Global,
        id: MetricId,
        done: u64,
        policy: Policy,
    ) -> Result<Book, FollowFault>
        requires { self.taken ≡ [] }
        ensures ok { IfOk result (λ book. book.metrics ≡ after_record self.metrics (items.Register id done policy)) }
        ensures taken { IfOk result (λ book. book.taken ≡ []) }
        ensures legal { IfOk result (λ book. (metric_of id self.metrics ≡ None) × (blocks_in_use book.metrics ≡ blocks_in_use self.metrics)) }
        ensures damaged { IfErr result (λ fault. fault ≡ FollowFault.Damaged → metric_of id self.metrics ≡ None → ⊥) }
    {
        if self.get(id).is_some() {
            return Err(FollowFault::Damaged);
        }
        let filed = Filed::new(alloc, id, done, policy)?;
        self.reserve_metric()?;
        self.register(filed);
        Ok(self)
    }

    /// The book after a metric was dropped.
    fn follow_drop(mut self, id: MetricId) -> Result<Book, FollowFault>
        requires { self.taken ≡ [] }
        ensures ok { IfOk result (λ book. book.metrics ≡ after_record self.metrics (items.Drop id)) }
        ensures taken { IfOk result (λ book. book.taken ≡ []) }
        ensures legal { IfOk result (λ book. IsSome (metric_of id self.metrics)
            × ((size : ℕ) → AreBlocks size self.metrics → AreBlocks size book.metrics)) }
        ensures damaged { IfErr result (λ fault. fault ≡ FollowFault.Damaged → IsSome (metric_of id self.metrics) → ⊥) }
    {
        if self.get(id).is_none() {
            return Err(FollowFault::Damaged);
        }
        self.reserve_drop(id)?;
        self.drop_metric(id);
        Ok(self)
    }

    /// The book after a commit.
    fn follow_commit(self, alloc: Global, item: CommitItem, size: u64) -> Result<Book, FollowFault>
        requires none { self.taken ≡ [] }
        requires size { size ≤ 2 ^ 60 }
        requires order { AllPairs ComesBefore item.changes }
        requires blocks { AreBlocks size self.metrics }
        ensures ok { IfOk result (λ book. book.metrics ≡ after_record self.metrics (items.Commit item)) }
        ensures taken { IfOk result (λ book. book.taken ≡ []) }
        ensures legal { IfOk result (λ book. MayFollow self.metrics (items.Commit item) × AreBlocks size book.metrics) }
        ensures damaged { IfErr result (λ fault. fault ≡ FollowFault.Damaged → MayFollow self.metrics (items.Commit item)
            → AreBlocks size (after_record self.metrics (items.Commit item)) → ⊥) }
    {
        let Some(place) = self.place(item.metric) else {
            return Err(FollowFault::Damaged);
        };
        if !fits(&self.metrics[place], &item) {
            return Err(FollowFault::Damaged);
        }
        let blocks = new_blocks(alloc, &item)?;
        if !are_in_slots(&blocks, size) {
            return Err(FollowFault::Damaged);
        }
        self.turn(place, item, &blocks)
    }

    /// The book after a commit of the metric at a place, whose blocks stand in slots of a disk.
    fn turn(self, place: usize, item: CommitItem, blocks: &[Block]) -> Result<Book, FollowFault>
        requires none { self.taken ≡ [] }
        requires place { IsPlaceOf item.metric self.metrics place }
        requires live { MayFollow self.metrics (items.Commit item) }
        requires order { AllPairs ComesBefore item.changes }
        requires blocks { blocks.now ≡ new_blocks item }
        requires slots { (size : ℕ) × ((size ≤ 2 ^ 60) × All (IsInSlot size) blocks.now) }
        ensures ok { IfOk result (λ book. book.metrics ≡ after_record self.metrics (items.Commit item)) }
        ensures taken { IfOk result (λ book. book.taken ≡ []) }
        ensures blocks { IfOk result (λ book. (size : ℕ) → AreBlocks size self.metrics → All (IsInSlot size) blocks.now
            → AreBlocks size book.metrics) }
        ensures damaged { IfErr result (λ fault. fault ≡ FollowFault.Damaged → (size : ℕ)
            → AreBlocks size (after_record self.metrics (items.Commit item)) → ⊥) }
    {
        let Book {
            ids,
            mut metrics,
            mut used,
            taken,
            held,
        } = self;
        let followed = follow_at(&mut used, &mut metrics[place], item, blocks)?;
        if !followed {
            return Err(FollowFault::Damaged);
        }
        Ok(Book {
            ids,
            metrics,
            used,
            taken,
            held,
        })
    }

    /// The place of a live metric.
    fn place(&self, id: MetricId) -> Option<usize>
        ensures { MatchOption result (metric_of id self.now.metrics ≡ None) (λ place. IsPlaceOf id self.now.metrics place) }
    {
        place_of(self.ids.as_slice(), id)
    }

    /// The slots that were taken, in order.
    pub fn taken(&self) -> &[u64]
        ensures value { result.now ≡ self.now.taken }
    {
        self.taken.as_slice()
    }

    /// Takes so many slots for blocks to come, the first free ones in order, and makes giving them back
    /// and so many more gives sure of their memory. After `Memory` all is as before.
    pub fn take_slots(&mut self, count: usize, gives: usize) -> Result<(), Memory>
        requires none { self.old.taken ≡ [] }
        ensures metrics { self.new.metrics ≡ self.old.metrics }
        ensures count { OnOk result (length self.new.taken ≡ count) }
        ensures first { OnOk result (AreFirstFree (places_of (blocks_in_use self.old.metrics)) self.new.taken) }
        ensures sure { OnOk result (count + gives ≤ self.new.spare) }
        ensures err { OnErr result (self.new.taken ≡ []) }
    {
        let Some(sure) = count.checked_add(gives) else {
            return Err(Memory);
        };
        self.used.reserve(sure as u64)?;
        self.taken.resize(count, 0)?;
        self.held = take_slots(&mut self.used, self.taken.as_mut_slice());
        Ok(())
    }

    /// Makes so many gives sure of their memory, beside what is sure already. After `Memory` all is as before.
    pub fn reserve_gives(&mut self, gives: usize) -> Result<(), Memory>
        ensures metrics { self.new.metrics ≡ self.old.metrics }
        ensures taken { self.new.taken ≡ self.old.taken }
        ensures spare { self.old.spare ≤ self.new.spare }
        ensures sure { OnOk result (gives ≤ self.new.spare) }
    {
        self.used.reserve(gives as u64)?;
        Ok(())
    }

    /// Settles a commit of a live metric, whose record is on its disk: the metric is as it is after the
    /// commit, the blocks of before that it moves away from or drops are free, and those at the taken
    /// slots are in use. It takes no memory.
    pub fn settle(&mut self, item: CommitItem, kept: Vec<Series>)
        requires live { MayFollow self.old.metrics (items.Commit item) }
        requires order { AllPairs ComesBefore item.changes }
        requires kept { (m : Shelved) → metric_of item.metric self.old.metrics ≡ Some m
            → kept.items ≡ map (λ k. k.splits) (map (kept_after item.changes) m.kept) }
        requires taken { places_of (new_blocks item) ≡ self.old.taken }
        requires within { All IsWithin self.old.taken }
        requires sure { (m : Shelved) → metric_of item.metric self.old.metrics ≡ Some m
            → length m.chunks + length item.changes ≤ self.old.spare }
        ensures metrics { self.new.metrics ≡ after_record self.old.metrics (items.Commit item) }
        ensures taken { self.new.taken ≡ [] }
        ensures blocks { (size : ℕ) → AreBlocks size self.old.metrics → All (IsInSlot size) (new_blocks item)
            → AreBlocks size self.new.metrics }
    {
        let Some(place) = self.place(item.metric) else {
            unreachable!();
        };
        give_freed(&mut self.used, &self.metrics[place], item.changes.items());
        self.metrics[place].settle(item, kept);
        self.taken.clear();
        self.held = 0;
    }

    /// Makes the memory for one metric more sure. After `Memory` all is as before.
    pub fn reserve_metric(&mut self) -> Result<(), Memory>
        ensures metrics { self.new.metrics ≡ self.old.metrics }
        ensures taken { self.new.taken ≡ self.old.taken }
        ensures spare { self.new.spare ≡ self.old.spare }
        ensures ok { OnOk result (1 ≤ self.new.room) }
    {
        self.ids.reserve(1)?;
        self.metrics.reserve(1)?;
        Ok(())
    }

    /// A metric is live from now on, as it is registered. It takes no memory.
    pub fn register(&mut self, filed: Filed)
        requires absent { metric_of filed.id self.old.metrics ≡ None }
        requires registered { filed ≡ registered filed.id filed.done filed.policy }
        requires room { 1 ≤ self.old.room }
        ensures metrics { self.new.metrics ≡ after_record self.old.metrics (items.Register filed.id filed.done filed.policy) }
        ensures taken { self.new.taken ≡ self.old.taken }
        ensures spare { self.new.spare ≡ self.old.spare }
        ensures blocks { blocks_in_use self.new.metrics ≡ blocks_in_use self.old.metrics }
    {
        let id = filed.id();
        let place = count_before(self.ids.as_slice(), id);
        put_id(&mut self.ids, place, id);
        put_metric(&mut self.metrics, place, filed);
    }

    /// Makes giving the blocks of a live metric back sure of its memory. After `Memory` all is as before.
    pub fn reserve_drop(&mut self, id: MetricId) -> Result<(), Memory>
        requires { IsSome (metric_of id self.old.metrics) }
        ensures metrics { self.new.metrics ≡ self.old.metrics }
        ensures taken { self.new.taken ≡ self.old.taken }
        ensures ok { OnOk result ((m : Shelved) → metric_of id self.old.metrics ≡ Some m → length (blocks_of_metric m) ≤ self.new.spare) }
    {
        let Some(place) = self.place(id) else {
            unreachable!();
        };
        let Some(count) = self.metrics[place].block_count() else {
            return Err(Memory);
        };
        self.used.reserve(count)?;
        Ok(())
    }

    /// A metric is live no longer, and its blocks are free. It takes no memory.
    pub fn drop_metric(&mut self, id: MetricId)
        requires live { IsSome (metric_of id self.old.metrics) }
        requires sure { (m : Shelved) → metric_of id self.old.metrics ≡ Some m → length (blocks_of_metric m) ≤ self.old.spare }
        ensures metrics { self.new.metrics ≡ after_record self.old.metrics (items.Drop id) }
        ensures taken { self.new.taken ≡ self.old.taken }
        ensures blocks { (size : ℕ) → AreBlocks size self.old.metrics → AreBlocks size self.new.metrics }
    {
        let Some(place) = self.place(id) else {
            unreachable!();
        };
        give_metric(&mut self.used, &self.metrics[place]);
        self.ids.remove(place);
        self.metrics.remove(place);
    }

    /// Gives the taken slots back, without memory.
    pub fn release(&mut self)
        requires sure { length self.old.taken ≤ self.old.spare }
        ensures metrics { self.new.metrics ≡ self.old.metrics }
        ensures taken { self.new.taken ≡ [] }
        ensures spare { self.old.spare ≤ self.new.spare + length self.old.taken }
    {
        give_slots(&mut self.used, &self.taken[..self.held]);
        self.taken.clear();
        self.held = 0;
    }
}

/// Makes of a metric what a commit makes of it: the blocks that it frees are given back, and then its own
/// slots are taken, unless one of them is held.
fn follow_at(
    used: &mut Extents,
    filed: &mut Filed,
    item: CommitItem,
    blocks: &[Block],
) -> Result<bool, Memory>
    requires held { (slots : List ℕ) × AreHeld (places_of (freed_blocks filed.old item.changes) ++ slots) used.old }
    requires slots { (size : ℕ) × ((size ≤ 2 ^ 60) × All (IsInSlot size) blocks.now) }
    ensures followed { IfOk result (λ followed. OnTrue followed (filed.new ≡ committed item filed.old)) }
    ensures held { IfOk result (λ followed. OnTrue followed ((slots : List ℕ)
        → AreHeld (places_of (freed_blocks filed.old item.changes) ++ slots) used.old → AreHeld (places_of blocks.now ++ slots) used.new)) }
    ensures refused { IfOk result (λ followed. OnFalse followed ((slots : List ℕ)
        → AreHeld (places_of (freed_blocks filed.old item.changes) ++ slots) used.old
        → AllPairs (λ a b. a ≢ b) (places_of blocks.now ++ slots) → ⊥)) }
{
    let Some(gives) = filed.chunks().len().checked_add(item.changes.items().len()) else {
        return Err(Memory);
    };
    used.reserve(gives as u64)?;
    give_freed(used, filed, item.changes.items());
    let claimed = claim_blocks(used, blocks)?;
    if !claimed {
        return Ok(false);
    }
    filed.follow(item)?;
    Ok(true)
}

/// Puts an identifier in at a place, where there is room.
fn put_id(ids: &mut Vec<MetricId>, place: usize, id: MetricId)
    requires within { place ≤ length ids.old.items }
    requires room { vec_len ids.old < vec_capacity ids.old }
    ensures { ids.new.items ≡ take place ids.old.items ++ id ∷ drop place ids.old.items }
{
    if ids.insert(place, id).is_err() {
        unreachable!();
    }
}

/// Puts a metric in at a place, where there is room.
fn put_metric(metrics: &mut Vec<Filed>, place: usize, filed: Filed)
    requires within { place ≤ length metrics.old.items }
    requires room { vec_len metrics.old < vec_capacity metrics.old }
    ensures { metrics.new.items ≡ take place metrics.old.items ++ filed ∷ drop place metrics.old.items }
{
    if metrics.insert(place, filed).is_err() {
        unreachable!();
    }
}

/// Gives back the blocks of a metric, without memory.
fn give_metric(used: &mut Extents, filed: &Filed)
    requires held { (slots : List ℕ) × AreHeld (places_of (blocks_of_metric filed.now) ++ slots) used.old }
    requires sure { length (blocks_of_metric filed.now) ≤ used.old.spare }
    ensures { (slots : List ℕ) → AreHeld (places_of (blocks_of_metric filed.now) ++ slots) used.old → AreHeld slots used.new }
{
    give_blocks(used, filed.chunks());
    give_kept(used, filed);
}

/// Gives back the blocks of a metric's splits, without memory.
fn give_kept(used: &mut Extents, filed: &Filed)
    requires held { (slots : List ℕ) × AreHeld (places_of (blocks_of_kept filed.now.kept) ++ slots) used.old }
    requires sure { length (blocks_of_kept filed.now.kept) ≤ used.old.spare }
    ensures { (slots : List ℕ) → AreHeld (places_of (blocks_of_kept filed.now.kept) ++ slots) used.old → AreHeld slots used.new }
{
    for place in 0..filed.count() {
        give_blocks(used, filed.series(place).blocks());
    }
}

/// Gives back the blocks that changes of a metric free, without memory.
fn give_freed(used: &mut Extents, filed: &Filed, changes: &[Change])
    requires held { (slots : List ℕ) × AreHeld (places_of (freed_blocks filed.now changes.now) ++ slots) used.old }
    requires sure { length filed.now.chunks + length changes.now ≤ used.old.spare }
    ensures { (slots : List ℕ) → AreHeld (places_of (freed_blocks filed.now changes.now) ++ slots) used.old → AreHeld slots used.new }
{
    give_blocks(used, filed.chunks());
    give_changed(used, filed, changes);
}

/// Gives back the blocks that changes of splits free, without memory.
fn give_changed(used: &mut Extents, filed: &Filed, changes: &[Change])
    requires held { (slots : List ℕ) × AreHeld (places_of (changed_blocks filed.now changes.now) ++ slots) used.old }
    requires sure { length changes.now ≤ used.old.spare }
    ensures { (slots : List ℕ) → AreHeld (places_of (changed_blocks filed.now changes.now) ++ slots) used.old → AreHeld slots used.new }
{
    for change in changes {
        give_block(
            used,
            filed.block_of(change.definition, change.kind, change.key),
        );
    }
}

/// Gives the slot of a block back, if there is one, without memory.
fn give_block(used: &mut Extents, block: Option<Block>)
    requires held { (slots : List ℕ) × AreHeld (places_of (option_to_list block) ++ slots) used.old }
    requires sure { 1 ≤ used.old.spare }
    ensures held { (slots : List ℕ) → AreHeld (places_of (option_to_list block) ++ slots) used.old → AreHeld slots used.new }
    ensures spare { used.old.spare ≤ used.new.spare + 1 }
{
    if let Some(block) = block {
        give_slot(used, block.at);
    }
}

/// The place of an identifier among rising ones.
fn place_of(ids: &[MetricId], id: MetricId) -> Option<usize>
    requires { IsStrictlyIncreasing (map (λ x. x.0) ids.now) }
    ensures some { IfSome result (λ place. slice_get ids.now place ≡ Some id) }
    ensures none { IfNone result (All (λ x. x.0 ≢ id.0) ids.now) }
{
    let place = count_before(ids, id);
    if is_at(ids, place, id) {
        Some(place)
    } else {
        None
    }
}

/// How many identifiers are before one. They are looked for by halves.
pub(crate) fn count_before(ids: &[MetricId], id: MetricId) -> usize
    requires { IsStrictlyIncreasing (map (λ x. x.0) ids.now) }
    ensures within { result ≤ length ids.now }
    ensures before { All (λ x. x.0 < id.0) (take result ids.now) }
    ensures behind { All (λ x. id.0 ≤ x.0) (drop result ids.now) }
{
    ids.partition_point(|x| x.0 < id.0)
}

/// Whether this identifier stands at a place.
fn is_at(ids: &[MetricId], place: usize, id: MetricId) -> bool
    ensures there { result ≡ true → slice_get ids.now place ≡ Some id }
    ensures absent { result ≡ false → slice_get ids.now place ≢ Some id }
{
    match ids.get(place) {
        Some(found) => found.0 == id.0,
        None => false,
    }
}
