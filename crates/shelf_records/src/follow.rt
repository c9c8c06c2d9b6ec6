// The records of a shelf's log, one after another, as mounting reads them.
ghost use Rattle.std.specs.Prelude.{◌≡◌, ◌≢◌, ◌↔◌, ◌+◌, ◌^◌, ◌≤◌, ◌%◌, ◌++◌, ℕ, List, [], All, AllPairs, IfOk, IfErr, IsTrue, OnOk, Some, option_to_list, slice_get};
ghost use Rattle.std.specs.Bool.{OnTrue, OnFalse};
ghost use Rattle.archive_policy.specs.Kinds.{is_among};
ghost use Rattle.archive_policy.specs.Policies.{IsDefinition};
ghost use Rattle.series_model.specs.Stored.{split_span};
ghost use Rattle.gno_codec.specs.Shelf.{ComesBefore, IsShelf};
ghost use Rattle.gno_codec.specs.declared.item.ShelfItem.TheVariants as items;
ghost use Rattle.shelf_records.specs.Book.{new_blocks, places_of};
ghost use Rattle.shelf_records.specs.Changes.{blocks_of_changes};
ghost use Rattle.shelf_records.specs.Shelved.{AreBlocks, FitsMetric, IsInSlot, IsOfPolicy, MayFollow, after_record};
ghost use Rattle.shelf_records.specs.Slots.{AreHeld};

use crate::Filed;
use crate::slots::{SLOT, claim_slot};
use archive_policy::{Definition, Kind, Policy};
use extent_map::Extents;
use gno_codec::{Block, Change, CommitItem};
use gno_num::Memory;
use std::alloc::Global;

/// Why a record doesn't follow.
#[derive(Clone, Copy, Debug, PartialEq, Eq)]
pub enum FollowFault {
    /// It isn't of the metrics that are live, or its blocks aren't apart or within the disk.
    Damaged,
    Memory,
}

impl From<Memory> for FollowFault {
    ghost use Rattle.std.specs.Prelude.{◌≡◌};
    ghost use Rattle.shelf_records.specs.declared.follow.FollowFault.TheVariants.{Memory as NoMemory};

    ghost from_gives = { λ _ e. e ≡ NoMemory };

    fn from(_memory: Memory) -> FollowFault {
        FollowFault::Memory
    }
}

/// Whether a commit is one of this metric.
pub(crate) fn fits(filed: &Filed, item: &CommitItem) -> bool
    ensures { IsTrue result ↔ FitsMetric item.now filed.now }
{
    if item.last.is_some() == item.chunks.items().is_empty() {
        return false;
    }
    are_of_policy(filed.policy(), item.changes.items())
}

/// Whether changes are of a policy.
fn are_of_policy(policy: &Policy, changes: &[Change]) -> bool
    ensures { IsTrue result ↔ All (IsOfPolicy policy.now) changes.now }
{
    for change in changes {
        if !is_of_policy(policy, change) {
            return false;
        }
    }
    true
}

/// Whether a change is of a policy.
fn is_of_policy(policy: &Policy, change: &Change) -> bool
    ensures { IsTrue result ↔ IsOfPolicy policy.now change.now }
{
    let Some(definition) = definition_at(policy.definitions(), change.definition) else {
        return false;
    };
    if !has_kind(policy.kinds(), change.kind) {
        return false;
    }
    has_key(policy, &definition, change)
}

/// The definition at a place, if there is one.
fn definition_at(definitions: &[Definition], place: u8) -> Option<Definition>
    ensures { result ≡ slice_get definitions.now place }
{
    definitions.get(usize::from(place)).copied()
}

/// Whether a kind is one of these.
fn has_kind(kinds: &[Kind], kind: Kind) -> bool
    ensures { result ≡ is_among kinds.now kind }
{
    kinds.iter().any(|k| k.index() == kind.index())
}

/// Whether a change's key is a multiple of 3,600 granularities of a definition of a policy.
fn has_key(policy: &Policy, definition: &Definition, change: &Change) -> bool
    requires { slice_get policy.now.definitions change.now.definition ≡ Some definition.now }
    ensures { IsTrue result ↔ (change.now.key % split_span definition.now.granularity ≡ 0) }
{
    let _definitions = policy.definitions();
    change.key.nanos() % (3_600 * definition.granularity.nanos()) == 0
}

/// The blocks of a commit, in order.
pub(crate) fn new_blocks(alloc: Global, item: &CommitItem) -> Result<Vec<Block>, Memory>
    ensures { IfOk result (λ blocks. blocks.items ≡ new_blocks item.now) }
{
    let chunks = item.chunks.items();
    let changes = item.changes.items();
    let mut blocks = Vec::with_capacity(alloc, chunks.len().saturating_add(changes.len()))?;
    blocks.extend_from_slice(chunks)?;
    push_blocks(&mut blocks, changes)?;
    Ok(blocks)
}

/// Adds the blocks at which changes put splits.
fn push_blocks(blocks: &mut Vec<Block>, changes: &[Change]) -> Result<(), Memory>
    ensures { OnOk result (blocks.new.items ≡ blocks.old.items ++ blocks_of_changes changes.now) }
{
    for change in changes {
        push_block(blocks, change.block)?;
    }
    Ok(())
}

/// Adds a block, if there is one.
fn push_block(blocks: &mut Vec<Block>, block: Option<Block>) -> Result<(), Memory>
    ensures { OnOk result (blocks.new.items ≡ blocks.old.items ++ option_to_list block) }
{
    if let Some(found) = block {
        blocks.push(found)?;
    }
    Ok(())
}

/// Whether blocks stand each in a slot of a disk of so many bytes.
pub(crate) fn are_in_slots(blocks: &[Block], size: u64) -> bool
    ensures { IsTrue result ↔ All (IsInSlot size) blocks.now }
{
    for block in blocks {
        if !is_in_slot(block, size) {
            return false;
        }
    }
    true
}

/// Whether a block stands in a slot of a disk of so many bytes.
fn is_in_slot(block: &Block, size: u64) -> bool
    ensures { IsTrue result ↔ IsInSlot size block.now }
{
    let slot = u64::from(SLOT);
    if block.at % slot != 0 {
        return false;
    }
    if SLOT < block.len {
        return false;
    }
    slot <= size && block.at <= size - slot
}

/// Takes the slots of blocks where they stand, unless one of them is held.
pub(crate) fn claim_blocks(used: &mut Extents, blocks: &[Block]) -> Result<bool, Memory>
    requires { (size : ℕ) × ((size ≤ 2 ^ 60) × All (IsInSlot size) blocks.now) }
    ensures claimed { IfOk result (λ claimed. OnTrue claimed ((slots : List ℕ) → AreHeld slots used.old → AreHeld (places_of blocks.now ++ slots) used.new)) }
    ensures refused { IfOk result (λ claimed. OnFalse claimed ((slots : List ℕ) → AreHeld slots used.old
        → AllPairs (λ a b. a ≢ b) (places_of blocks.now ++ slots) → ⊥)) }
{
    for block in blocks {
        let claimed = claim_slot(used, block.at)?;
        if !claimed {
            return Ok(false);
        }
    }
    Ok(true)
}
