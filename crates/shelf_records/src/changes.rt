// The changes that a commit of moves records.
ghost use Rattle.std.specs.Prelude.{◌≡◌, ◌*◌, ◌%◌, ◌++◌, ℕ, List, [], ◌+◌, ◌≤◌, All, AllPairs, IfOk, OnOk, length, map, take, drop};
ghost use Rattle.std.specs.List.{flat_map};
ghost use Rattle.std.specs.List.Sorted.{IsStrictlyIncreasing};
ghost use Rattle.gno_codec.specs.Shelf.{ComesBefore};
ghost use Rattle.archive_policy.specs.Policies.{AreDefinitions, AreKinds};
ghost use Rattle.shelf_records.specs.Changes.{HaveKeys, all_moved, blocks_of_changes, change_of, changes_by};
ghost use Rattle.shelf_records.specs.Filed.{emptied, layout_of};
ghost use Rattle.shelf_records.specs.Moves.{blocks_of_moves};
ghost use Rattle.shelf_records.specs.Shelved.{IsOfPolicy, Kept, kept_after};

use crate::Move;
use archive_policy::{Kind, Policy};
use gno_codec::Change;
use gno_num::Memory;
use std::alloc::Global;

/// The changes of lists of moves, one list for each definition of a policy and, within it, each kind: by
/// rising definition, kind and key. They make of each series what its own moves make of it.
pub fn changes_of_moves(
    alloc: Global,
    policy: &Policy,
    moves: &[Vec<Move>],
) -> Result<Vec<Change>, Memory>
    requires { length moves.now ≡ length policy.now.definitions * length policy.now.kinds }
    ensures value { IfOk result (λ changes. changes.items ≡ changes_by (layout_of policy.now) (map (λ own. own.items) moves.now)) }
    ensures moved { IfOk result (λ changes. (kept : List Kept) → map emptied kept ≡ layout_of policy.now
        → map (kept_after changes.items) kept ≡ all_moved kept (map (λ own. own.items) moves.now)) }
    ensures in_order { IfOk result (λ changes. All (λ own. IsStrictlyIncreasing (map (λ m. m.key) own.items)) moves.now
        → AllPairs ComesBefore changes.items) }
    ensures of_policy { IfOk result (λ changes. HaveKeys policy.now (map (λ own. own.items) moves.now)
        → All (IsOfPolicy policy.now) changes.items) }
    ensures blocks { IfOk result (λ changes. blocks_of_changes changes.items ≡ flat_map (λ own. blocks_of_moves own.items) moves.now) }
{
    let kinds = policy.kinds();
    let mut changes = Vec::with_capacity(alloc, count_of(moves))?;
    for definition in 0..policy.definitions().len() {
        let own = of_definition(moves, kinds.len(), definition);
        push_definition(&mut changes, definition as u8, kinds, own)?;
    }
    Ok(changes)
}

/// The lists of a definition, of as many for each.
fn of_definition(moves: &[Vec<Move>], kinds: usize, definition: usize) -> &[Vec<Move>]
    requires { definition * kinds + kinds ≤ length moves.now }
    ensures { result.now ≡ take kinds (drop (definition * kinds) moves.now) }
{
    &moves[definition * kinds..][..kinds]
}

/// How many moves there are, or the greatest number.
fn count_of(moves: &[Vec<Move>]) -> usize {
    let mut count = 0_usize;
    for own in moves {
        count = count.saturating_add(own.len());
    }
    count
}

/// Adds the changes of a definition.
fn push_definition(
    changes: &mut Vec<Change>,
    definition: u8,
    kinds: &[Kind],
    moves: &[Vec<Move>],
) -> Result<(), Memory>
    requires { length moves.now ≡ length kinds.now }
    ensures { OnOk result (changes.new.items ≡ changes.old.items
        ++ changes_by (map (λ kind. record { definition = definition; kind = kind; splits = [] }) kinds.now) (map (λ own. own.items) moves.now)) }
{
    for (place, kind) in kinds.iter().enumerate() {
        push_moves(changes, definition, *kind, &moves[place])?;
    }
    Ok(())
}

/// Adds the changes of a definition and kind.
fn push_moves(
    changes: &mut Vec<Change>,
    definition: u8,
    kind: Kind,
    moves: &[Move],
) -> Result<(), Memory>
    ensures { OnOk result (changes.new.items ≡ changes.old.items
        ++ map (change_of (record { definition = definition; kind = kind; splits = [] })) moves.now) }
{
    for moved in moves {
        changes.push(Change {
            definition,
            kind,
            key: moved.key,
            block: moved.block,
        })?;
    }
    Ok(())
}
