// The moves that lead from some splits to others.
ghost use Rattle.std.specs.Prelude.{◌≡◌, ◌≤◌, ◌<◌, ◌+◌, ◌-◌, ◌++◌, ◌⊎◌, ℕ, List, IfOk, IsSome, None, Some, drop, length, slice_get, take};
ghost use Rattle.shelf_records.specs.declared.series.Stored.{Stored};
ghost use Rattle.shelf_records.specs.Moves.{Leads, gone_of, merged, put_of};

use crate::Stored;
use gno_codec::Block;
use gno_num::{Memory, Stamp};
use std::alloc::Global;

/// A split's move: where the split with this key is from then on; none where it is gone.
#[derive(Clone, Copy, Debug, PartialEq, Eq)]
pub struct Move {
    pub key: Stamp,
    pub block: Option<Block>,
}

/// A step on the way through the splits that go and those that are made: its move, and how many of each
/// it goes past.
#[derive(Clone, Copy)]
struct Step {
    moved: Move,
    passed: usize,
    reached: usize,
}

/// The moves, by rising key, of the splits before the first place and from the other on, which are gone
/// unless they are made again, and of those that are made. One pass over both.
pub(crate) fn moves_to(
    alloc: Global,
    keys: &[Stamp],
    first: usize,
    until: usize,
    made: &[Stored],
) -> Result<Vec<Move>, Memory>
    requires { (first ≤ until) × (until ≤ length keys.now) }
    ensures { IfOk result (λ moves. moves.items ≡ merged (take first keys.now ++ drop until keys.now) made.now) }
{
    let gone = first + (keys.len() - until);
    let mut moves = Vec::with_capacity(alloc, gone.saturating_add(made.len()))?;
    let mut from = 0;
    let mut upto = 0;
    while from < gone || upto < made.len() {
        let step = step_at(gone_at(keys, first, until, from), split_at(made, upto));
        moves.push(step.moved)?;
        from += step.passed;
        upto += step.reached;
    }
    Ok(moves)
}

/// The key behind so many others of those before the first place and from the other on.
fn gone_at(keys: &[Stamp], first: usize, until: usize, from: usize) -> Option<Stamp>
    requires within { (first ≤ until) × (until ≤ length keys.now) }
    requires below { from ≤ first + (length keys.now - until) }
    ensures { result ≡ slice_get (take first keys.now ++ drop until keys.now) from }
{
    let place = if from < first {
        from
    } else {
        until + (from - first)
    };
    key_at(keys, place)
}

/// The key at a place, if there is one.
fn key_at(keys: &[Stamp], place: usize) -> Option<Stamp>
    ensures { result ≡ slice_get keys.now place }
{
    keys.get(place).copied()
}

/// The split at a place, if there is one.
fn split_at(splits: &[Stored], place: usize) -> Option<Stored>
    ensures { result ≡ slice_get splits.now place }
{
    splits.get(place).copied()
}

/// The next step, where these are the first key that goes and the first split that is made.
fn step_at(gone: Option<Stamp>, made: Option<Stored>) -> Step
    requires { IsSome gone ⊎ IsSome made }
    ensures { (keys : List ℕ) (splits : List Stored) → slice_get keys 0 ≡ gone → slice_get splits 0 ≡ made
        → Leads result keys splits }
{
    match (gone, made) {
        (Some(key), Some(split)) => step_between(key, &split),
        (Some(key), None) => step_gone(key),
        (None, Some(split)) => step_put(&split, 0),
        (None, None) => unreachable!(),
    }
}

/// The next step, where there are both.
fn step_between(key: Stamp, split: &Stored) -> Step
    ensures gone { key < split.now.key → result ≡ record { moved = gone_of key; passed = 1; reached = 0 } }
    ensures same { key ≡ split.now.key → result ≡ record { moved = put_of split.now; passed = 1; reached = 1 } }
    ensures put { split.now.key < key → result ≡ record { moved = put_of split.now; passed = 0; reached = 1 } }
{
    if key.nanos() < split.key.nanos() {
        return step_gone(key);
    }
    if key.nanos() == split.key.nanos() {
        return step_put(split, 1);
    }
    step_put(split, 0)
}

/// Past a split that is gone.
fn step_gone(key: Stamp) -> Step
    ensures { result ≡ record { moved = gone_of key; passed = 1; reached = 0 } }
{
    Step {
        moved: Move { key, block: None },
        passed: 1,
        reached: 0,
    }
}

/// Past a split that is made, and so many that go.
fn step_put(split: &Stored, passed: usize) -> Step
    ensures { result ≡ record { moved = put_of split.now; passed = passed; reached = 1 } }
{
    Step {
        moved: Move {
            key: split.key,
            block: Some(split.block),
        },
        passed,
        reached: 1,
    }
}
