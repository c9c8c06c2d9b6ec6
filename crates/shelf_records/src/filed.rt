// A live metric in the book.
ghost use Rattle.std.specs.Prelude.{◌≡◌, ◌≤◌, ◌<◌, ◌*◌, [], ◌∷◌, All, IfOk, IfSome, OnOk, IsSomeAnd, length, map, position, slice_get, ◌+◌, ◌==◌};
ghost use Rattle.archive_policy.specs.Kinds.{kind_index};
ghost use Rattle.archive_policy.specs.Policies.{AreDefinitions, AreKinds};
ghost use Rattle.shelf_records.specs.Filed.{IsFiled, is_series_of, place_in, splits_of};
ghost use Rattle.shelf_records.specs.Series.{block_of};
ghost use Rattle.shelf_records.specs.Shelved.{blocks_of_metric, committed, kept_after, registered};

use crate::Series;
use archive_policy::{Kind, Policy};
use gno_codec::{Block, Change, CommitItem};
use gno_num::{List, Memory, Stamp};
use series_model::{Measure, MetricId};
use std::alloc::Global;
use std::marker::Model;

/// A live metric: by which policy it is kept, the number of its last post that was processed, the
/// greatest accepted timestamp, the measure before its window, and where its raw chunks and splits are.
#[derive(Debug, Drop)]
pub struct Filed {
    id: MetricId,
    policy: Policy,
    done: u64,
    last: Option<Stamp>,
    anchor: Option<Measure>,
    chunks: List<Block>,
    /// A series for each definition of the policy and, within it, each kind.
    kept: Vec<Series>,
}

impl Model for Filed {
    ghost use Rattle.shelf_records.specs.Shelved.{Shelved};
    ghost use Rattle.shelf_records.specs.Filed.{filed_view, HoldsSeries};

    ghost Value = { Shelved };

    ghost view = { filed_view };

    ghost invariant = { HoldsSeries };
}

impl Filed {
    /// A metric as it is registered.
    pub fn new(alloc: Global, id: MetricId, done: u64, policy: Policy) -> Result<Filed, Memory>
        ensures { IfOk result (λ filed. filed ≡ registered id done policy) }
    {
        let kept = no_splits(alloc, policy.definitions().len(), policy.kinds().len())?;
        Ok(Filed {
            id,
            policy,
            done,
            last: None,
            anchor: None,
            chunks: List::of(Vec::new(alloc)),
            kept,
        })
    }

    /// The identifier.
    pub fn id(&self) -> MetricId
        ensures value { result ≡ self.now.id }
        ensures filed { IsFiled self.now }
    {
        self.id
    }

    /// The policy by which it is kept.
    pub fn policy(&self) -> &Policy
        ensures { result.now ≡ self.now.policy }
    {
        &self.policy
    }

    /// The number of the last post that was processed.
    pub fn done(&self) -> u64
        ensures { result ≡ self.now.done }
    {
        self.done
    }

    /// The greatest accepted timestamp, if a measure was accepted.
    pub fn last(&self) -> Option<Stamp>
        ensures { result ≡ self.now.last }
    {
        self.last
    }

    /// The measure nearest before the window, if there is one.
    pub fn anchor(&self) -> Option<Measure>
        ensures { result ≡ self.now.anchor }
    {
        self.anchor
    }

    /// Where the chunks of the raw series are, in order.
    pub fn chunks(&self) -> &[Block]
        ensures { result.now ≡ self.now.chunks }
    {
        self.chunks.items()
    }

    /// The series at a place.
    pub fn series(&self, place: usize) -> &Series
        requires { place < length self.now.kept }
        ensures { IsSomeAnd (slice_get self.now.kept place) (λ kept. result.now ≡ kept.splits) }
    {
        &self.kept[place]
    }

    /// How many series there are.
    pub fn count(&self) -> usize
        ensures { result ≡ length self.now.kept }
    {
        self.kept.len()
    }

    /// How many blocks the metric has, unless they are too many to be counted.
    pub(crate) fn block_count(&self) -> Option<u64>
        ensures { IfSome result (λ count. count ≡ length (blocks_of_metric self.now)) }
    {
        let mut count = self.chunks().len() as u64;
        for place in 0..self.count() {
            count = count.checked_add(self.series(place).blocks().len() as u64)?;
        }
        Some(count)
    }

    /// The place of the series of a definition and kind, if the policy has both.
    pub fn place_of(&self, definition: u8, kind: Kind) -> Option<usize>
        ensures place { result ≡ place_in self.now.policy definition kind }
        ensures first { result ≡ position (is_series_of definition kind) self.now.kept }
    {
        place_in(&self.policy, definition, kind)
    }

    /// Where the split of a definition and kind with this key is, if it is stored.
    pub fn block_of(&self, definition: u8, kind: Kind, key: Stamp) -> Option<Block>
        ensures { result ≡ block_of key (splits_of definition kind self.now.kept) }
    {
        match self.place_of(definition, kind) {
            Some(place) => self.series(place).block_of(key),
            None => None,
        }
    }

    /// The metric after a commit, by its changes.
    pub(crate) fn follow(&mut self, item: CommitItem) -> Result<(), Memory>
        ensures { OnOk result (self.new ≡ committed item self.old) }
    {
        for change in item.changes.items() {
            self.change(change)?;
        }
        self.done = item.done;
        self.last = item.last;
        self.anchor = item.anchor;
        self.chunks = item.chunks;
        Ok(())
    }

    /// The metric after a change of one of its splits.
    fn change(&mut self, change: &Change) -> Result<(), Memory>
        ensures { OnOk result (self.new ≡ record self.old { kept = map (kept_after (change.now ∷ [])) self.old.kept }) }
    {
        let Some(place) = self.place_of(change.definition, change.kind) else {
            return Ok(());
        };
        self.kept[place].change(change.key, change.block)?;
        Ok(())
    }

    /// The metric after a commit, with its series as they are then.
    pub(crate) fn settle(&mut self, item: CommitItem, kept: Vec<Series>)
        requires { kept.items ≡ map (λ k. k.splits) (map (kept_after item.changes) self.old.kept) }
        ensures { self.new ≡ committed item self.old }
    {
        self.done = item.done;
        self.last = item.last;
        self.anchor = item.anchor;
        self.chunks = item.chunks;
        self.kept = kept;
    }
}

/// The place of a definition's and kind's series, if the policy has both.
fn place_in(policy: &Policy, definition: u8, kind: Kind) -> Option<usize>
    ensures { result ≡ place_in policy.now definition kind }
{
    let definition = usize::from(definition);
    if policy.definitions().len() <= definition {
        return None;
    }
    let kinds = policy.kinds();
    let place = place_of_kind(kinds, kind)?;
    Some(definition * kinds.len() + place)
}

/// The place of a kind among others.
fn place_of_kind(kinds: &[Kind], kind: Kind) -> Option<usize>
    ensures { result ≡ position (λ k. kind_index k == kind_index kind) kinds.now }
{
    kinds.iter().position(|k| k.index() == kind.index())
}

/// So many series without splits for each of so many definitions.
fn no_splits(alloc: Global, definitions: usize, kinds: usize) -> Result<Vec<Series>, Memory>
    ensures count { IfOk result (λ kept. length kept.items ≡ definitions * kinds) }
    ensures none { IfOk result (λ kept. All (λ splits. splits ≡ []) kept.items) }
{
    let mut kept = Vec::new(alloc);
    for _definition in 0..definitions {
        push_none(alloc, &mut kept, kinds)?;
    }
    Ok(kept)
}

/// Adds so many series without splits.
fn push_none(alloc: Global, kept: &mut Vec<Series>, kinds: usize) -> Result<(), Memory>
    requires { All (λ splits. splits ≡ []) kept.old.items }
    ensures count { OnOk result (length kept.new.items ≡ length kept.old.items + kinds) }
    ensures none { OnOk result (All (λ splits. splits ≡ []) kept.new.items) }
{
    kept.reserve(kinds)?;
    for _kind in 0..kinds {
        kept.push(Series::new(alloc))?;
    }
    Ok(())
}
