// Where the splits of one definition and kind are stored.
ghost use Rattle.std.specs.Prelude.{◌≡◌, ◌≤◌, ◌<◌, ◌+◌, ◌++◌, ◌∷◌, ◌≢◌, true, false, not, All, IfOk, OnOk, OnErr, [], length, map, take, drop, slice_get, Some};
ghost use Rattle.std.specs.List.{filter};
ghost use Rattle.std.specs.List.Sorted.{IsStrictlyIncreasing};
ghost use Rattle.shelf_records.specs.Moves.{blocks_of_moves, gone_of, is_made, is_put, put_of};
ghost use Rattle.shelf_records.specs.Series.{after_moves, block_of, changed};

use crate::moves::{Move, moves_to};
use gno_codec::Block;
use gno_num::{Memory, Stamp};
use std::alloc::Global;
use std::marker::Model;

/// A split that is stored: its key, and where it is.
#[derive(Clone, Copy, Debug, PartialEq, Eq)]
pub struct Stored {
    pub key: Stamp,
    pub block: Block,
}

/// Where the splits of one definition and kind are stored, by rising key.
#[derive(Debug, Drop)]
pub struct Series {
    keys: Vec<Stamp>,
    blocks: Vec<Block>,
}

impl Model for Series {
    ghost use Rattle.std.specs.Prelude.{List};
    ghost use Rattle.shelf_records.specs.declared.series.Stored.{Stored};
    ghost use Rattle.shelf_records.specs.Series.{series_view, IsSeries};

    ghost Value = { List Stored };

    ghost view = { series_view };

    ghost invariant = { IsSeries };
}

impl Series {
    /// No splits.
    pub fn new(alloc: Global) -> Series
        ensures { result ≡ [] }
    {
        Series {
            keys: Vec::new(alloc),
            blocks: Vec::new(alloc),
        }
    }

    /// The keys, which rise.
    pub fn keys(&self) -> &[Stamp]
        ensures keys { result.now ≡ map (λ s. s.key) self.now }
        ensures rising { IsStrictlyIncreasing result.now }
    {
        self.keys.as_slice()
    }

    /// Where the splits are, by rising key.
    pub fn blocks(&self) -> &[Block]
        ensures { result.now ≡ map (λ s. s.block) self.now }
    {
        self.blocks.as_slice()
    }

    /// Where the split with this key is, if it is stored. It is looked for by halves.
    pub fn block_of(&self, key: Stamp) -> Option<Block>
        ensures { result ≡ block_of key self.now }
    {
        let place = place_of(&self.keys, key);
        if is_at(&self.keys, place, key) {
            Some(self.blocks[place])
        } else {
            None
        }
    }

    /// The splits from the first place on, before the other, and those that are made behind them, with the
    /// moves that lead there: of those that are made, and of those of before that are gone.
    pub fn turned(
        &self,
        alloc: Global,
        first: usize,
        until: usize,
        made: &[Stored],
    ) -> Result<(Series, Vec<Move>), Memory>
        requires within { (first ≤ until) × (until ≤ length self.now) }
        requires rising { IsStrictlyIncreasing (map (λ s. s.key) (drop first (take until self.now) ++ made.now)) }
        ensures series { IfOk result (λ turn. turn.0 ≡ drop first (take until self.now) ++ made.now) }
        ensures leads { IfOk result (λ turn. after_moves turn.1.items self.now ≡ drop first (take until self.now) ++ made.now) }
        ensures rising { IfOk result (λ turn. IsStrictlyIncreasing (map (λ m. m.key) turn.1.items)) }
        ensures made { IfOk result (λ turn. filter is_put turn.1.items ≡ map put_of made.now) }
        ensures gone { IfOk result (λ turn. filter (λ m. not (is_put m)) turn.1.items
            ≡ map gone_of (filter (λ key. not (is_made made.now key)) (map (λ s. s.key) (take first self.now ++ drop until self.now)))) }
        ensures blocks { IfOk result (λ turn. blocks_of_moves turn.1.items ≡ map (λ s. s.block) made.now) }
    {
        let moves = moves_to(alloc, &self.keys, first, until, made)?;
        let series = self.replaced(alloc, first, until, made)?;
        Ok((series, moves))
    }

    /// The splits from the first place on, before the other, and these behind them.
    fn replaced(
        &self,
        alloc: Global,
        first: usize,
        until: usize,
        made: &[Stored],
    ) -> Result<Series, Memory>
        requires within { (first ≤ until) × (until ≤ length self.now) }
        requires rising { IsStrictlyIncreasing (map (λ s. s.key) (drop first (take until self.now) ++ made.now)) }
        ensures { IfOk result (λ series. series ≡ drop first (take until self.now) ++ made.now) }
    {
        let room = (until - first).saturating_add(made.len());
        let mut keys = Vec::with_capacity(alloc, room)?;
        let mut blocks = Vec::with_capacity(alloc, room)?;
        keys.extend_from_slice(between(&self.keys, first, until))?;
        blocks.extend_from_slice(between(&self.blocks, first, until))?;
        push_all(&mut keys, &mut blocks, made)?;
        Ok(Series { keys, blocks })
    }

    /// From now on the split with this key is at this block, or gone. After `Memory` nothing has changed.
    pub fn change(&mut self, key: Stamp, block: Option<Block>) -> Result<(), Memory>
        ensures ok { OnOk result (self.new ≡ changed key block self.old) }
        ensures err { OnErr result (self.new ≡ self.old) }
    {
        let place = place_of(&self.keys, key);
        let there = is_at(&self.keys, place, key);
        match block {
            Some(block) if there => self.blocks[place] = block,
            Some(block) => insert_at(&mut self.keys, &mut self.blocks, place, key, block)?,
            None if there => {
                self.keys.remove(place);
                self.blocks.remove(place);
            }
            None => (),
        }
        Ok(())
    }
}

/// Whether this key stands at a place.
fn is_at(keys: &[Stamp], place: usize, key: Stamp) -> bool
    ensures there { result ≡ true → slice_get keys.now place ≡ Some key }
    ensures absent { result ≡ false → slice_get keys.now place ≢ Some key }
{
    match keys.get(place) {
        Some(found) => found.nanos() == key.nanos(),
        None => false,
    }
}

/// The items from the first place on, before the other.
fn between<T>(items: &[T], first: usize, until: usize) -> &[T]
    requires { (first ≤ until) × (until ≤ length items.now) }
    ensures { result.now ≡ drop first (take until items.now) }
{
    &items[..until][first..]
}

/// Adds the keys and the blocks of splits at the ends.
fn push_all(keys: &mut Vec<Stamp>, blocks: &mut Vec<Block>, made: &[Stored]) -> Result<(), Memory>
    ensures keys { OnOk result (keys.new.items ≡ keys.old.items ++ map (λ s. s.key) made.now) }
    ensures blocks { OnOk result (blocks.new.items ≡ blocks.old.items ++ map (λ s. s.block) made.now) }
{
    for stored in made {
        keys.push(stored.key)?;
        blocks.push(stored.block)?;
    }
    Ok(())
}

/// Puts a key and its block in at a place. After `Memory` nothing has changed.
fn insert_at(
    keys: &mut Vec<Stamp>,
    blocks: &mut Vec<Block>,
    place: usize,
    key: Stamp,
    block: Block,
) -> Result<(), Memory>
    requires keys { place ≤ length keys.old.items }
    requires blocks { place ≤ length blocks.old.items }
    ensures keys { OnOk result (keys.new.items ≡ take place keys.old.items ++ key ∷ drop place keys.old.items) }
    ensures blocks { OnOk result (blocks.new.items ≡ take place blocks.old.items ++ block ∷ drop place blocks.old.items) }
    ensures err { OnErr result ((keys.new.items ≡ keys.old.items) × (blocks.new.items ≡ blocks.old.items)) }
{
    keys.reserve(1)?;
    blocks.insert(place, block)?;
    if keys.insert(place, key).is_err() {
        unreachable!();
    }
    Ok(())
}

/// How many keys are before one. They are looked for by halves.
fn place_of(keys: &[Stamp], key: Stamp) -> usize
    requires { IsStrictlyIncreasing keys.now }
    ensures within { result ≤ length keys.now }
    ensures before { All (λ k. k < key) (take result keys.now) }
    ensures behind { All (λ k. key ≤ k) (drop result keys.now) }
{
    keys.partition_point(|k| k.nanos() < key.nanos())
}
