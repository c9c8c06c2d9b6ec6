// What a commit writes to its slots.
ghost use Rattle.std.specs.Prelude.{◌≡◌, ◌≤◌, ◌<◌, ◌+◌, ◌++◌, ◌∷◌, [], ℕ, List, length, map, All, IfOk, OnOk};
ghost use Rattle.std.specs.List.Sorted.{IsStrictlyIncreasing};
ghost use Rattle.split_update.specs.Update.{AreSplits, IsWellFormed};
ghost use Rattle.block_slots.specs.declared.slots.Piece.{Piece};
ghost use Rattle.shelf_blocks.specs.Pieces.{AreChunkPieces, AreCut, AreEnough, AreSplitPieces, IsSplitPiece, stored_as};

use crate::splits::{chunk_piece, split_piece};
use block_slots::Piece;
use gno_codec::Block;
use gno_num::{Memory, Span};
use series_model::{Measure, Split};
use shelf_records::Stored;
use std::alloc::Global;

/// How many measures a full chunk has.
const FULL: usize = 3_600;

/// How many chunks a raw series of so many points has.
pub fn chunks_for(points: usize) -> usize
    ensures { AreEnough points result }
{
    points.div_ceil(FULL)
}

/// The pieces of a raw series, at these places. The list has room for so many.
pub fn raw_pieces(
    alloc: Global,
    points: &[Measure],
    places: &[u64],
    room: usize,
) -> Result<Vec<Piece>, Memory>
    requires rising { IsStrictlyIncreasing (map (λ m. m.at) points.now) }
    requires enough { AreEnough (length points.now) (length places.now) }
    ensures { IfOk result (λ pieces. AreChunkPieces points.now places.now pieces.items) }
{
    let mut pieces = Vec::with_capacity(alloc, room)?;
    let mut rest = points;
    for i in 0..places.len() {
        let (chunk, after) = rest.split_at(rest.len().min(FULL));
        let piece = chunk_piece(alloc, chunk, places[i])?;
        pieces.push(piece)?;
        rest = after;
    }
    Ok(pieces)
}

/// Adds the pieces of splits at these places, and tells where the splits are then stored.
pub fn add_split_pieces(
    alloc: Global,
    splits: &[Split],
    granularity: Span,
    places: &[u64],
    pieces: &mut Vec<Piece>,
) -> Result<Vec<Stored>, Memory>
    requires granularity { 0 < granularity }
    requires formed { AreSplits granularity splits.now }
    requires places { length places.now ≡ length splits.now }
    ensures { IfOk result (λ stored. (more : List Piece) × (pieces.new.items ≡ pieces.old.items ++ more)
        × AreSplitPieces granularity splits.now places.now more stored.items) }
{
    let mut stored = Vec::with_capacity(alloc, splits.len())?;
    for i in 0..splits.len() {
        let found = add_split_piece(alloc, &splits[i], granularity, places[i], pieces)?;
        stored.push(found)?;
    }
    Ok(stored)
}

/// Adds the piece of a split, and tells where the split is then stored.
fn add_split_piece(
    alloc: Global,
    split: &Split,
    granularity: Span,
    at: u64,
    pieces: &mut Vec<Piece>,
) -> Result<Stored, Memory>
    requires granularity { 0 < granularity }
    requires formed { IsWellFormed granularity split.now }
    ensures added { IfOk result (λ stored. (p : Piece) × (pieces.new.items ≡ pieces.old.items ++ p ∷ [])
        × ((p.at ≡ at) × (IsSplitPiece granularity split.now p × (stored ≡ stored_as split.now p)))) }
{
    let piece = split_piece(alloc, split, granularity, at)?;
    let block = Block {
        at,
        len: piece.bytes.len() as u32,
    };
    pieces.push(piece)?;
    Ok(Stored {
        key: split.key,
        block,
    })
}
