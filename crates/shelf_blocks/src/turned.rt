// What has become of all series of a metric.
ghost use Rattle.std.specs.Prelude.{◌≡◌, ◌≤◌, ◌<◌, ◌+◌, ◌++◌, List, All, length, map, IfOk, take, drop, sum_by};
ghost use Rattle.std.specs.List.{flat_map};
ghost use Rattle.block_slots.specs.declared.slots.Piece.{Piece};
ghost use Rattle.shelf_records.specs.Moves.{blocks_of_moves};
ghost use Rattle.shelf_blocks.specs.Pieces.{IsPiece, block_of};
ghost use Rattle.shelf_blocks.specs.Turns.{AreFitting, AreTurned, IsFittingAt, IsTurnedAt, made_count};

use crate::pieces::add_split_pieces;
use crate::turn::Made;
use block_slots::Piece;
use gno_num::Memory;
use shelf_records::{Filed, Move, Series};
use std::alloc::Global;

/// What has become of all series of a metric, and the moves that lead there.
#[derive(Debug, Drop)]
pub struct Turned {
    pub series: Vec<Series>,
    pub moves: Vec<Vec<Move>>,
}

/// What becomes of all series of a metric with what was made for them; adds the pieces of the splits that were
/// made, at these places, in order.
pub fn turn_all(
    alloc: Global,
    filed: &Filed,
    all: &[Made],
    places: &[u64],
    pieces: &mut Vec<Piece>,
) -> Result<Turned, Memory>
    requires count { length all.now ≡ length filed.now.kept }
    requires fit { AreFitting filed.now all.now }
    requires places { length places.now ≡ made_count all.now }
    ensures pieces { IfOk result (λ turned. (more : List Piece) × (pieces.new.items ≡ pieces.old.items ++ more) × (map (λ p. p.at) more ≡ places.now)
        × All IsPiece more × (flat_map blocks_of_moves (map (λ own. own.items) turned.moves.items) ≡ map block_of more)) }
    ensures turned { IfOk result (λ turned. AreTurned filed.now pieces.new.items 0 all.now turned.series.items (map (λ own. own.items) turned.moves.items)) }
{
    let mut series = Vec::with_capacity(alloc, all.len())?;
    let mut moves = Vec::with_capacity(alloc, all.len())?;
    let mut rest = places;
    for place in 0..all.len() {
        let made = &all[place];
        let (own, later) = rest.split_at(made.splits.len());
        let (turned, moved) = turn_one(alloc, filed, place, made, own, pieces)?;
        series.push(turned)?;
        moves.push(moved)?;
        rest = later;
    }
    Ok(Turned { series, moves })
}

/// What becomes of the series at a place.
fn turn_one(
    alloc: Global,
    filed: &Filed,
    place: usize,
    made: &Made,
    places: &[u64],
    pieces: &mut Vec<Piece>,
) -> Result<(Series, Vec<Move>), Memory>
    requires place { place < length filed.now.kept }
    requires fits { IsFittingAt filed.now place made.now }
    requires places { length places.now ≡ length made.now.splits.items }
    ensures pieces { IfOk result (λ turned. (more : List Piece) × (pieces.new.items ≡ pieces.old.items ++ more) × (map (λ p. p.at) more ≡ places.now)
        × All IsPiece more × (blocks_of_moves turned.1.items ≡ map block_of more)) }
    ensures turned { IfOk result (λ turned. IsTurnedAt filed.now pieces.new.items place made.now turned.0 turned.1.items) }
{
    let _id = filed.id();
    let policy = filed.policy();
    let kinds = policy.kinds().len();
    let granularity = policy.definitions()[place / kinds].granularity;
    let stored = add_split_pieces(alloc, &made.splits, granularity, places, pieces)?;
    filed
        .series(place)
        .turned(alloc, made.kept.first, made.kept.until, &stored)
}
