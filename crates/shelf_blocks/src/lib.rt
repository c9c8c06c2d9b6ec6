//! What the blocks of a shelf hold of live metrics: raw series are read, and what a turn leaves of each series
//! of splits is made and cut into pieces, which are to be written.
#![tactic(auto)]

mod fault;
mod laws;
mod pieces;
mod raw;
mod splits;
mod turn;
mod turned;

pub use fault::BlockFault;
pub use laws::{spared_metrics_are_held, written_series_is_held, written_turn_is_held};
pub use pieces::{add_split_pieces, chunks_for, raw_pieces};
pub use raw::read_series;
pub use splits::{chunk_piece, read_split_in, split_piece};
pub use turn::{Made, made_of, make_all};
pub use turned::{Turned, turn_all};

#[cfg(test)]
mod tests;
