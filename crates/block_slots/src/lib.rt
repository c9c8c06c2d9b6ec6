//! Blocks of a disk, each at the front of a slot of its own: written with the zeros behind them, and read.
#![tactic(auto)]

mod slots;

pub use slots::{Piece, ReadFault, SLOT, read_block, write_pieces};
