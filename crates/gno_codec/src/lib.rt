//! The records and blocks on disk, field by field: each value has one spelling. Numbers are
//! big-endian.
#![tactic(auto)]

mod fault;
mod incoming;
mod index;
mod item;
mod laws;
mod policy;
mod raw;
mod reading;
mod shelf;
mod split;
mod writing;

pub use fault::ReadFault;
pub use incoming::{read_incoming, write_next, write_post};
pub use index::{read_index, write_index};
pub use item::{Block, Change, CommitItem, IncomingItem, IndexItem, ShelfItem};
pub use laws::one_spelling;
pub use raw::{read_raw, write_raw};
pub use shelf::{read_shelf, write_shelf};
pub use split::{read_split, write_split};

#[cfg(test)]
mod tests;
