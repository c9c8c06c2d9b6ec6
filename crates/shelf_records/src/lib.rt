//! What the records of a shelf's log amount to: the live metrics, and where their series are stored.
#![tactic(auto)]

mod book;
mod changes;
mod filed;
mod follow;
mod laws;
mod moves;
mod series;
mod slots;

pub use book::Book;
pub use changes::changes_of_moves;
pub use filed::Filed;
pub use follow::FollowFault;
pub use laws::change_moves_one_split;
pub use moves::Move;
pub use series::{Series, Stored};

#[cfg(test)]
mod tests;
