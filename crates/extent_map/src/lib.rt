//! Which ranges of a disk of blocks are used: ranges are taken from the free ones, and given back.
#![tactic(auto)]

mod extents;
mod holder;
mod ranges;

pub use extents::Extents;

#[cfg(test)]
mod tests;
