//! What a turn leaves of the stored splits of one definition and kind: new points from the bucket of its
//! least timestamp on, and nothing before the oldest key.
#![tactic(auto)]

mod cut;
mod laws;
mod update;

pub use cut::cut_splits;
pub use laws::{stored_are_splits, turn_cuts_all_anew, turn_is_from_scratch, turn_leaves_splits};
pub use update::{Kept, kept_places, made_splits};

#[cfg(test)]
mod tests;
