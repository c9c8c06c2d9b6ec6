//! Where what is kept of a definition begins: its oldest point, and the split that holds it.
#![tactic(auto)]

mod laws;
mod oldest;

pub use laws::{as_many_buckets, oldest_split_holds};
pub use oldest::{oldest_key, oldest_point};

#[cfg(test)]
mod tests;
