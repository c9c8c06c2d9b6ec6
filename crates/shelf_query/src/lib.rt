//! Queries on a shelf: what a live metric is answered with, by its stored splits.
#![tactic(auto)]

mod answer;
mod points;
mod series;
mod split;

pub use answer::answer_of;
