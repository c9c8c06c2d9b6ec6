//! Queries on measures: what the text of one asks for, and which rows of stored points it wants.
#![tactic(auto)]

mod form;
mod key;
mod laws;
mod query;
mod seen;
#[cfg(test)]
mod tests;
mod wanted;

pub use laws::{any_order, empty_asks_for_all, never_both, one_query};
pub use query::{Asked, QueryFault, read_query};
pub use wanted::select;
