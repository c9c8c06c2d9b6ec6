//! What the store stands for: measures, accepted measures, the series, its buckets and answers, as
//! definitions, and beside them the plain slow program that computes them.
#![tactic(auto)]

mod answer;
mod batch;
mod bucket;
mod kinds;
mod laws;
mod measure;
mod metric;
mod point;
mod points;
mod query;
mod replies;
mod rows;
mod series;
mod splits;
#[cfg(test)]
mod tests;
mod ticket;
mod turn;
mod window;

pub use answer::{Answer, Row};
pub use batch::{Batch, TooMany};
pub use laws::{
    all_turns, changes_are_exact, latest_is_greatest, one_answer, one_batch, one_series, one_turn,
    points_are_exact, rows_are_exact, series_is_exact, splits_are_exact, tail_has_later_points,
    turns, values_are_summed_up,
};
pub use measure::Measure;
pub use metric::MetricId;
pub use point::{Point, Split};
pub use points::points_of;
pub use query::Query;
pub use replies::answer_to;
pub use rows::answer_from;
pub use series::series_of;
pub use splits::{stored, stored_from};
pub use ticket::Ticket;
pub use window::{accepted, accepted_within, window_of};
