// What is known of a post without reading it.
use series_model::MetricId;

/// The number of a post, and its metric.
#[derive(Clone, Copy, Debug, PartialEq, Eq)]
pub struct Mark {
    pub number: u64,
    pub metric: MetricId,
}
