// Identifiers of metrics.

/// The identifier of a metric, as a 128-bit number (RFC 9562).
#[derive(Clone, Copy, Debug, PartialEq, Eq)]
pub struct MetricId(pub u128);
