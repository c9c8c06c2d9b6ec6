// The rows of the table of routes.

/// Of which row a route is.
#[derive(Clone, Copy)]
pub enum RouteKind {
    Policies,
    Policy,
    Rules,
    Rule,
    Metrics,
    Metric,
    Measures,
    BatchMeasures,
    Resources,
    Resource,
    ResourceMetrics,
    NamedMeasures,
}
