// What a path asks for.
ghost use Rattle.std.specs.Prelude.{◌≡◌, true, IfOk, OnErr};
ghost use Rattle.rest_routes.specs.Path.{segments, parameters_of};
ghost use Rattle.rest_routes.specs.Route.{has_parameter, route_with};

use crate::kind::RouteKind;
use crate::parameter::{id_in, metric_in, name_in};
use crate::path::segment;
use archive_policy::Name;
use gno_num::Memory;
use series_model::MetricId;
use std::alloc::Global;

/// A route with its parameters. A parameter is `None` where it is broken: a `%` in it has no two
/// hexadecimal digits behind it, or what it stands for is no name, or no identifier in any form
/// that `uuid` reads. Of two broken parameters the first in the path counts.
#[derive(Debug, Drop)]
pub enum Route {
    /// `/v1/archive_policy`
    Policies,
    /// `/v1/archive_policy/{name}`
    Policy(Option<Name>),
    /// `/v1/archive_policy_rule`
    Rules,
    /// `/v1/archive_policy_rule/{name}`
    Rule(Option<Name>),
    /// `/v1/metric`
    Metrics,
    /// `/v1/metric/{id}`
    Metric(Option<MetricId>),
    /// `/v1/metric/{id}/measures`
    Measures(Option<MetricId>),
    /// `/v1/batch/metrics/measures`
    BatchMeasures,
    /// `/v1/resource/generic`
    Resources,
    /// `/v1/resource/generic/{id}`
    Resource(Option<u128>),
    /// `/v1/resource/generic/{id}/metric`
    ResourceMetrics(Option<u128>),
    /// `/v1/resource/generic/{id}/metric/{name}/measures`
    NamedMeasures(Option<u128>, Option<Name>),
}

/// The route of a path whose kind is known.
pub fn read_route(alloc: Global, kind: RouteKind, path: &str) -> Result<Route, Memory>
    ensures ok { IfOk result (λ route. route ≡ route_with kind (parameters_of kind (segments path.now))) }
    ensures err { OnErr result (has_parameter (route_with kind (parameters_of kind (segments path.now))) ≡ true) }
{
    match kind {
        RouteKind::Policies => Ok(Route::Policies),
        RouteKind::Policy => Ok(Route::Policy(name_in(alloc, segment(path, 3))?)),
        RouteKind::Rules => Ok(Route::Rules),
        RouteKind::Rule => Ok(Route::Rule(name_in(alloc, segment(path, 3))?)),
        RouteKind::Metrics => Ok(Route::Metrics),
        RouteKind::Metric => Ok(Route::Metric(metric_in(alloc, segment(path, 3))?)),
        RouteKind::Measures => Ok(Route::Measures(metric_in(alloc, segment(path, 3))?)),
        RouteKind::BatchMeasures => Ok(Route::BatchMeasures),
        RouteKind::Resources => Ok(Route::Resources),
        RouteKind::Resource => Ok(Route::Resource(id_in(alloc, segment(path, 4))?)),
        RouteKind::ResourceMetrics => Ok(Route::ResourceMetrics(id_in(alloc, segment(path, 4))?)),
        RouteKind::NamedMeasures => read_named_measures(alloc, path),
    }
}

fn read_named_measures(alloc: Global, path: &str) -> Result<Route, Memory>
    ensures { IfOk result (λ route. route ≡ route_with RouteKind.NamedMeasures
        (parameters_of RouteKind.NamedMeasures (segments path.now))) }
{
    let id = id_in(alloc, segment(path, 4))?;
    let name = name_in(alloc, segment(path, 6))?;
    Ok(Route::NamedMeasures(id, name))
}
