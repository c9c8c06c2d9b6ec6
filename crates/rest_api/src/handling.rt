// Requests and their answers.
ghost use Rattle.std.specs.Prelude.{◌≡◌, ◌==◌, ◌||◌, length};
ghost use Rattle.front_api.specs.Seen.{LeadsTo};
ghost use Rattle.rest_api.specs.Handling.{Handles, OnFound, OnRoute, has_query};

use crate::commands::{metric, metrics, policies, policy, resource, resources, rule, rules};
use crate::measures::{batch, measures, named_measures};
use crate::members::resource_metrics;
use front_api::Front;
use gno_num::Memory;
use rest_replies::{ErrorCode, Handled, RestError};
use rest_routes::{Method, Route, Routed, Routes};
use std::alloc::Global;

/// The REST interface: its routes.
#[derive(Drop)]
pub struct Api {
    routes: Routes,
}

impl Api {
    /// The interface. An `Err` is want of memory.
    pub fn new(alloc: Global) -> Result<Api, Memory> {
        let routes = Routes::new(alloc)?;
        Ok(Api { routes })
    }
}

/// Handles a request: asks of the front what its route names, and answers by the results. Where memory
/// is wanting, the answer is that; the calls that were made are made.
pub fn handle<F: Front>(
    api: &Api,
    front: &mut F,
    alloc: Global,
    method: &[u8],
    target: &[u8],
    body: &[u8],
) -> Handled
    ensures handles { LeadsTo F.stands front.old front.new (Handles method.now target.now body.now result) }
    ensures same { (F.sack_count front.new ≡ F.sack_count front.old) × (F.duty front.new ≡ F.duty front.old) × (F.made front.new ≡ F.made front.old) }
{
    match api.routes.find(alloc, method, target) {
        Routed::Found {
            route,
            method,
            query,
        } => on_found(front, alloc, route, method, query, body),
        Routed::NoRoute => {
            let error = RestError::of(ErrorCode::NoRoute);
            Handled::of_error(alloc, error, None)
        }
        Routed::NoMethod { allow } => Handled::no_method(alloc, allow),
        Routed::Memory => Handled::no_memory(alloc),
    }
}

fn on_found<F: Front>(
    front: &mut F,
    alloc: Global,
    route: Route,
    method: Method,
    query: &[u8],
    body: &[u8],
) -> Handled
    ensures does { LeadsTo F.stands front.old front.new (OnFound route method query.now body.now result) }
    ensures same { (F.sack_count front.new ≡ F.sack_count front.old) × (F.duty front.new ≡ F.duty front.old) × (F.made front.new ≡ F.made front.old) }
{
    if may_ask(&route, method, query) {
        return on_route(front, alloc, route, method, query, body);
    }
    let error = RestError::of(ErrorCode::BadQuery);
    Handled::of_error(alloc, error, None)
}

/// Whether the request may have this query.
fn may_ask(route: &Route, method: Method, query: &[u8]) -> bool
    ensures { result ≡ (has_query route.now method || (length query.now == 0)) }
{
    has_query(route, method) || query.is_empty()
}

/// Whether the query of the request is read.
fn has_query(route: &Route, method: Method) -> bool
    ensures { result ≡ has_query route.now method }
{
    match (route, method) {
        (Route::Measures(_), Method::Get) => true,
        (Route::NamedMeasures(_, _), Method::Get) => true,
        _ => false,
    }
}

fn on_route<F: Front>(
    front: &mut F,
    alloc: Global,
    route: Route,
    method: Method,
    query: &[u8],
    body: &[u8],
) -> Handled
    ensures does { LeadsTo F.stands front.old front.new (OnRoute route method query.now body.now result) }
    ensures same { (F.sack_count front.new ≡ F.sack_count front.old) × (F.duty front.new ≡ F.duty front.old) × (F.made front.new ≡ F.made front.old) }
{
    match route {
        Route::Policies => policies(front, alloc, method, body),
        Route::Policy(name) => policy(front, alloc, name, method),
        Route::Rules => rules(front, alloc, method, body),
        Route::Rule(name) => rule(front, alloc, name, method),
        Route::Metrics => metrics(front, alloc, method, body),
        Route::Metric(id) => metric(front, alloc, id, method),
        Route::Measures(id) => measures(front, alloc, id, method, query, body),
        Route::BatchMeasures => batch(front, alloc, body),
        Route::Resources => resources(front, alloc, method, body),
        Route::Resource(id) => resource(front, alloc, id, method),
        Route::ResourceMetrics(id) => resource_metrics(front, alloc, id, method, body),
        Route::NamedMeasures(resource, name) => {
            named_measures(front, alloc, resource, name, method, query, body)
        }
    }
}
