// From a request to its route.
ghost use Rattle.std.specs.Prelude.{◌≡◌, true, OnOk, Some, None, MatchOption};
ghost use Rattle.rest_routes.specs.Table.{with_row, is_free, table};
ghost use Rattle.rest_routes.specs.Path.{segments, parameters_of};
ghost use Rattle.rest_routes.specs.Routes.{route_at};

use crate::kind::RouteKind;
use crate::method::{Method, allow_text, method_among};
use crate::route::{Route, read_route};
use crate::target::{split_query, without_server};
use gno_num::Memory;
use matchit::{InsertError, Router};
use std::alloc::Global;

/// What a request asks for, or why it asks for nothing.
#[derive(Debug, Drop)]
pub enum Routed<'t> {
    /// The query is what follows the first `?`, empty where there is none.
    Found {
        route: Route,
        method: Method,
        query: &'t [u8],
    },
    /// The path has no route.
    NoRoute,
    /// The path has a route, which lacks the method: those that it has, as `Allow` gives them.
    NoMethod {
        allow: &'static str,
    },
    /// There was no memory for a parameter.
    Memory,
}

/// A router that holds the table of routes.
#[derive(Drop)]
pub struct Routes {
    router: Router<RouteKind>,
    ghost is_table: { router ≡ table },
}

impl Routes {
    ghost use Rattle.rest_routes.specs.Routes.{Tells, routing_of};

    /// The router. An `Err` is want of memory.
    pub fn new(alloc: Global) -> Result<Routes, Memory> {
        let mut router = Router::new(alloc);
        add(&mut router, "/v1/archive_policy", RouteKind::Policies)?;
        add(&mut router, "/v1/archive_policy/{name}", RouteKind::Policy)?;
        add(&mut router, "/v1/archive_policy_rule", RouteKind::Rules)?;
        add(
            &mut router,
            "/v1/archive_policy_rule/{name}",
            RouteKind::Rule,
        )?;
        add(&mut router, "/v1/metric", RouteKind::Metrics)?;
        add(&mut router, "/v1/metric/{id}", RouteKind::Metric)?;
        add(&mut router, "/v1/metric/{id}/measures", RouteKind::Measures)?;
        add(
            &mut router,
            "/v1/batch/metrics/measures",
            RouteKind::BatchMeasures,
        )?;
        add(&mut router, "/v1/resource/generic", RouteKind::Resources)?;
        add(
            &mut router,
            "/v1/resource/generic/{id}",
            RouteKind::Resource,
        )?;
        add(
            &mut router,
            "/v1/resource/generic/{id}/metric",
            RouteKind::ResourceMetrics,
        )?;
        add(
            &mut router,
            "/v1/resource/generic/{id}/metric/{name}/measures",
            RouteKind::NamedMeasures,
        )?;
        Ok(Routes { router })
    }

    /// What a request with this method and this target asks for. The target may have the form of a
    /// URL: `http://` and what follows it up to the next `/` are left out, and one without such a
    /// `/` is `/`. The path is what stands before the first `?`. That the path has no route is told
    /// first, then that its route lacks the method, which is compared byte for byte.
    pub fn find<'t>(&self, alloc: Global, method: &[u8], target: &'t [u8]) -> Routed<'t>
        // Memory may be wanting only where the route has a parameter.
        ensures exact { Tells result (routing_of method.now target.now) }
    {
        let (path, query) = split_query(without_server(target));
        let Some((kind, path)) = self.kind_at(path) else {
            return Routed::NoRoute;
        };
        let Some(method) = method_among(method, kind) else {
            let allow = allow_text(kind);
            return Routed::NoMethod { allow };
        };
        match read_route(alloc, kind, path) {
            Ok(route) => Routed::Found {
                route,
                method,
                query,
            },
            Err(Memory) => Routed::Memory,
        }
    }

    /// The kind of a path's route, and the path as text.
    fn kind_at<'p>(&self, path: &'p [u8]) -> Option<(RouteKind, &'p str)>
        ensures { MatchOption result (route_at path.now ≡ None)
            (λ found. (found.1.now ≡ path.now)
            × (route_at path.now ≡ Some (found.0, parameters_of found.0 (segments path.now)))) }
    {
        let Ok(path) = str::from_utf8(path) else {
            return None;
        };
        match self.router.at(path) {
            Ok(found) => Some((*found.value, path)),
            Err(_) => None,
        }
    }
}

// Only memory can be wanting: the caller knows that the route is well written and new.
fn add(router: &mut Router<RouteKind>, route: &str, kind: RouteKind) -> Result<(), Memory>
    requires { is_free route.now router.old ≡ true }
    ensures { OnOk result (router.new ≡ with_row route.now kind router.old) }
{
    match router.insert(route, kind) {
        Ok(()) => Ok(()),
        Err(InsertError::OutOfMemory) => Err(Memory),
        Err(_) => unreachable!(),
    }
}
