// The table of routes worked by hand, and targets and parameters of every form.
use crate::{Method, Route, Routed, Routes};
use archive_policy::Name;
use series_model::MetricId;
use std::alloc::Global;
use std::test::Fail;

fn name_text(name: &Option<Name>) -> &str {
    match name {
        Some(name) => str::from_utf8(name.bytes()).unwrap_or("?"),
        None => "broken",
    }
}

/// The identifiers that the tables have, in words.
fn id_text(id: Option<u128>) -> &'static str {
    match id {
        Some(9) => "nine",
        Some(_) => "another",
        None => "broken",
    }
}

fn metric_text(id: Option<MetricId>) -> &'static str {
    match id {
        Some(MetricId(id)) => id_text(Some(id)),
        None => "broken",
    }
}

/// A route in words, with its last parameter.
fn told(route: &Route) -> (&str, &str) {
    match route {
        Route::Policies => ("policies", ""),
        Route::Policy(name) => ("policy", name_text(name)),
        Route::Rules => ("rules", ""),
        Route::Rule(name) => ("rule", name_text(name)),
        Route::Metrics => ("metrics", ""),
        Route::Metric(id) => ("metric", metric_text(*id)),
        Route::Measures(id) => ("measures", metric_text(*id)),
        Route::BatchMeasures => ("batch", ""),
        Route::Resources => ("resources", ""),
        Route::Resource(id) => ("resource", id_text(*id)),
        Route::ResourceMetrics(id) => ("its metrics", id_text(*id)),
        Route::NamedMeasures(Some(9), name) => ("named of nine", name_text(name)),
        Route::NamedMeasures(_, name) => ("named", name_text(name)),
    }
}

/// What a request asks for: the route, or why there is none.
fn asked<'r>(routed: &'r Routed) -> (&'r str, &'r str) {
    match routed {
        Routed::Found { route, .. } => told(route),
        Routed::NoRoute => ("no route", ""),
        Routed::NoMethod { allow } => (allow, ""),
        Routed::Memory => ("memory", ""),
    }
}

/// Whether a request asks for this route, with this last parameter.
fn asks_for(
    routes: &Routes,
    alloc: Global,
    method: &str,
    target: &[u8],
    route: &str,
    parameter: &str,
) -> bool {
    let routed = routes.find(alloc, method.as_bytes(), target);
    let (found, last) = asked(&routed);
    found == route && last == parameter
}

/// Paths, their routes with the last parameter, and their methods.
const ROWS: [(&str, &str, &str, &str); 12] = [
    ("/v1/archive_policy", "policies", "", "GET, POST"),
    ("/v1/archive_policy/low", "policy", "low", "GET, DELETE"),
    ("/v1/archive_policy_rule", "rules", "", "GET, POST"),
    ("/v1/archive_policy_rule/all", "rule", "all", "GET, DELETE"),
    ("/v1/metric", "metrics", "", "GET, POST"),
    (
        "/v1/metric/00000000-0000-0000-0000-000000000009",
        "metric",
        "nine",
        "GET, DELETE",
    ),
    (
        "/v1/metric/00000000000000000000000000000009/measures",
        "measures",
        "nine",
        "GET, POST",
    ),
    ("/v1/batch/metrics/measures", "batch", "", "POST"),
    ("/v1/resource/generic", "resources", "", "GET, POST"),
    (
        "/v1/resource/generic/urn:uuid:00000000-0000-0000-0000-000000000009",
        "resource",
        "nine",
        "GET, DELETE",
    ),
    (
        "/v1/resource/generic/URN:UUID:00000000-0000-0000-0000-00000000000A/metric",
        "its metrics",
        "another",
        "GET, POST",
    ),
    (
        "/v1/resource/generic/{00000000-0000-0000-0000-000000000009}/metric/cpu/measures",
        "named of nine",
        "cpu",
        "GET, POST",
    ),
];

#[test]
fn every_row_has_its_methods(rt: HostRuntime) -> Result<(), Fail> {
    let routes = Routes::new(rt.alloc())?;
    for (path, route, parameter, allow) in ROWS {
        for method in ["GET", "POST", "DELETE", "HEAD", "get"] {
            let (wanted, last) = if allow.contains(method) {
                (route, parameter)
            } else {
                (allow, "")
            };
            let target = path.as_bytes();
            assert!(rt;
                asks_for(&routes, rt.alloc(), method, target, wanted, last),
                "{path}"
            );
        }
    }
    Ok(())
}

/// Targets, and their routes with the last parameter.
const TARGETS: [(&str, &str, &str); 26] = [
    ("http://host:8041/v1/metric?x=/", "metrics", ""),
    ("http:///v1/metric?", "metrics", ""),
    ("http://host", "no route", ""),
    ("HTTP://host/v1/metric", "no route", ""),
    ("/v1/metric/", "no route", ""),
    ("/v1/metric/?", "no route", ""),
    ("/v1//metric", "no route", ""),
    ("//v1/metric", "no route", ""),
    ("/v1/metric//measures", "no route", ""),
    ("/v1/metrics", "no route", ""),
    ("/v1/metric/9/10", "no route", ""),
    ("/v1/Metric", "no route", ""),
    ("v1/metric", "no route", ""),
    ("/", "no route", ""),
    ("", "no route", ""),
    ("?/v1/metric", "no route", ""),
    ("/v1/archive_policy/a%41%2e+b", "policy", "aA.+b"),
    ("/v1/archive_policy/a%2Fb", "policy", "broken"),
    ("/v1/archive_policy/a%", "policy", "broken"),
    ("/v1/archive_policy/a%4", "policy", "broken"),
    ("/v1/archive_policy/a%4G", "policy", "broken"),
    ("/v1/archive_policy/a%4?1", "policy", "broken"),
    ("/v1/archive_policy/\u{e9}", "policy", "broken"),
    ("/v1/metric/nine", "metric", "broken"),
    (
        "/v1/metric/0000000%30-0000-0000-0000-000000000009",
        "metric",
        "nine",
    ),
    (
        "/v1/resource/generic/a%/metric/b%/measures",
        "named",
        "broken",
    ),
];

#[test]
fn targets_and_parameters(rt: HostRuntime) -> Result<(), Fail> {
    let routes = Routes::new(rt.alloc())?;
    for (target, route, parameter) in TARGETS {
        let bytes = target.as_bytes();
        assert!(rt;
            asks_for(&routes, rt.alloc(), "GET", bytes, route, parameter),
            "{target}"
        );
    }
    let bytes = b"/v1/archive_policy/\xFF";
    assert!(rt; asks_for(&routes, rt.alloc(), "GET", bytes, "no route", ""));
    Ok(())
}

/// Whether a route was found for this method, with this query.
fn has(routed: &Routed, wanted: Method, text: &[u8]) -> bool {
    match routed {
        Routed::Found { method, query, .. } => *method == wanted && *query == text,
        _ => false,
    }
}

#[test]
fn the_method_and_the_query(rt: HostRuntime) -> Result<(), Fail> {
    let routes = Routes::new(rt.alloc())?;
    let target = b"http://host/v1/metric/9?a=%3F?b";
    let routed = routes.find(rt.alloc(), b"DELETE", target);
    assert!(rt; has(&routed, Method::Delete, b"a=%3F?b"));
    Ok(())
}
