// The methods of requests.
ghost use Rattle.std.specs.Prelude.{◌≡◌};
ghost use Rattle.rest_routes.specs.Method.{method_name, methods_of, method_among, allow_text};

use crate::kind::RouteKind;

/// A method that a route may have.
#[derive(Clone, Copy, Debug, PartialEq, Eq)]
pub enum Method {
    Get,
    Post,
    Delete,
}

fn name_of(method: Method) -> &'static [u8]
    ensures { result.now ≡ method_name method }
{
    match method {
        Method::Get => b"GET",
        Method::Post => b"POST",
        Method::Delete => b"DELETE",
    }
}

/// The methods of a route.
fn methods_of(kind: RouteKind) -> &'static [Method]
    ensures { result.now ≡ methods_of kind }
{
    match kind {
        RouteKind::Policies
        | RouteKind::Rules
        | RouteKind::Metrics
        | RouteKind::Measures
        | RouteKind::Resources
        | RouteKind::ResourceMetrics
        | RouteKind::NamedMeasures => &[Method::Get, Method::Post],
        RouteKind::Policy | RouteKind::Rule | RouteKind::Metric | RouteKind::Resource => {
            &[Method::Get, Method::Delete]
        }
        RouteKind::BatchMeasures => &[Method::Post],
    }
}

/// The methods of a route, as `Allow` gives them.
pub fn allow_text(kind: RouteKind) -> &'static str
    ensures { result.now ≡ allow_text (methods_of kind) }
{
    match methods_of(kind) {
        [Method::Get, Method::Post] => "GET, POST",
        [Method::Get, Method::Delete] => "GET, DELETE",
        _ => "POST",
    }
}

/// The method of a route with this name.
pub fn method_among(name: &[u8], kind: RouteKind) -> Option<Method>
    ensures { result ≡ method_among name.now (methods_of kind) }
{
    methods_of(kind)
        .iter()
        .copied()
        .find(|method| name == name_of(*method))
}
