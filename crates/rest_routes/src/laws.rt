// What is true of targets, paths and parameters.
ghost use Rattle.std.specs.Prelude.{◌≡◌, ◌≢◌, ◌↔◌, ℕ, [], ◌∷◌, ◌++◌, List, Some, None, All, IsTrue, codes};
ghost use Rattle.archive_policy.specs.Names.{IsName};
ghost use Rattle.rest_routes.specs.Escapes.{unescaped};
ghost use Rattle.rest_routes.specs.Parameter.{may_be_name};
ghost use Rattle.rest_routes.specs.Path.{RawRoute, raw_route_of, segments};
ghost use Rattle.rest_routes.specs.Target.{path_in, query_in, without_server};
ghost use Rattle.rest_routes.specs.Written.{HasRoute, IsRawRoute, path_text};

/// Segments have at most one route.
pub fn one_route()
    ensures { (parts : List (List ℕ)) (a b : RawRoute) → HasRoute parts a → HasRoute parts b → a ≡ b }
{}

/// A path has the route that the table gives its segments, and no other.
pub fn routes_are_rows()
    ensures { (path : List ℕ) (raw : RawRoute) → raw_route_of path ≡ Some raw ↔ HasRoute (segments path) raw }
{}

/// Each row of the table, written with its parameters, has the route of the row.
pub fn every_row()
    ensures { (raw : RawRoute) → IsRawRoute raw → raw_route_of (path_text raw.0 raw.1) ≡ Some raw }
{}

/// What has a route is written so.
pub fn only_rows()
    ensures { (path : List ℕ) (raw : RawRoute) → raw_route_of path ≡ Some raw → path ≡ path_text raw.0 raw.1 }
{}

/// A path that ends in a slash has no route.
pub fn no_slash_at_the_end()
    ensures { (path : List ℕ) → raw_route_of (path ++ codes "/") ≡ None }
{}

/// A path with two slashes, one behind the other, has no route.
pub fn no_empty_segment()
    ensures { (front rest : List ℕ) → raw_route_of (front ++ (codes "//" ++ rest)) ≡ None }
{}

/// A target is cut at its first `?`.
pub fn path_and_query()
    ensures path { (path query : List ℕ) → All (λ b. b ≢ 63) path → path_in (path ++ (codes "?" ++ query)) ≡ path }
    ensures query { (path query : List ℕ) → All (λ b. b ≢ 63) path → query_in (path ++ (codes "?" ++ query)) ≡ query }
    ensures whole { (path : List ℕ) → All (λ b. b ≢ 63) path → path_in path ≡ path }
    ensures empty { (path : List ℕ) → All (λ b. b ≢ 63) path → query_in path ≡ [] }
{}

/// `http://` and the name of a server are left out.
pub fn server_is_left_out()
    ensures rest { (server rest : List ℕ) → All (λ b. b ≢ 47) server
        → without_server (codes "http://" ++ (server ++ (codes "/" ++ rest))) ≡ codes "/" ++ rest }
    ensures root { (server : List ℕ) → All (λ b. b ≢ 47) server
        → without_server (codes "http://" ++ server) ≡ codes "/" }
    ensures kept { (rest : List ℕ) → without_server (codes "/" ++ rest) ≡ codes "/" ++ rest }
{}

/// A parameter without `%` stands for itself.
pub fn plain_parameter()
    ensures { (text : List ℕ) → All (λ b. b ≢ 37) text → unescaped text ≡ Some text }
{}

/// The texts that are read as names are the names.
pub fn names_are_names()
    ensures { (text : List ℕ) → IsTrue (may_be_name text) ↔ IsName text }
{}
