// The target of a request: a path and a query.
ghost use Rattle.std.specs.Prelude.{◌≡◌, ◌<◌, length, position, IfSome};
ghost use Rattle.rest_routes.specs.Target.{from_slash, is_mark, path_in, query_in, without_server};

/// A target from its first `/` on, and `/` where it has none.
fn from_slash(target: &[u8]) -> &[u8]
    ensures { result.now ≡ from_slash target.now }
{
    let mut rest = target;
    while let [first, behind @ ..] = rest {
        if *first == b'/' {
            return rest;
        }
        rest = behind;
    }
    b"/"
}

/// A target without `http://` and what follows that up to the next `/`.
pub fn without_server(target: &[u8]) -> &[u8]
    ensures { result.now ≡ without_server target.now }
{
    match target {
        [b'h', b't', b't', b'p', b':', b'/', b'/', rest @ ..] => from_slash(rest),
        _ => target,
    }
}

/// What stands before the first `?`, and what follows it.
pub fn split_query(target: &[u8]) -> (&[u8], &[u8])
    ensures path { result.0.now ≡ path_in target.now }
    ensures query { result.1.now ≡ query_in target.now }
{
    match mark_in(target) {
        Some(at) => (&target[..at], &target[at + 1..]),
        None => (target, b""),
    }
}

/// Where the first `?` is.
fn mark_in(target: &[u8]) -> Option<usize>
    ensures mark { result ≡ position is_mark target.now }
    ensures within { IfSome result (λ at. at < length target.now) }
{
    target.iter().position(|byte| *byte == b'?')
}
