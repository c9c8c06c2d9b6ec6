// The segments of a path.
ghost use Rattle.std.specs.Prelude.{◌≡◌, [], get_or};
ghost use Rattle.rest_routes.specs.Path.{segments};

/// The segment of a path with this number, counted from 0; empty behind the last.
pub fn segment(path: &str, number: usize) -> &str
    ensures { result.now ≡ get_or (segments path.now) number [] }
{
    match path.split_once('/') {
        Some((_, rest)) if number > 0 => segment(rest, number - 1),
        Some((front, _)) => front,
        None if number > 0 => "",
        None => path,
    }
}
