// Patterns and the names that they match.
ghost use Rattle.std.specs.Prelude.{◌≡◌, ◌≢◌, ◌↔◌, ℕ, List, ◌∷◌, IsTrue, IfSome, IfNone};
ghost use Rattle.policy_rules.specs.Matching.{Matches};

use crate::literals::left_of;

/// Whether the pattern matches the name: `*` stands for any run of bytes, also the empty one, and
/// every other byte for itself.
pub fn matches(pattern: &[u8], name: &[u8]) -> bool
    ensures { IsTrue result ↔ Matches pattern.now name.now }
{
    let (rest, left) = left_of(pattern, name);
    match behind_star(rest) {
        Some(behind) => matches_behind_star(behind, left),
        None => rest.is_empty() && left.is_empty(),
    }
}

/// Whether `*` and the pattern behind it match the name. The `*` takes one byte more wherever the
/// bytes behind it don't fit. What an earlier `*` took stays: the later one can take as much.
fn matches_behind_star(pattern: &[u8], name: &[u8]) -> bool
    ensures { IsTrue result ↔ Matches (42 ∷ pattern.now) name.now }
{
    let mut after = pattern;
    let mut unread = name;
    loop {
        let (rest, left) = left_of(after, unread);
        if let Some(behind) = behind_star(rest) {
            after = behind;
            unread = left;
        } else if left.is_empty() {
            return rest.is_empty();
        } else {
            unread = &unread[1..];
        }
    }
}

/// What is behind the `*` that the pattern begins with.
fn behind_star(pattern: &[u8]) -> Option<&[u8]>
    ensures some { IfSome result (λ behind. pattern.now ≡ 42 ∷ behind.now) }
    ensures none { IfNone result ((behind : List ℕ) → pattern.now ≢ 42 ∷ behind) }
{
    match pattern {
        [b'*', behind @ ..] => Some(behind),
        _ => None,
    }
}
