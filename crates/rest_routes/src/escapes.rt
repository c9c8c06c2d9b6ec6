// The escapes of a parameter: `%` and two hexadecimal digits stand for a byte.
ghost use Rattle.std.specs.Prelude.{◌≡◌, ◌∷◌, ◌<◌, true, false, length, IfOk, IfSome, MatchOption, OnErr, option_map, is_some};
ghost use Rattle.std.specs.Cow.{cow_slice_items};
ghost use Rattle.rest_routes.specs.Escapes.{percent, unescaped};

use percent_encoding::percent_decode;
use std::alloc::{AllocError, Global};
use std::borrow::CowSlice;

/// What follows the two hexadecimal digits at the front.
fn after_digits(text: &[u8]) -> Option<&[u8]>
    ensures whole { MatchOption result (is_some (unescaped (percent ∷ text.now)) ≡ false)
        (λ rest. is_some (unescaped (percent ∷ text.now)) ≡ is_some (unescaped rest.now)) }
    ensures shorter { IfSome result (λ rest. length rest.now < length text.now) }
{
    let [high, low, rest @ ..] = text else {
        return None;
    };
    if high.is_ascii_hexdigit() && low.is_ascii_hexdigit() {
        Some(rest)
    } else {
        None
    }
}

/// Whether each `%` begins an escape.
fn is_whole(text: &[u8]) -> bool
    ensures { result ≡ is_some (unescaped text.now) }
{
    let mut rest = text;
    while let [first, behind @ ..] = rest {
        if *first != b'%' {
            rest = behind;
            continue;
        }
        match after_digits(behind) {
            Some(more) => rest = more,
            None => return false,
        }
    }
    true
}

/// The text that a parameter stands for, `None` where a `%` begins no escape. Only a parameter with
/// an escape takes memory.
pub fn unescape<'p>(
    alloc: Global,
    parameter: &'p str,
) -> Result<Option<CowSlice<'p, u8, Global>>, AllocError>
    ensures ok { IfOk result (λ o. option_map (λ text. cow_slice_items text) o ≡ unescaped parameter.now) }
    ensures err { OnErr result (is_some (unescaped parameter.now) ≡ true) }
{
    let bytes = parameter.as_bytes();
    if !is_whole(bytes) {
        return Ok(None);
    }
    let text = percent_decode(bytes).into_cow(alloc)?;
    Ok(Some(text))
}
