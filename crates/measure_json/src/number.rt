// The tokens of numbers.
ghost use Rattle.std.specs.Prelude.{◌≡◌};
ghost use Rattle.measure_json.specs.Fault.{Gives, front_of};
ghost use Rattle.measure_json.specs.Number.{digits_end, whole_end, fraction_end, without_sign, exponent_end, number_end, number_at};

use crate::fault::{ReadError, syntax};
use gno_num::{skip, split_digits};

// The token that stands here, and what follows it.
#[tactic(auto, unfolding(crate::specs::Number::number_at))]
pub fn number_at(text: &[u8]) -> Result<(&[u8], &[u8]), ReadError>
    ensures { Gives (λ found. (found.0.now, found.1.now)) result (number_at text.now) }
{
    let rest = number_end(text)?;
    Ok((front_of(text, rest), rest))
}

// What stands in front of what is left.
pub fn front_of<'a>(text: &'a [u8], rest: &[u8]) -> &'a [u8]
    ensures { result.now ≡ front_of text.now rest.now }
{
    &text[..text.len().saturating_sub(rest.len())]
}

#[tactic(auto, unfolding(crate::specs::Number::number_end))]
fn number_end(text: &[u8]) -> Result<&[u8], ReadError>
    ensures { Gives (λ rest. rest.now) result (number_end text.now) }
{
    let (_, whole) = skip(b'-', text);
    let fraction = whole_end(whole)?;
    let exponent = fraction_end(fraction)?;
    exponent_end(exponent)
}

#[tactic(auto, unfolding(crate::specs::Number::whole_end))]
fn whole_end(text: &[u8]) -> Result<&[u8], ReadError>
    ensures { Gives (λ rest. rest.now) result (whole_end text.now) }
{
    let (is_zero, rest) = skip(b'0', text);
    if is_zero { Ok(rest) } else { digits_end(text) }
}

// What follows one digit or more.
#[tactic(auto, unfolding(crate::specs::Number::digits_end))]
fn digits_end(text: &[u8]) -> Result<&[u8], ReadError>
    ensures { Gives (λ rest. rest.now) result (digits_end text.now) }
{
    match text {
        [first, rest @ ..] if first.is_ascii_digit() => {
            let (_, behind) = split_digits(rest);
            Ok(behind)
        }
        _ => Err(syntax(text)),
    }
}

#[tactic(auto, unfolding(crate::specs::Number::fraction_end))]
fn fraction_end(text: &[u8]) -> Result<&[u8], ReadError>
    ensures { Gives (λ rest. rest.now) result (fraction_end text.now) }
{
    let (has_point, rest) = skip(b'.', text);
    if has_point {
        digits_end(rest)
    } else {
        Ok(text)
    }
}

#[tactic(auto, unfolding(crate::specs::Number::exponent_end))]
fn exponent_end(text: &[u8]) -> Result<&[u8], ReadError>
    ensures { Gives (λ rest. rest.now) result (exponent_end text.now) }
{
    match text {
        [mark, rest @ ..] if *mark == b'e' || *mark == b'E' => digits_end(without_sign(rest)),
        _ => Ok(text),
    }
}

#[tactic(auto, unfolding(crate::specs::Number::without_sign))]
fn without_sign(text: &[u8]) -> &[u8]
    ensures { result.now ≡ without_sign text.now }
{
    let (lowers, behind_minus) = skip(b'-', text);
    if lowers {
        return behind_minus;
    }
    let (_, behind_plus) = skip(b'+', text);
    behind_plus
}
