// Fields of fixed width.
ghost use Rattle.std.specs.Prelude.{◌≡◌, ◌<◌, ◌≤◌, ◌^◌, None, Some, MatchOption, IfSome, true, length};
ghost use Rattle.std.specs.Str.{all_ascii_digits};
ghost use Rattle.gno_time.specs.Fields.{number_at, field_at, nanos_at, nanos_of};

use gno_num::{are_digits, number_onto, skip, split_digits};

/// A number of so many digits, at most the given one, and what follows it.
#[tactic(auto, unfolding(crate::specs::Fields::number_at))]
pub(crate) fn number_at(count: usize, most: u64, text: &[u8]) -> Option<(u64, &[u8])>
    requires { most ≤ 9999 }
    ensures found { MatchOption result (number_at count most text.now ≡ None)
        (λ found. number_at count most text.now ≡ Some (found.0, found.1.now)) }
    ensures most { IfSome result (λ found. found.0 ≤ most) }
{
    if text.len() < count {
        return None;
    }
    let (digits, rest) = text.split_at(count);
    let number = number_onto(0, digits);
    if are_digits(digits) && number <= most {
        Some((number, rest))
    } else {
        None
    }
}

/// The same, behind a mark.
#[tactic(auto, unfolding(crate::specs::Fields::field_at))]
pub(crate) fn field_at(mark: u8, count: usize, most: u64, text: &[u8]) -> Option<(u64, &[u8])>
    requires { most ≤ 9999 }
    ensures found { MatchOption result (field_at mark count most text.now ≡ None)
        (λ found. field_at mark count most text.now ≡ Some (found.0, found.1.now)) }
    ensures most { IfSome result (λ found. found.0 ≤ most) }
{
    let (has_mark, rest) = skip(mark, text);
    if has_mark {
        number_at(count, most, rest)
    } else {
        None
    }
}

/// The nanoseconds that 1 to 9 digits behind a point spell, or 0 where there is no point, and what
/// follows.
#[tactic(auto, using(gno_num::proofs::RowLemmas::digits_are_digits), unfolding(crate::specs::Fields::nanos_at))]
pub(crate) fn nanos_at(text: &[u8]) -> Option<(u64, &[u8])>
    ensures found { MatchOption result (nanos_at text.now ≡ None)
        (λ found. nanos_at text.now ≡ Some (found.0, found.1.now)) }
    ensures most { IfSome result (λ found. found.0 < 10 ^ 9) }
{
    let (has_point, rest) = skip(b'.', text);
    if !has_point {
        return Some((0, text));
    }
    let (digits, rest) = split_digits(rest);
    if digits.is_empty() || digits.len() > 9 {
        return None;
    }
    Some((nanos_of(digits), rest))
}

fn nanos_of(digits: &[u8]) -> u64
    requires digits { all_ascii_digits digits.now ≡ true }
    requires few { length digits.now ≤ 9 }
    ensures value { result ≡ nanos_of digits.now }
    ensures most { result < 10 ^ 9 }
{
    number_onto(0, digits) * 10u64.pow(9 - digits.len() as u32)
}
