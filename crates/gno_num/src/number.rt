// Number tokens: the `number` of RFC 8259.
ghost use Rattle.std.specs.Prelude.{◌≡◌, ◌+◌, ◌-◌, ◌*◌, ◌<◌, ◌≤◌, ◌^◌, ◌++◌, None, Some, MatchOption, ◌==◌, true, length, get_or, min, if◌then◌else◌, IfSome};
ghost use Rattle.std.specs.Str.{all_ascii_digits};
ghost use Rattle.gno_num.specs.Digits.{number_onto};
ghost use Rattle.gno_num.specs.Number.{numerator, denominator, Number as Pieces, IsNumber};
ghost use Rattle.gno_num.specs.Row.{IsShortRow};
ghost use Rattle.gno_num.specs.Scaled.{scaled_of};
ghost use Rattle.gno_num.specs.Reading.{is_whole, fraction_at, exponent_digits, signed_exponent, exponent_of, number_of};

use crate::digits::{number_onto, skip, split_digits};
use std::marker::Model;

/// The pieces of a number token.
#[derive(Drop)]
pub struct Number<'a> {
    negative: bool,
    whole: &'a [u8],
    fraction: &'a [u8],
    lowers: bool,
    exponent: &'a [u8],
}

impl<'a> Model for Number<'a> {
    ghost use Rattle.gno_num.specs.Number as spec;

    ghost Value = { spec.Number };

    ghost use Rattle.std.specs.Prelude.{◌++◌};
    ghost use Rattle.gno_num.specs.Row.{IsShortRow};

    ghost view = { λ n. record { negative = n.negative; whole = n.whole.now; fraction = n.fraction.now; lowers = n.lowers; exponent = n.exponent.now } };

    ghost invariant = { λ n. IsShortRow (n.whole.now ++ n.fraction.now) };
}

/// A number in units: how many whole units there are, or 2^64 - 1 where they don't fit, and what
/// is left behind them.
#[derive(Clone, Copy, Debug, PartialEq, Eq)]
pub struct Scaled {
    pub units: u64,
    pub is_half: bool,
    pub is_exact: bool,
}

impl Scaled {
    /// The number of units, rounded to the nearest with ties up, or 2^64 - 1.
    pub fn rounded(self) -> u64
        ensures { result ≡ min (self.units + (if self.is_half then 1 else 0)) (2 ^ 64 - 1) }
    {
        self.units.saturating_add(u64::from(self.is_half))
    }
}

// An exponent from here on makes too large a number of any digits but zeros, or none at all.
const HUGE_EXPONENT: u64 = 100;

impl<'a> Number<'a> {
    /// Whether the token begins with `-`.
    pub fn is_negative(&self) -> bool
        ensures { result ≡ self.now.negative }
    {
        self.negative
    }

    /// Whether it is zero, `-0` too.
    #[tactic(auto, using(crate::proofs::ScaleLemmas::zero_row))]
    pub fn is_zero(&self) -> bool
        ensures { result ≡ (number_onto 0 (self.now.whole ++ self.now.fraction) == 0) }
    {
        row_number(self.whole, self.fraction) == 0
    }

    /// The magnitude in units of 10^-places.
    pub fn scaled(&self, places: u32) -> Scaled
        requires { places ≤ 16 }
        ensures { result ≡ scaled_of (numerator places self.now) (denominator self.now) }
    {
        let exponent = number_onto(0, self.exponent).min(HUGE_EXPONENT) as usize;
        let places = places as usize;
        let behind = self.fraction.len();
        if self.lowers {
            by_powers(self.whole, self.fraction, places, behind + exponent)
        } else {
            by_powers(self.whole, self.fraction, places + exponent, behind)
        }
    }
}

// The number that two rows of digits spell together, raised by one power of ten and lowered by
// another.
fn by_powers(whole: &[u8], fraction: &[u8], up: usize, down: usize) -> Scaled
    requires { IsShortRow (whole.now ++ fraction.now) }
    ensures { result ≡ scaled_of (number_onto 0 (whole.now ++ fraction.now) * 10 ^ up) (10 ^ down) }
{
    if down <= up {
        raised(whole, fraction, up - down)
    } else {
        lowered(whole, fraction, down - up)
    }
}

// That number, or 2^64 - 1 where it doesn't fit.
fn row_number(front: &[u8], back: &[u8]) -> u64
    ensures { result ≡ min (number_onto 0 (front.now ++ back.now)) (2 ^ 64 - 1) }
{
    number_onto(number_onto(0, front), back)
}

// That number, raised by a power of ten.
fn raised(whole: &[u8], fraction: &[u8], by: usize) -> Scaled
    ensures { result ≡ scaled_of (number_onto 0 (whole.now ++ fraction.now) * 10 ^ by) 1 }
{
    let mut units = row_number(whole, fraction);
    for _ in 0..by {
        units = units.saturating_mul(10);
    }
    Scaled {
        units,
        is_half: false,
        is_exact: true,
    }
}

// That number over a power of ten.
fn lowered(whole: &[u8], fraction: &[u8], by: usize) -> Scaled
    requires row { IsShortRow (whole.now ++ fraction.now) }
    requires some { 0 < by }
    ensures { result ≡ scaled_of (number_onto 0 (whole.now ++ fraction.now)) (10 ^ by) }
{
    let len = whole.len() + fraction.len();
    if len < by {
        return Scaled {
            units: 0,
            is_half: false,
            is_exact: row_number(whole, fraction) == 0,
        };
    }
    cut(whole, fraction, len - by)
}

// The number before the cut, and what is left behind it.
fn cut(whole: &[u8], fraction: &[u8], at: usize) -> Scaled
    requires row { IsShortRow (whole.now ++ fraction.now) }
    requires within { at < length (whole.now ++ fraction.now) }
    ensures { result ≡ scaled_of (number_onto 0 (whole.now ++ fraction.now))
        (10 ^ (length (whole.now ++ fraction.now) - at)) }
{
    let in_whole = at.min(whole.len());
    let (kept_whole, left_whole) = whole.split_at(in_whole);
    let (kept_fraction, left_fraction) = fraction.split_at(at - in_whole);
    Scaled {
        units: row_number(kept_whole, kept_fraction),
        is_half: first(left_whole, left_fraction) >= b'5',
        is_exact: row_number(left_whole, left_fraction) == 0,
    }
}

// The first byte of two texts together.
fn first(front: &[u8], back: &[u8]) -> u8
    ensures { result ≡ get_or (front.now ++ back.now) 0 48 }
{
    match (front, back) {
        ([byte, ..], _) => *byte,
        ([], [byte, ..]) => *byte,
        ([], []) => b'0',
    }
}

/// The pieces of the token, if the whole text is one: a `number` of RFC 8259.
pub fn read_number(text: &[u8]) -> Option<Number<'_>>
    requires { length text.now ≤ 64 }
    ensures exact { result ≡ number_of text.now }

    // They are those that the grammar gives the token.
    ensures found { IfSome result (IsNumber text.now) }
    ensures only { (n : Pieces) → IsNumber text.now n → result ≡ Some n }
{
    pieces_of(text)
}

#[tactic(auto, unfolding(crate::specs::Reading::number_of))]
fn pieces_of(text: &[u8]) -> Option<Number<'_>>
    requires { length text.now ≤ 64 }
    ensures { result ≡ number_of text.now }
{
    let (negative, body) = skip(b'-', text);
    let (whole, rest) = split_digits(body);
    if !is_whole(whole) {
        return None;
    }
    let (fraction, rest) = fraction_at(rest)?;
    let (lowers, exponent) = exponent_of(rest)?;
    Some(Number {
        negative,
        whole,
        fraction,
        lowers,
        exponent,
    })
}

fn is_whole(digits: &[u8]) -> bool
    ensures { result ≡ is_whole digits.now }
{
    match digits {
        [] => false,
        [b'0', _, ..] => false,
        _ => true,
    }
}

#[tactic(auto, using(crate::proofs::RowLemmas::digits_are_digits), unfolding(crate::specs::Reading::fraction_at))]
pub fn fraction_at(text: &[u8]) -> Option<(&[u8], &[u8])>
    ensures found { MatchOption result (fraction_at text.now ≡ None)
        (λ found. fraction_at text.now ≡ Some (found.0.now, found.1.now)) }
    ensures digits { IfSome result (λ found. all_ascii_digits found.0.now ≡ true) }
    ensures len { IfSome result
        (λ found. length found.0.now + length found.1.now ≤ length text.now) }
{
    let (has_point, rest) = skip(b'.', text);
    if !has_point {
        return Some((&text[..0], text));
    }
    let (digits, rest) = split_digits(rest);
    if digits.is_empty() {
        None
    } else {
        Some((digits, rest))
    }
}

#[tactic(auto, unfolding(crate::specs::Reading::exponent_of))]
fn exponent_of(text: &[u8]) -> Option<(bool, &[u8])>
    ensures { MatchOption result (exponent_of text.now ≡ None)
        (λ found. exponent_of text.now ≡ Some (found.0, found.1.now)) }
{
    match text {
        [] => Some((false, text)),
        [mark, rest @ ..] if *mark == b'e' || *mark == b'E' => signed_exponent(rest),
        _ => None,
    }
}

fn signed_exponent(text: &[u8]) -> Option<(bool, &[u8])>
    ensures { MatchOption result (signed_exponent text.now ≡ None)
        (λ found. signed_exponent text.now ≡ Some (found.0, found.1.now)) }
{
    let (lowers, behind_minus) = skip(b'-', text);
    if lowers {
        return exponent_digits(true, behind_minus);
    }
    let (_, behind_plus) = skip(b'+', text);
    exponent_digits(false, behind_plus)
}

fn exponent_digits(lowers: bool, text: &[u8]) -> Option<(bool, &[u8])>
    ensures { MatchOption result (exponent_digits lowers text.now ≡ None)
        (λ found. exponent_digits lowers text.now ≡ Some (found.0, found.1.now)) }
{
    let (digits, rest) = split_digits(text);
    if !digits.is_empty() && rest.is_empty() {
        Some((lowers, digits))
    } else {
        None
    }
}
