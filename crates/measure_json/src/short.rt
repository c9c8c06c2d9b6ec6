// Measures as most clients write them, read in one pass. What isn't found here may still be one.
ghost use Rattle.std.specs.Prelude.{◌≡◌, ◌+◌, ◌*◌, ◌^◌, ◌<◌, ◌≤◌, ◌++◌, ◌∷◌, true, length, take, IfSome, Ok, codes};
ghost use Rattle.std.specs.Str.{all_ascii_digits};
ghost use Rattle.gno_num.specs.Digits.{number_onto};
ghost use Rattle.gno_num.specs.Value.{signed};
ghost use Rattle.measure_json.specs.Grammar.{Mark, StringText, TimeText, ValueText, TimeMember, ValueMember};
ghost use Rattle.measure_json.specs.Measures.{time_at, value_at, key_at, measure_at};
ghost use Rattle.measure_json.specs.Short.{IsShortWhole, IsShortFraction, IsShortNumber, ends_token};

use crate::marks::{is_blank, skip_blank};
use crate::measures::Key;
use gno_num::{Stamp, Value, skip};
use series_model::Measure;

// The measure written as `{"timestamp":1600000000,"value":0.5}`, and what follows it, where its
// numbers have few digits. White space may stand behind a colon and the comma.
pub fn short_measure(text: &[u8]) -> Option<(Measure, &[u8])>
    ensures { IfSome result (λ found. measure_at text.now ≡ Ok (found.0, found.1.now)) }
{
    let first = behind_byte(b'{', text)?;
    let (at, behind) = match short_time_member(first) {
        Some(found) => found,
        None => return None,
    };
    let second = behind_mark(b',', behind)?;
    let (value, behind) = match short_value_member(second) {
        Some(found) => found,
        None => return None,
    };
    let rest = behind_byte(b'}', behind)?;
    Some((Measure { at, value }, rest))
}

fn short_time_member(text: &[u8]) -> Option<(Stamp, &[u8])>
    ensures { IfSome result (λ found. TimeMember text.now found.0 found.1.now) }
{
    let behind = behind_time_key(text)?;
    let time = behind_mark(b':', behind)?;
    short_time(time)
}

fn short_value_member(text: &[u8]) -> Option<(Value, &[u8])>
    ensures { IfSome result (λ found. ValueMember text.now found.0 found.1.now) }
{
    let behind = behind_value_key(text)?;
    let value = behind_mark(b':', behind)?;
    short_value(value)
}

// One of the two keys without escapes, and what follows it.
pub fn short_key(text: &[u8]) -> Option<(Key, &[u8])>
    ensures { IfSome result (λ found. key_at text.now ≡ Ok (found.0, found.1.now)) }
{
    match behind_time_key(text) {
        Some(rest) => Some((Key::Timestamp, rest)),
        None => match behind_value_key(text) {
            Some(rest) => Some((Key::Value, rest)),
            None => None,
        },
    }
}

fn behind_time_key(text: &[u8]) -> Option<&[u8]>
    ensures { IfSome result (λ rest. StringText text.now (codes "timestamp") rest.now) }
{
    let m = behind_eight(b"\"timesta", text)?;
    let p = behind_byte(b'm', m)?;
    let quote = behind_byte(b'p', p)?;
    behind_byte(b'"', quote)
}

fn behind_value_key(text: &[u8]) -> Option<&[u8]>
    ensures { IfSome result (λ rest. StringText text.now (codes "value") rest.now) }
{
    let u = behind_four(b"\"val", text)?;
    let e = behind_byte(b'u', u)?;
    let quote = behind_byte(b'e', e)?;
    behind_byte(b'"', quote)
}

// A time of few digits behind which no more of its token stands, and what follows it.
pub fn short_time_at(text: &[u8]) -> Option<(Stamp, &[u8])>
    ensures { IfSome result (λ found. time_at text.now ≡ Ok (found.0, found.1.now)) }
{
    match short_time(text) {
        Some(found) if ends_token(found.1) => Some(found),
        _ => None,
    }
}

pub fn short_value_at(text: &[u8]) -> Option<(Value, &[u8])>
    ensures { IfSome result (λ found. value_at text.now ≡ Ok (found.0, found.1.now)) }
{
    match short_value(text) {
        Some(found) if ends_token(found.1) => Some(found),
        _ => None,
    }
}

// Whether a comma, a closing brace or white space stands here.
fn ends_token(text: &[u8]) -> bool
    ensures { result ≡ ends_token text.now }
{
    match text {
        [first, ..] => *first == b',' || *first == b'}' || is_blank(*first),
        [] => false,
    }
}

// What follows these bytes, compared as one number.
fn behind_eight<'a>(bytes: &[u8; 8], text: &'a [u8]) -> Option<&'a [u8]>
    ensures { IfSome result (λ rest. text.now ≡ bytes.now ++ rest.now) }
{
    let (front, rest) = text.split_first_chunk::<8>()?;
    if u64::from_le_bytes(*front) == u64::from_le_bytes(*bytes) {
        Some(rest)
    } else {
        None
    }
}

fn behind_four<'a>(bytes: &[u8; 4], text: &'a [u8]) -> Option<&'a [u8]>
    ensures { IfSome result (λ rest. text.now ≡ bytes.now ++ rest.now) }
{
    let (front, rest) = text.split_first_chunk::<4>()?;
    if u32::from_le_bytes(*front) == u32::from_le_bytes(*bytes) {
        Some(rest)
    } else {
        None
    }
}

fn behind_byte(byte: u8, text: &[u8]) -> Option<&[u8]>
    ensures { IfSome result (λ rest. text.now ≡ byte ∷ rest.now) }
{
    match text {
        [first, rest @ ..] if *first == byte => Some(rest),
        _ => None,
    }
}

// What follows this mark and white space behind it.
fn behind_mark(mark: u8, text: &[u8]) -> Option<&[u8]>
    ensures { IfSome result (λ rest. Mark mark text.now rest.now) }
{
    let rest = behind_byte(mark, text)?;
    Some(skip_blank(rest))
}

// A time of at most ten digits in front of the point.
fn short_time(text: &[u8]) -> Option<(Stamp, &[u8])>
    ensures { IfSome result (λ found. TimeText text.now found.0 found.1.now) }
{
    let (number, places, rest) = short_number(10, text)?;
    let nanos = number * power_of_ten(9 - places);
    let stamp = Stamp::of_nanos(nanos)?;
    Some((stamp, rest))
}

// A value of at most twelve digits in front of the point.
fn short_value(text: &[u8]) -> Option<(Value, &[u8])>
    ensures { IfSome result (λ found. ValueText text.now found.0 found.1.now) }
{
    let (negative, unsigned) = skip(b'-', text);
    let (number, places, rest) = short_number(12, unsigned)?;
    let units = number * power_of_ten(6 - places);
    let value = signed_value(negative, units)?;
    Some((value, rest))
}

// The value of so many units, in front of which a `-` may stand.
fn signed_value(negative: bool, units: u64) -> Option<Value>
    requires { units < 10 ^ 18 }
    ensures { IfSome result (λ value. value ≡ signed negative units) }
{
    let units = units as i64;
    Value::of_units(if negative { -units } else { units })
}

fn power_of_ten(exponent: usize) -> u64
    requires { exponent ≤ 9 }
    ensures { result ≡ 10 ^ exponent }
{
    match exponent {
        0 => 1,
        1 => 10,
        2 => 100,
        3 => 1_000,
        4 => 10_000,
        5 => 100_000,
        6 => 1_000_000,
        7 => 10_000_000,
        8 => 100_000_000,
        9 => 1_000_000_000,
        _ => unreachable!(),
    }
}

// A number of at most so many digits in front of the point and six behind it: in units of
// 10^-places, how many places there are, and what follows.
fn short_number(most: usize, text: &[u8]) -> Option<(u64, usize, &[u8])>
    requires { most ≤ 12 }
    ensures found { IfSome result (λ found. IsShortNumber most text.now found.0 found.1 found.2.now) }
    ensures small { IfSome result (λ found. found.0 < 10 ^ (most + found.1)) }
{
    let (whole, rest) = short_whole(most, text)?;
    short_fraction(whole, rest)
}

// The digits in front of the point.
fn short_whole(most: usize, text: &[u8]) -> Option<(u64, &[u8])>
    requires { most ≤ 12 }
    ensures { IfSome result (λ found. IsShortWhole most text.now found.0 found.1.now) }
{
    let (number, count) = digits_onto(0, most, text);
    let (digits, rest) = text.split_at(count);
    match digits {
        [] | [b'0', _, ..] => None,
        _ => Some((number, rest)),
    }
}

// The point and the digits behind it, or nothing.
fn short_fraction(whole: u64, text: &[u8]) -> Option<(u64, usize, &[u8])>
    requires { whole < 10 ^ 12 }
    ensures { IfSome result (λ found. IsShortFraction whole text.now found.0 found.1 found.2.now) }
{
    let (has_point, behind) = skip(b'.', text);
    if !has_point {
        return Some((whole, 0, text));
    }
    let (number, places) = digits_onto(whole, 6, behind);
    if places == 0 {
        None
    } else {
        Some((number, places, &behind[places..]))
    }
}

// The number that the digits of `number` and the digits in front spell, but at most so many,
// and how many these are.
fn digits_onto(number: u64, most: usize, text: &[u8]) -> (u64, usize)
    requires { (number + 1) * 10 ^ most ≤ 2 ^ 64 }
    ensures number { result.0 ≡ number_onto number (take result.1 text.now) }
    ensures digits { all_ascii_digits (take result.1 text.now) ≡ true }
    ensures few { result.1 ≤ most }
    ensures within { result.1 ≤ length text.now }
{
    let mut total = number;
    let mut count = 0;
    while count < most && count < text.len() && text[count].is_ascii_digit() {
        total = 10 * total + u64::from(text[count] - b'0');
        count += 1;
    }
    (total, count)
}
