// Reading a length of time.
ghost use Rattle.std.specs.Prelude.{◌≡◌, ◌+◌, ◌-◌, ◌*◌, ◌%◌, ◌<◌, ◌≤◌, ◌^◌, ◌++◌, ◌||◌, true, None, Some, MatchOption, IfSome, length, min, ℕ, List, IfNone, Err};
ghost use Rattle.std.specs.Str.{all_ascii_digits, bytes_eq};
ghost use Rattle.gno_num.specs.Digits.{number_onto};
ghost use Rattle.gno_num.specs.Number.{numerator, denominator, Number as Pieces, IsNumber};
ghost use Rattle.gno_time.specs.SpanText.{IsAmountText, IsClockText};
ghost use Rattle.gno_time.specs.Units.{unit_of, is_millisecond, is_second, is_minute, is_hour, is_day, is_week};
ghost use Rattle.gno_time.specs.SpanReading.{span_in_range, span_of, span_of_number, without_spaces, span_of_units, amount_of, after, behind_days, days_at, hour_at, clock_of, days_and_clock_of, span_of_any, span_read};

use crate::fields::{field_at, nanos_at, number_at};
use gno_num::{
    LONGEST_TOKEN, Number, Span, fraction_at, number_onto, read_number, skip, split_digits,
};

/// Why a text is no span.
#[derive(Clone, Copy, Debug, PartialEq, Eq)]
pub enum SpanFault {
    /// It is no length of time, or not a whole number of nanoseconds.
    BadSpan,
    /// It is shorter than a millisecond or longer than 9,000,000,000 s.
    SpanRange,
}

/// The length of time that a text spells: seconds as a number token without `-` of at most 64 bytes
/// (RFC 8259); digits with a point or none, spaces, and a unit, as `1.5 min`; or days, hours,
/// minutes and seconds, as `1 day, 0:00:00` and `0:01:00.5`.
pub fn read_span(text: &[u8]) -> Result<Span, SpanFault>
    ensures exact { result ≡ span_read text.now }

    // What the three grammars say of it.
    ensures number { (n : Pieces) → length text.now ≤ 64 → IsNumber text.now n → result ≡ span_of_number n }
    ensures amount { (whole fraction word : List ℕ) (unit : ℕ) → unit_of word ≡ Some unit
        → IsAmountText text.now whole fraction word → result ≡ span_of_units whole fraction unit }
    ensures clock { (days seconds nanos : ℕ) → IsClockText text.now days seconds nanos
        → result ≡ span_in_range ((days * 86400 + seconds) * 10 ^ 9 + nanos) }
    ensures bad_span { ((n : Pieces) → length text.now ≤ 64 → ¬ IsNumber text.now n)
        → ((whole fraction word : List ℕ) (unit : ℕ) → unit_of word ≡ Some unit → ¬ IsAmountText text.now whole fraction word)
        → ((days seconds nanos : ℕ) → ¬ IsClockText text.now days seconds nanos)
        → result ≡ Err SpanFault.BadSpan }
{
    span_at(text)
}

#[tactic(auto, unfolding(crate::specs::SpanReading::span_read))]
fn span_at(text: &[u8]) -> Result<Span, SpanFault>
    ensures { result ≡ span_read text.now }
{
    if text.len() > LONGEST_TOKEN {
        return span_of_any(text);
    }
    match read_number(text) {
        Some(number) => span_of_number(&number),
        None => span_of_any(text),
    }
}

fn span_of_any(text: &[u8]) -> Result<Span, SpanFault>
    ensures { result ≡ span_of_any (amount_of text.now) (days_and_clock_of text.now) }
{
    if let Some(span) = amount_of(text) {
        return span;
    }
    days_and_clock_of(text).unwrap_or(Err(SpanFault::BadSpan))
}

#[tactic(auto, unfolding(crate::specs::SpanReading::span_of_number))]
fn span_of_number(number: &Number<'_>) -> Result<Span, SpanFault>
    ensures { result ≡ span_of_number number.now }
{
    if number.is_negative() {
        return Err(SpanFault::BadSpan);
    }
    span_of_seconds(number)
}

fn span_of_seconds(number: &Number<'_>) -> Result<Span, SpanFault>
    ensures { result ≡ span_of (numerator 9 number.now) (denominator number.now) }
{
    let scaled = number.scaled(9);
    if scaled.is_exact {
        span_in_range(u128::from(scaled.units))
    } else {
        Err(SpanFault::BadSpan)
    }
}

#[tactic(auto, unfolding(crate::specs::SpanReading::span_in_range))]
fn span_in_range(nanos: u128) -> Result<Span, SpanFault>
    ensures { result ≡ span_in_range nanos }
{
    if nanos > 9_000_000_000_000_000_000 {
        return Err(SpanFault::SpanRange);
    }
    Span::of_nanos(nanos as u64).ok_or(SpanFault::SpanRange)
}

// Digits with a point or none, spaces, and a unit.
#[tactic(auto, unfolding(crate::specs::SpanReading::amount_of))]
fn amount_of(text: &[u8]) -> Option<Result<Span, SpanFault>>
    ensures { result ≡ amount_of text.now }
{
    let (whole, rest) = split_digits(text);
    if whole.is_empty() {
        return None;
    }
    let (fraction, rest) = fraction_at(rest)?;
    if text.len() - rest.len() > LONGEST_TOKEN {
        return None;
    }
    let unit = unit_of(without_spaces(rest))?;
    Some(span_of_units(whole, fraction, unit))
}

fn without_spaces(text: &[u8]) -> &[u8]
    ensures { result.now ≡ without_spaces text.now }
{
    let mut rest = text;
    while let [b' ', behind @ ..] = rest {
        rest = behind;
    }
    rest
}

// So many units, which have to be a whole number of nanoseconds.
fn span_of_units(whole: &[u8], fraction: &[u8], unit: u64) -> Result<Span, SpanFault>
    requires digits { all_ascii_digits fraction.now ≡ true }
    requires least { 10 ^ 6 ≤ unit }
    requires most { unit ≤ 10 ^ 15 }
    ensures { result ≡ span_of_units whole.now fraction.now unit }
{
    match part_of(fraction, unit) {
        None => Err(SpanFault::BadSpan),
        Some(part) => {
            let nanos = u128::from(number_onto(0, whole)) * u128::from(unit);
            span_in_range(nanos + u128::from(part))
        }
    }
}

// The nanoseconds of a fraction of a unit, if they are a whole number.
fn part_of(fraction: &[u8], unit: u64) -> Option<u64>
    requires digits { all_ascii_digits fraction.now ≡ true }
    requires most { unit ≤ 10 ^ 15 }
    ensures none { IfNone result (¬ (number_onto 0 fraction.now * unit % 10 ^ length fraction.now ≡ 0)) }
    ensures some { IfSome result (λ part. number_onto 0 fraction.now * unit ≡ part * 10 ^ length fraction.now) }
    ensures most { IfSome result (λ part. part ≤ unit) }
{
    match fraction {
        [] => Some(0),
        [digit, rest @ ..] => {
            let behind = part_of(rest, unit)?;
            let tenths = u64::from(*digit - b'0') * unit + behind;
            if tenths % 10 == 0 {
                Some(tenths / 10)
            } else {
                None
            }
        }
    }
}

#[tactic(auto, unfolding(crate::specs::Units::unit_of))]
fn unit_of(text: &[u8]) -> Option<u64>
    ensures found { result ≡ unit_of text.now }
    ensures least { IfSome result (λ unit. 10 ^ 6 ≤ unit) }
    ensures most { IfSome result (λ unit. unit ≤ 10 ^ 15) }
{
    if is_millisecond(text) {
        Some(1_000_000)
    } else if is_second(text) {
        Some(1_000_000_000)
    } else if is_minute(text) {
        Some(60_000_000_000)
    } else if is_hour(text) {
        Some(3_600_000_000_000)
    } else if is_day(text) {
        Some(86_400_000_000_000)
    } else if is_week(text) {
        Some(604_800_000_000_000)
    } else {
        None
    }
}

fn is_millisecond(text: &[u8]) -> bool
    ensures { result ≡ is_millisecond text.now }
{
    is_word(text, b"ms") || is_word(text, b"millisecond") || is_word(text, b"milliseconds")
}

fn is_second(text: &[u8]) -> bool
    ensures { result ≡ is_second text.now }
{
    is_word(text, b"s")
        || is_word(text, b"sec")
        || is_word(text, b"second")
        || is_word(text, b"seconds")
}

fn is_minute(text: &[u8]) -> bool
    ensures { result ≡ is_minute text.now }
{
    is_word(text, b"m")
        || is_word(text, b"min")
        || is_word(text, b"minute")
        || is_word(text, b"minutes")
}

fn is_hour(text: &[u8]) -> bool
    ensures { result ≡ is_hour text.now }
{
    is_word(text, b"h") || is_word(text, b"hour") || is_word(text, b"hours")
}

fn is_day(text: &[u8]) -> bool
    ensures { result ≡ is_day text.now }
{
    is_word(text, b"d") || is_word(text, b"day") || is_word(text, b"days")
}

fn is_week(text: &[u8]) -> bool
    ensures { result ≡ is_week text.now }
{
    is_word(text, b"w") || is_word(text, b"week") || is_word(text, b"weeks")
}

fn is_word(text: &[u8], word: &[u8]) -> bool
    ensures { result ≡ bytes_eq text.now word.now }
{
    text == word
}

// Days or none, and a time.
#[tactic(auto, unfolding(crate::specs::SpanReading::days_and_clock_of))]
fn days_and_clock_of(text: &[u8]) -> Option<Result<Span, SpanFault>>
    ensures { result ≡ days_and_clock_of text.now }
{
    let (days, rest) = days_at(text)?;
    let (clock, nanos) = clock_of(rest)?;
    Some(span_of_days(days, clock, nanos))
}

// Days, seconds and nanoseconds; more than 2^64 - 2 days are too many as well.
fn span_of_days(days: u64, clock: u64, nanos: u64) -> Result<Span, SpanFault>
    requires clock { clock < 86400 }
    requires nanos { nanos < 10 ^ 9 }
    ensures { (all : ℕ) → days ≡ min all (2 ^ 64 - 1)
        → result ≡ span_in_range ((all * 86400 + clock) * 10 ^ 9 + nanos) }
{
    let seconds = u128::from(days) * 86_400 + u128::from(clock);
    span_in_range(seconds * 1_000_000_000 + u128::from(nanos))
}

#[tactic(auto, unfolding(crate::specs::SpanReading::days_at))]
fn days_at(text: &[u8]) -> Option<(u64, &[u8])>
    ensures { MatchOption result (days_at text.now ≡ None)
        (λ found. (days : ℕ) × (days_at text.now ≡ Some (days, found.1.now)) × (found.0 ≡ min days (2 ^ 64 - 1))) }
{
    let (digits, rest) = split_digits(text);
    let (has_space, behind) = skip(b' ', rest);
    if digits.is_empty() || !has_space {
        return Some((0, text));
    }
    let rest = behind_days(behind)?;
    Some((number_onto(0, digits), rest))
}

#[tactic(auto, unfolding(crate::specs::SpanReading::behind_days))]
fn behind_days(text: &[u8]) -> Option<&[u8]>
    ensures { MatchOption result (behind_days text.now ≡ None) (λ rest. behind_days text.now ≡ Some rest.now) }
{
    let rest = after(b"day", text)?;
    let (_, rest) = skip(b's', rest);
    after(b", ", rest)
}

#[tactic(auto, unfolding(crate::specs::SpanReading::after))]
fn after<'a>(bytes: &[u8], text: &'a [u8]) -> Option<&'a [u8]>
    ensures { MatchOption result (after bytes.now text.now ≡ None) (λ rest. after bytes.now text.now ≡ Some rest.now) }
{
    let [byte, bytes @ ..] = bytes else {
        return Some(text);
    };
    let (found, rest) = skip(*byte, text);
    if found { after(bytes, rest) } else { None }
}

#[tactic(auto, unfolding(crate::specs::SpanReading::hour_at))]
fn hour_at(text: &[u8]) -> Option<(u64, &[u8])>
    ensures found { MatchOption result (hour_at text.now ≡ None)
        (λ found. hour_at text.now ≡ Some (found.0, found.1.now)) }
    ensures most { IfSome result (λ found. found.0 ≤ 23) }
{
    let (digits, _) = split_digits(text);
    number_at(if digits.len() == 1 { 1 } else { 2 }, 23, text)
}

#[tactic(auto, unfolding(crate::specs::SpanReading::clock_of))]
fn clock_of(text: &[u8]) -> Option<(u64, u64)>
    ensures found { result ≡ clock_of text.now }
    ensures clock { IfSome result (λ found. found.0 < 86400) }
    ensures nanos { IfSome result (λ found. found.1 < 10 ^ 9) }
{
    let (hour, rest) = hour_at(text)?;
    let (minute, rest) = field_at(b':', 2, 59, rest)?;
    let (second, rest) = field_at(b':', 2, 59, rest)?;
    let (nanos, rest) = nanos_at(rest)?;
    if rest.is_empty() {
        Some((hour * 3600 + minute * 60 + second, nanos))
    } else {
        None
    }
}
