// Reading a time.
ghost use Rattle.std.specs.Prelude.{◌≡◌, ◌<◌, ◌≤◌, ◌^◌, ◌*◌, None, Some, ◌-◌, MatchOption, IfSome, Ok, Err, length, nat_lt, pos, min, if◌then◌else◌};
ghost use Rattle.gno_num.specs.Number.{numerator, denominator, nearest};
ghost use Rattle.jiff_core.specs.Calendar.{IsEpochDay, days_from_civil};
ghost use Rattle.gno_time.specs.Moment.{stamp_at, seconds_of, stamp_of_moment, IsMoment};
ghost use Rattle.gno_num.specs.Number.{Number as Pieces, IsNumber};
ghost use Rattle.gno_time.specs.declared.moment.Moment.{Moment as At};
ghost use Rattle.gno_time.specs.StampText.{IsMomentText};
ghost use Rattle.gno_time.specs.StampReading.{is_date, date_at, second_at, hours_of, offset_of, clock_of, time_of, moment_of, stamp_of_number, stamp_read};

use crate::fields::{field_at, nanos_at, number_at};
use crate::moment::Moment;
use gno_num::{LONGEST_TOKEN, Number, Stamp, read_number, skip};
use jiff_core::civil::Date;

/// Why a text is no stamp.
#[derive(Clone, Copy, Debug, PartialEq, Eq)]
pub enum TimeFault {
    /// It is neither seconds nor a date with a time.
    BadTime,
    /// It lies before 1 January 1970 in UTC.
    BeforeEpoch,
    /// It lies 9,000,000,000 s or more after it.
    TooLate,
}

/// The stamp of a time: seconds as a number token of at most 64 bytes (RFC 8259), rounded to the
/// nearest nanosecond with ties up; or `YYYY-MM-DD`, with `T` or a space and `HH:MM`, `:SS`, a
/// point and 1 to 9 digits, and `Z`, `z`, `+HH:MM` or `-HH:MM`. No time means midnight, no offset
/// means UTC.
pub fn read_stamp(text: &[u8]) -> Result<Stamp, TimeFault>
    ensures exact { result ≡ stamp_read text.now }

    // What the two grammars say of it.
    ensures number { (n : Pieces) → length text.now ≤ 64 → IsNumber text.now n → result ≡ stamp_of_number n }
    ensures moment { (m : At) → IsMomentText text.now m → result ≡ stamp_of_moment m }
    ensures bad_time { ((n : Pieces) → length text.now ≤ 64 → ¬ IsNumber text.now n)
        → ((m : At) → ¬ IsMomentText text.now m) → result ≡ Err TimeFault.BadTime }
{
    stamp_of(text)
}

#[tactic(auto, unfolding(crate::specs::StampReading::stamp_read))]
fn stamp_of(text: &[u8]) -> Result<Stamp, TimeFault>
    ensures { result ≡ stamp_read text.now }
{
    if text.len() > LONGEST_TOKEN {
        return Err(TimeFault::BadTime);
    }
    if let Some(number) = read_number(text) {
        return stamp_of_number(&number);
    }
    match moment_of(text) {
        Some(moment) => stamp_of_moment(moment),
        None => Err(TimeFault::BadTime),
    }
}

#[tactic(auto, unfolding(crate::specs::StampReading::stamp_of_number))]
fn stamp_of_number(number: &Number<'_>) -> Result<Stamp, TimeFault>
    ensures { result ≡ stamp_of_number number.now }
{
    if number.is_negative() && !number.is_zero() {
        return Err(TimeFault::BeforeEpoch);
    }
    stamp_of_nanos(nanos_of(number))
}

// The nanoseconds of so many seconds, or 2^64 - 1 where they don't fit.
fn nanos_of(number: &Number<'_>) -> u64
    ensures { result ≡ min (nearest (numerator 9 number.now) (denominator number.now)) (2 ^ 64 - 1) }
{
    number.scaled(9).rounded()
}

fn stamp_of_nanos(nanos: u64) -> Result<Stamp, TimeFault>
    ensures { result ≡ (if nat_lt nanos (9 * 10 ^ 18) then Ok nanos else Err TimeFault.TooLate) }
{
    Stamp::of_nanos(nanos).ok_or(TimeFault::TooLate)
}

#[tactic(auto, unfolding(crate::specs::Moment::stamp_of_moment))]
fn stamp_of_moment(moment: Moment) -> Result<Stamp, TimeFault>
    requires { IsMoment moment }
    ensures { result ≡ stamp_of_moment moment }
{
    stamp_at(seconds_of(moment), moment.nanos)
}

// The seconds from the epoch.
fn seconds_of(moment: Moment) -> i64
    requires { IsMoment moment }
    ensures { result ≡ seconds_of moment }
{
    let clock = moment.day * 86_400 + moment.clock as i64;
    let offset = moment.offset as i64;
    if moment.is_west {
        clock + offset
    } else {
        clock - offset
    }
}

fn stamp_at(seconds: i64, nanos: u64) -> Result<Stamp, TimeFault>
    requires { nanos < 10 ^ 9 }
    ensures { result ≡ stamp_at seconds nanos }
{
    if seconds < 0 {
        return Err(TimeFault::BeforeEpoch);
    }
    if seconds >= 9_000_000_000 {
        return Err(TimeFault::TooLate);
    }
    stamp_of_nanos(seconds as u64 * 1_000_000_000 + nanos)
}

#[tactic(auto, unfolding(crate::specs::StampReading::moment_of))]
fn moment_of(text: &[u8]) -> Option<Moment>
    ensures found { result ≡ moment_of text.now }
    ensures range { IfSome result IsMoment }
{
    let (day, rest) = date_at(text)?;
    time_of(day, rest)
}

#[tactic(auto, unfolding(crate::specs::StampReading::date_at))]
fn date_at(text: &[u8]) -> Option<(i64, &[u8])>
    ensures found { MatchOption result (date_at text.now ≡ None)
        (λ found. date_at text.now ≡ Some (found.0, found.1.now)) }
    ensures range { IfSome result (λ found. IsEpochDay found.0) }
{
    let (year, rest) = number_at(4, 9999, text)?;
    let (month, rest) = field_at(b'-', 2, 99, rest)?;
    let (day, rest) = field_at(b'-', 2, 99, rest)?;
    Some((day_number(year, month, day)?, rest))
}

// The days since 1 January 1970, if the calendar has the date.
fn day_number(year: u64, month: u64, day: u64) -> Option<i64>
    requires year { year ≤ 9999 }
    requires month { month ≤ 99 }
    requires day { day ≤ 99 }
    ensures found { result ≡ (if is_date year month day then Some (days_from_civil (pos year) month day) else None) }
    ensures range { IfSome result IsEpochDay }
{
    match Date::new(year as i16, month as i8, day as i8) {
        Ok(date) => Some(i64::from(date.to_unix_epoch_day())),
        Err(_) => None,
    }
}

#[tactic(auto, unfolding(crate::specs::StampReading::time_of))]
fn time_of(day: i64, text: &[u8]) -> Option<Moment>
    requires { IsEpochDay day }
    ensures found { result ≡ time_of day text.now }
    ensures range { IfSome result IsMoment }
{
    match text {
        [] => Some(Moment {
            day,
            clock: 0,
            nanos: 0,
            is_west: false,
            offset: 0,
        }),
        [mark, rest @ ..] if *mark == b'T' || *mark == b' ' => clock_of(day, rest),
        _ => None,
    }
}

#[tactic(auto, unfolding(crate::specs::StampReading::clock_of))]
fn clock_of(day: i64, text: &[u8]) -> Option<Moment>
    requires { IsEpochDay day }
    ensures found { result ≡ clock_of day text.now }
    ensures range { IfSome result IsMoment }
{
    let (hour, rest) = number_at(2, 23, text)?;
    let (minute, rest) = field_at(b':', 2, 59, rest)?;
    let (second, nanos, rest) = second_at(rest)?;
    let (is_west, offset) = offset_of(rest)?;
    Some(Moment {
        day,
        clock: hour * 3600 + minute * 60 + second,
        nanos,
        is_west,
        offset,
    })
}

#[tactic(auto, unfolding(crate::specs::StampReading::second_at))]
fn second_at(text: &[u8]) -> Option<(u64, u64, &[u8])>
    ensures found { MatchOption result (second_at text.now ≡ None)
        (λ found. second_at text.now ≡ Some (found.0, found.1, found.2.now)) }
    ensures second { IfSome result (λ found. found.0 ≤ 59) }
    ensures nanos { IfSome result (λ found. found.1 < 10 ^ 9) }
{
    let (has_second, _) = skip(b':', text);
    if !has_second {
        return Some((0, 0, text));
    }
    let (second, rest) = field_at(b':', 2, 59, text)?;
    let (nanos, rest) = nanos_at(rest)?;
    Some((second, nanos, rest))
}

#[tactic(auto, unfolding(crate::specs::StampReading::offset_of))]
fn offset_of(text: &[u8]) -> Option<(bool, u64)>
    ensures found { result ≡ offset_of text.now }
    ensures most { IfSome result (λ found. found.1 < 86400) }
{
    match text {
        [] => Some((false, 0)),
        [sign, rest @ ..] if *sign == b'+' || *sign == b'-' => {
            let seconds = hours_of(rest)?;
            Some((*sign == b'-', seconds))
        }
        [letter] if *letter == b'Z' || *letter == b'z' => Some((false, 0)),
        _ => None,
    }
}

#[tactic(auto, unfolding(crate::specs::StampReading::hours_of))]
fn hours_of(text: &[u8]) -> Option<u64>
    ensures found { result ≡ hours_of text.now }
    ensures most { IfSome result (λ seconds. seconds < 86400) }
{
    let (hour, rest) = number_at(2, 23, text)?;
    let (minute, rest) = field_at(b':', 2, 59, rest)?;
    if rest.is_empty() {
        Some(hour * 3600 + minute * 60)
    } else {
        None
    }
}
