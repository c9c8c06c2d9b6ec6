// The printed forms of stamps and spans.
ghost use Rattle.std.specs.Prelude.{◌≡◌, ◌++◌, ◌∷◌, ◌<◌, ◌≤◌, ◌*◌, ◌^◌, pos, OnOk, OnErr, Ok};
ghost use Rattle.std.specs.Fmt.{decimal};
ghost use Rattle.gno_num.specs.Text.{padded};
ghost use Rattle.gno_time.specs.SpanReading.{span_read};
ghost use Rattle.gno_time.specs.StampReading.{stamp_read};
ghost use Rattle.gno_time.specs.Text.{stamp_text_of, seconds_text_of, span_text_of, days_text, date_text, clock_text, nanos_text};
ghost use Rattle.gno_time.specs.Calendar.{date_of_day};

use gno_num::{Memory, Span, Stamp, scaled_text};
use jiff_core::civil::Date;

const NANOS_PER_SECOND: u64 = 1_000_000_000;

const SECONDS_PER_DAY: u64 = 86_400;

/// Appends the stamp in UTC: `YYYY-MM-DDTHH:MM:SS`, a point and nine digits where the fraction of
/// the second isn't 0, and `+00:00`.
pub fn stamp_text(at: Stamp, out: &mut Vec<u8>) -> Result<(), Memory>
    ensures ok { OnOk result (out.new.items ≡ out.old.items ++ stamp_text_of at) }
    ensures err { OnErr result (out.new.items ≡ out.old.items) }

    // It is read back.
    ensures again { stamp_read (stamp_text_of at) ≡ Ok at }
{
    append_stamp(at.nanos(), out)
}

#[tactic(auto, unfolding(crate::specs::Text::stamp_text_of))]
fn append_stamp(nanos: u64, out: &mut Vec<u8>) -> Result<(), Memory>
    requires { nanos < 9 * 10 ^ 18 }
    ensures ok { OnOk result (out.new.items ≡ out.old.items ++ stamp_text_of nanos) }
    ensures err { OnErr result (out.new.items ≡ out.old.items) }
{
    let seconds = nanos / NANOS_PER_SECOND;
    let mut text = Vec::new(*out.allocator());
    push_date(seconds / SECONDS_PER_DAY, &mut text)?;
    text.push(b'T')?;
    push_clock(seconds % SECONDS_PER_DAY, &mut text)?;
    push_nanos(nanos % NANOS_PER_SECOND, &mut text)?;
    text.extend_from_slice(b"+00:00")?;
    out.extend_from_slice(&text)?;
    Ok(())
}

/// Appends the length in seconds: whole seconds, a point, and the digits of the fraction without
/// zeros at its end, but at least one.
pub fn seconds_text(span: Span, out: &mut Vec<u8>) -> Result<(), Memory>
    ensures ok { OnOk result (out.new.items ≡ out.old.items ++ seconds_text_of span) }
    ensures err { OnErr result (out.new.items ≡ out.old.items) }

    // It is read back.
    ensures again { span_read (seconds_text_of span) ≡ Ok span }
{
    scaled_text(9, span.nanos(), out)
}

/// Appends the length as days, hours, minutes and seconds: `0:01:00`, `1 day, 0:00:00`, and a point
/// and nine digits where the fraction of the second isn't 0.
pub fn span_text(span: Span, out: &mut Vec<u8>) -> Result<(), Memory>
    ensures ok { OnOk result (out.new.items ≡ out.old.items ++ span_text_of span) }
    ensures err { OnErr result (out.new.items ≡ out.old.items) }

    // It is read back.
    ensures again { span_read (span_text_of span) ≡ Ok span }
{
    append_span(span.nanos(), out)
}

#[tactic(auto, unfolding(crate::specs::Text::span_text_of))]
fn append_span(nanos: u64, out: &mut Vec<u8>) -> Result<(), Memory>
    ensures ok { OnOk result (out.new.items ≡ out.old.items ++ span_text_of nanos) }
    ensures err { OnErr result (out.new.items ≡ out.old.items) }
{
    let seconds = nanos / NANOS_PER_SECOND;
    let clock = seconds % SECONDS_PER_DAY;
    let mut text = Vec::new(*out.allocator());
    push_days(seconds / SECONDS_PER_DAY, &mut text)?;
    push_decimal(clock / 3600, &mut text)?;
    text.push(b':')?;
    push_padded(2, clock / 60 % 60, &mut text)?;
    text.push(b':')?;
    push_padded(2, clock % 60, &mut text)?;
    push_nanos(nanos % NANOS_PER_SECOND, &mut text)?;
    out.extend_from_slice(&text)?;
    Ok(())
}

// Appends the days, where there are any.
fn push_days(days: u64, text: &mut Vec<u8>) -> Result<(), Memory>
    ensures { OnOk result (text.new.items ≡ text.old.items ++ days_text days) }
{
    if days == 0 {
        return Ok(());
    }
    push_decimal(days, text)?;
    text.extend_from_slice(if days == 1 { b" day, " } else { b" days, " })?;
    Ok(())
}

fn push_decimal(n: u64, text: &mut Vec<u8>) -> Result<(), Memory>
    ensures { OnOk result (text.new.items ≡ text.old.items ++ decimal n) }
{
    let digits = n.to_string(*text.allocator())?;
    text.extend_from_slice(digits.as_bytes())?;
    Ok(())
}

// Appends the date of a day, counted from 1 January 1970.
fn push_date(day: u64, text: &mut Vec<u8>) -> Result<(), Memory>
    requires { day ≤ 200000 }
    ensures { OnOk result (text.new.items ≡ text.old.items ++ date_text (date_of_day day)) }
{
    let date = date_of(day);
    push_padded(4, u64::from(date.year.unsigned_abs()), text)?;
    text.push(b'-')?;
    push_padded(2, u64::from(date.month), text)?;
    text.push(b'-')?;
    push_padded(2, u64::from(date.day), text)
}

fn date_of(day: u64) -> Date
    requires { day ≤ 200000 }
    ensures year { result.year ≡ pos (date_of_day day).year }
    ensures month { result.month ≡ (date_of_day day).month }
    ensures day { result.day ≡ (date_of_day day).day }
{
    Date::from_unix_epoch_day(day as i64).unwrap()
}

// Appends the hour, the minute and the second of a day.
fn push_clock(seconds: u64, text: &mut Vec<u8>) -> Result<(), Memory>
    ensures { OnOk result (text.new.items ≡ text.old.items ++ clock_text seconds) }
{
    push_padded(2, seconds / 3600, text)?;
    text.push(b':')?;
    push_padded(2, seconds / 60 % 60, text)?;
    text.push(b':')?;
    push_padded(2, seconds % 60, text)
}

// Appends a point and nine digits, unless there are no nanoseconds.
fn push_nanos(nanos: u64, text: &mut Vec<u8>) -> Result<(), Memory>
    ensures { OnOk result (text.new.items ≡ text.old.items ++ nanos_text nanos) }
{
    if nanos == 0 {
        return Ok(());
    }
    text.push(b'.')?;
    push_padded(9, nanos, text)
}

// Appends the last so many digits of a number, with the zeros in front.
fn push_padded(places: u32, n: u64, text: &mut Vec<u8>) -> Result<(), Memory>
    requires { places ≤ 19 }
    ensures { OnOk result (text.new.items ≡ text.old.items ++ padded places n) }
{
    if places == 0 {
        return Ok(());
    }
    text.push(b'0' + (n / 10u64.pow(places - 1) % 10) as u8)?;
    push_padded(places - 1, n, text)
}
