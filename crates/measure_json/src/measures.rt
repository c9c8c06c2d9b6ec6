// Lists of measures.
ghost use Rattle.std.specs.Prelude.{◌≡◌, ◌≤◌, List, length, IfOk, IfErr};
ghost use Rattle.series_model.specs.declared.measure.Measure.{Measure};
ghost use Rattle.std.specs.Str.{bytes_eq};
ghost use Rattle.measure_json.specs.Fault.{Gives, Answers, IsWithin};
ghost use Rattle.measure_json.specs.Grammar.{IsMeasures};
ghost use Rattle.measure_json.specs.Spelled.{spelled_text};
ghost use Rattle.measure_json.specs.Measures.{scalar_at, time_at, value_at, key_of, key_at, first_key, first_key_at, same_key, wanted_key_at, second_key_at, third_key_at, close_at, time_member_at, value_member_at, time_first, value_first, members_at, measure_at, measures_within, items_at, measures_at, measures_of, measures_read};

use crate::fault::{BodyFault, JsonKind, ReadError, body_fault, fault_at, syntax};
use crate::marks::{begins_number, colon_at, mark_at, next_at, opened, other_value, skip_blank};
use crate::number::number_at;
use crate::short::{short_key, short_measure, short_time_at, short_value_at};
use crate::text::{Spelled, string_at};
use gno_num::{Stamp, Value, read_value, skip};
use gno_time::read_stamp;
use series_model::{Batch, Measure};
use std::alloc::Global;

// The text of a string or the token of a number, and what follows it.
#[tactic(auto, unfolding(crate::specs::Measures::scalar_at))]
fn scalar_at<'a>(
    text: &'a [u8],
    unescaped: &mut Vec<u8>,
) -> Result<(Spelled<'a>, &'a [u8]), ReadError>
    ensures { Gives (λ found. (spelled_text found.0 unescaped.new.items, found.1.now)) result (scalar_at text.now) }
{
    match text {
        [first, inside @ ..] if *first == b'"' => string_at(inside, unescaped),
        [first, ..] if begins_number(*first) => {
            let (token, rest) = number_at(text)?;
            Ok((Spelled::InPlace(token), rest))
        }
        _ => Err(other_value(text)),
    }
}

fn time_at<'a>(text: &'a [u8], unescaped: &mut Vec<u8>) -> Result<(Stamp, &'a [u8]), ReadError>
    ensures { Gives (λ found. (found.0, found.1.now)) result (time_at text.now) }
{
    match short_time_at(text) {
        Some(found) => Ok(found),
        None => any_time_at(text, unescaped),
    }
}

// The same in any spelling.
#[tactic(auto, unfolding(crate::specs::Measures::time_at))]
fn any_time_at<'a>(text: &'a [u8], unescaped: &mut Vec<u8>) -> Result<(Stamp, &'a [u8]), ReadError>
    ensures { Gives (λ found. (found.0, found.1.now)) result (time_at text.now) }
{
    let (spelled, rest) = scalar_at(text, unescaped)?;
    match read_stamp(spelled.bytes(unescaped.as_slice())) {
        Ok(stamp) => Ok((stamp, rest)),
        Err(fault) => Err(fault_at(JsonKind::Time(fault), text)),
    }
}

fn value_at<'a>(text: &'a [u8], unescaped: &mut Vec<u8>) -> Result<(Value, &'a [u8]), ReadError>
    ensures { Gives (λ found. (found.0, found.1.now)) result (value_at text.now) }
{
    match short_value_at(text) {
        Some(found) => Ok(found),
        None => any_value_at(text, unescaped),
    }
}

// The same in any spelling.
#[tactic(auto, unfolding(crate::specs::Measures::value_at))]
fn any_value_at<'a>(text: &'a [u8], unescaped: &mut Vec<u8>) -> Result<(Value, &'a [u8]), ReadError>
    ensures { Gives (λ found. (found.0, found.1.now)) result (value_at text.now) }
{
    let (spelled, rest) = scalar_at(text, unescaped)?;
    match read_value(spelled.bytes(unescaped.as_slice())) {
        Ok(value) => Ok((value, rest)),
        Err(fault) => Err(fault_at(JsonKind::Number(fault), text)),
    }
}

// A key of a measure.
#[derive(Clone, Copy, PartialEq, Eq)]
pub enum Key {
    Timestamp,
    Value,
}

fn key_of(name: &[u8]) -> Option<Key>
    ensures { result ≡ key_of name.now }
{
    if is_word(name, b"timestamp") {
        Some(Key::Timestamp)
    } else if is_word(name, b"value") {
        Some(Key::Value)
    } else {
        None
    }
}

fn is_word(name: &[u8], word: &[u8]) -> bool
    ensures { result ≡ bytes_eq name.now word.now }
{
    name == word
}

// One of the two keys, and what follows it.
fn key_at<'a>(text: &'a [u8], unescaped: &mut Vec<u8>) -> Result<(Key, &'a [u8]), ReadError>
    ensures { Gives (λ found. (found.0, found.1.now)) result (key_at text.now) }
{
    match short_key(text) {
        Some(found) => Ok(found),
        None => any_key_at(text, unescaped),
    }
}

// The same in any spelling.
#[tactic(auto, unfolding(crate::specs::Measures::key_at))]
fn any_key_at<'a>(text: &'a [u8], unescaped: &mut Vec<u8>) -> Result<(Key, &'a [u8]), ReadError>
    ensures { Gives (λ found. (found.0, found.1.now)) result (key_at text.now) }
{
    let inside = mark_at(b'"', text)?;
    let (spelled, rest) = string_at(inside, unescaped)?;
    match key_of(spelled.bytes(unescaped.as_slice())) {
        Some(key) => Ok((key, rest)),
        None => Err(fault_at(JsonKind::NotMeasure, text)),
    }
}

#[tactic(auto, unfolding(crate::specs::Measures::first_key_at))]
fn first_key_at<'a>(text: &'a [u8], unescaped: &mut Vec<u8>) -> Result<(Key, &'a [u8]), ReadError>
    ensures { Gives (λ found. (found.0, found.1.now)) result (first_key_at text.now) }
{
    first_key(skip_blank(text), unescaped)
}

fn first_key<'a>(text: &'a [u8], unescaped: &mut Vec<u8>) -> Result<(Key, &'a [u8]), ReadError>
    ensures { Gives (λ found. (found.0, found.1.now)) result (first_key text.now) }
{
    match text {
        [] => Err(syntax(text)),
        [first, ..] if *first == b'}' => Err(fault_at(JsonKind::NotMeasure, text)),
        _ => key_at(text, unescaped),
    }
}

fn same_key(wanted: Key, found: Key) -> bool
    ensures { result ≡ same_key wanted found }
{
    match (wanted, found) {
        (Key::Timestamp, Key::Timestamp) | (Key::Value, Key::Value) => true,
        (Key::Timestamp, Key::Value) | (Key::Value, Key::Timestamp) => false,
    }
}

// What follows this key, which has to stand here.
#[tactic(auto, unfolding(crate::specs::Measures::wanted_key_at))]
fn wanted_key_at<'a>(
    wanted: Key,
    text: &'a [u8],
    unescaped: &mut Vec<u8>,
) -> Result<&'a [u8], ReadError>
    ensures { Gives (λ rest. rest.now) result (wanted_key_at wanted text.now) }
{
    let (found, rest) = key_at(text, unescaped)?;
    if same_key(wanted, found) {
        Ok(rest)
    } else {
        Err(fault_at(JsonKind::NotMeasure, text))
    }
}

// What follows the second key, behind the first member.
#[tactic(auto, unfolding(crate::specs::Measures::second_key_at))]
fn second_key_at<'a>(
    wanted: Key,
    text: &'a [u8],
    unescaped: &mut Vec<u8>,
) -> Result<&'a [u8], ReadError>
    ensures { Gives (λ rest. rest.now) result (second_key_at wanted text.now) }
{
    let (another, next) = next_at(b'}', text)?;
    if another {
        wanted_key_at(wanted, next, unescaped)
    } else {
        Err(fault_at(JsonKind::NotMeasure, skip_blank(text)))
    }
}

// A third member.
#[tactic(auto, unfolding(crate::specs::Measures::third_key_at))]
fn third_key_at<'a>(text: &'a [u8], unescaped: &mut Vec<u8>) -> Result<&'a [u8], ReadError>
    ensures { Gives (λ rest. rest.now) result (third_key_at text.now) }
{
    let inside = mark_at(b'"', text)?;
    let (_, _) = string_at(inside, unescaped)?;
    Err(fault_at(JsonKind::NotMeasure, text))
}

// What follows the closing brace, behind the second member.
#[tactic(auto, unfolding(crate::specs::Measures::close_at))]
fn close_at<'a>(text: &'a [u8], unescaped: &mut Vec<u8>) -> Result<&'a [u8], ReadError>
    ensures { Gives (λ rest. rest.now) result (close_at text.now) }
{
    let (another, next) = next_at(b'}', text)?;
    if another {
        third_key_at(next, unescaped)
    } else {
        Ok(next)
    }
}

#[tactic(auto, unfolding(crate::specs::Measures::time_member_at))]
fn time_member_at<'a>(
    text: &'a [u8],
    unescaped: &mut Vec<u8>,
) -> Result<(Stamp, &'a [u8]), ReadError>
    ensures { Gives (λ found. (found.0, found.1.now)) result (time_member_at text.now) }
{
    let rest = colon_at(text)?;
    time_at(rest, unescaped)
}

#[tactic(auto, unfolding(crate::specs::Measures::value_member_at))]
fn value_member_at<'a>(
    text: &'a [u8],
    unescaped: &mut Vec<u8>,
) -> Result<(Value, &'a [u8]), ReadError>
    ensures { Gives (λ found. (found.0, found.1.now)) result (value_member_at text.now) }
{
    let rest = colon_at(text)?;
    value_at(rest, unescaped)
}

// The members, behind the first key.
fn members_at<'a>(
    first: Key,
    text: &'a [u8],
    unescaped: &mut Vec<u8>,
) -> Result<(Measure, &'a [u8]), ReadError>
    ensures { Gives (λ found. (found.0, found.1.now)) result (members_at first text.now) }
{
    match first {
        Key::Timestamp => time_first(text, unescaped),
        Key::Value => value_first(text, unescaped),
    }
}

#[tactic(auto, unfolding(crate::specs::Measures::time_first))]
fn time_first<'a>(text: &'a [u8], unescaped: &mut Vec<u8>) -> Result<(Measure, &'a [u8]), ReadError>
    ensures { Gives (λ found. (found.0, found.1.now)) result (time_first text.now) }
{
    let (at, rest) = match time_member_at(text, unescaped) {
        Ok(found) => found,
        Err(error) => return Err(error),
    };
    let second = second_key_at(Key::Value, rest, unescaped)?;
    let (value, rest) = match value_member_at(second, unescaped) {
        Ok(found) => found,
        Err(error) => return Err(error),
    };
    let rest = close_at(rest, unescaped)?;
    Ok((Measure { at, value }, rest))
}

#[tactic(auto, unfolding(crate::specs::Measures::value_first))]
fn value_first<'a>(
    text: &'a [u8],
    unescaped: &mut Vec<u8>,
) -> Result<(Measure, &'a [u8]), ReadError>
    ensures { Gives (λ found. (found.0, found.1.now)) result (value_first text.now) }
{
    let (value, rest) = match value_member_at(text, unescaped) {
        Ok(found) => found,
        Err(error) => return Err(error),
    };
    let second = second_key_at(Key::Timestamp, rest, unescaped)?;
    let (at, rest) = match time_member_at(second, unescaped) {
        Ok(found) => found,
        Err(error) => return Err(error),
    };
    let rest = close_at(rest, unescaped)?;
    Ok((Measure { at, value }, rest))
}

fn measure_at<'a>(text: &'a [u8], unescaped: &mut Vec<u8>) -> Result<(Measure, &'a [u8]), ReadError>
    ensures { Gives (λ found. (found.0, found.1.now)) result (measure_at text.now) }
{
    match short_measure(text) {
        Some(found) => Ok(found),
        None => any_measure_at(text, unescaped),
    }
}

// The same in any spelling.
#[tactic(auto, unfolding(crate::specs::Measures::measure_at))]
fn any_measure_at<'a>(
    text: &'a [u8],
    unescaped: &mut Vec<u8>,
) -> Result<(Measure, &'a [u8]), ReadError>
    ensures { Gives (λ found. (found.0, found.1.now)) result (measure_at text.now) }
{
    let inside = opened(b'{', text)?;
    let (first, rest) = first_key_at(inside, unescaped)?;
    members_at(first, rest, unescaped)
}

const MOST: usize = 50_000;

// One measure or more, up to the closing bracket.
fn measures_within<'a>(
    alloc: Global,
    text: &'a [u8],
    unescaped: &mut Vec<u8>,
) -> Result<(Vec<Measure>, &'a [u8]), ReadError>
    ensures found { Gives (λ found. (found.0.items, found.1.now)) result (measures_within 50000 text.now) }
    ensures limit { IfOk result (λ found. length found.0.items ≤ 50000) }
{
    let mut measures = Vec::new(alloc);
    let mut rest = text;
    for _ in 0..MOST {
        let (measure, behind) = match measure_at(rest, unescaped) {
            Ok(found) => found,
            Err(error) => return Err(error),
        };
        measures.push(measure)?;
        let (another, next) = next_at(b']', behind)?;
        if !another {
            return Ok((measures, next));
        }
        rest = next;
    }
    opened(b'{', rest)?;
    Err(fault_at(JsonKind::TooMany, rest))
}

fn items_at<'a>(
    alloc: Global,
    text: &'a [u8],
    unescaped: &mut Vec<u8>,
) -> Result<(Vec<Measure>, &'a [u8]), ReadError>
    ensures found { Gives (λ found. (found.0.items, found.1.now)) result (items_at text.now) }
    ensures limit { IfOk result (λ found. length found.0.items ≤ 50000) }
{
    let (closes, rest) = skip(b']', text);
    if closes {
        return Ok((Vec::new(alloc), rest));
    }
    measures_within(alloc, text, unescaped)
}

// The batch of so few measures.
fn batch_of(measures: Vec<Measure>) -> Batch
    requires { length measures.items ≤ 50000 }
    ensures { result ≡ measures.items }
{
    match Batch::make(measures) {
        Ok(batch) => batch,
        Err(_) => unreachable!(),
    }
}

// A list of at most 50,000 measures, and what follows it.
#[tactic(auto, unfolding(crate::specs::Measures::measures_at))]
pub fn measures_at<'a>(
    alloc: Global,
    text: &'a [u8],
    unescaped: &mut Vec<u8>,
) -> Result<(Batch, &'a [u8]), ReadError>
    ensures { Gives (λ found. (found.0, found.1.now)) result (measures_at text.now) }
{
    let inside = opened(b'[', text)?;
    let (measures, rest) = items_at(alloc, skip_blank(inside), unescaped)?;
    Ok((batch_of(measures), rest))
}

#[tactic(auto, unfolding(crate::specs::Measures::measures_of))]
fn measures_of(alloc: Global, text: &[u8]) -> Result<Batch, ReadError>
    ensures { Gives (λ batch. batch) result (measures_of text.now) }
{
    let mut unescaped = Vec::new(alloc);
    let (batch, behind) = match measures_at(alloc, skip_blank(text), &mut unescaped) {
        Ok(found) => found,
        Err(error) => return Err(error),
    };
    let rest = skip_blank(behind);
    if rest.is_empty() {
        Ok(batch)
    } else {
        Err(syntax(rest))
    }
}

/// The measures of a body: a JSON list (RFC 8259) of objects, each with the members `timestamp`
/// and `value`, both once, in any order, and no other. A timestamp is a number or a string that
/// `read_stamp` takes, a value one that `read_value` takes.
pub fn read_measures(alloc: Global, body: &[u8]) -> Result<Batch, BodyFault>
    // What it means: the measures, or the first fault from the left.
    ensures exact { Answers (λ batch. batch) result (measures_read body.now) }

    // What is read is in the grammar; what is in the grammar is read, unless memory runs out.
    ensures found { IfOk result (IsMeasures body.now) }
    ensures only { (ms : List Measure) → IsMeasures body.now ms → Answers (λ batch. batch) result (Ok ms) }
    // The place of a fault is a byte of the body, or its end.
    ensures place { IfErr result (IsWithin body.now) }
{
    measures_answer(alloc, body)
}

#[tactic(auto, unfolding(crate::specs::Measures::measures_read))]
fn measures_answer(alloc: Global, body: &[u8]) -> Result<Batch, BodyFault>
    ensures exact { Answers (λ batch. batch) result (measures_read body.now) }
    ensures place { IfErr result (IsWithin body.now) }
{
    match measures_of(alloc, body) {
        Ok(batch) => Ok(batch),
        Err(error) => Err(body_fault(error, body)),
    }
}
