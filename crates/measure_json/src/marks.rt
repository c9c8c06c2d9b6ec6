// White space and marks of JSON.
ghost use Rattle.std.specs.Prelude.{◌≡◌, ⊤};
ghost use Rattle.measure_json.specs.Fault.{Fails, Gives};
ghost use Rattle.measure_json.specs.Marks.{is_blank, skip_blank, mark_at, begins_number, begins_value, other_value, opened, colon_at, comma_or, next_at};

use crate::fault::{JsonKind, ReadError, fault_at, syntax};

pub fn is_blank(byte: u8) -> bool
    ensures { result ≡ is_blank byte }
{
    byte == b' ' || byte == b'\t' || byte == b'\n' || byte == b'\r'
}

// The text without white space in front.
pub fn skip_blank(text: &[u8]) -> &[u8]
    ensures { result.now ≡ skip_blank text.now }
{
    let mut count = 0;
    while count < text.len() && is_blank(text[count]) {
        count += 1;
    }
    &text[count..]
}

// What follows the mark that has to stand here.
#[tactic(auto, unfolding(crate::specs::Marks::mark_at))]
pub fn mark_at(mark: u8, text: &[u8]) -> Result<&[u8], ReadError>
    ensures { Gives (λ rest. rest.now) result (mark_at mark text.now) }
{
    match text {
        [first, rest @ ..] if *first == mark => Ok(rest),
        _ => Err(syntax(text)),
    }
}

pub fn begins_number(byte: u8) -> bool
    ensures { result ≡ begins_number byte }
{
    byte == b'-' || byte.is_ascii_digit()
}

fn begins_value(byte: u8) -> bool
    ensures { result ≡ begins_value byte }
{
    byte == b'{'
        || byte == b'['
        || byte == b'"'
        || begins_number(byte)
        || byte == b't'
        || (byte == b'f' || byte == b'n')
}

// The fault of a value of another type than the one asked for, or of no value.
pub fn other_value(text: &[u8]) -> ReadError
    ensures { Fails result (other_value {A = ⊤} text.now) }
{
    match text {
        [first, ..] if begins_value(*first) => fault_at(JsonKind::NotMeasure, text),
        _ => syntax(text),
    }
}

// What follows the bracket that opens a value.
#[tactic(auto, unfolding(crate::specs::Marks::opened))]
pub fn opened(bracket: u8, text: &[u8]) -> Result<&[u8], ReadError>
    ensures { Gives (λ rest. rest.now) result (opened bracket text.now) }
{
    match text {
        [first, rest @ ..] if *first == bracket => Ok(rest),
        _ => Err(other_value(text)),
    }
}

// What follows the colon behind a key.
#[tactic(auto, unfolding(crate::specs::Marks::colon_at))]
pub fn colon_at(text: &[u8]) -> Result<&[u8], ReadError>
    ensures { Gives (λ rest. rest.now) result (colon_at text.now) }
{
    let rest = mark_at(b':', skip_blank(text))?;
    Ok(skip_blank(rest))
}

// Behind an item: whether another follows, or the closing bracket; and what follows it.
#[tactic(auto, unfolding(crate::specs::Marks::next_at))]
pub fn next_at(closing: u8, text: &[u8]) -> Result<(bool, &[u8]), ReadError>
    ensures { Gives (λ found. (found.0, found.1.now)) result (next_at closing text.now) }
{
    comma_or(closing, skip_blank(text))
}

fn comma_or(closing: u8, text: &[u8]) -> Result<(bool, &[u8]), ReadError>
    ensures { Gives (λ found. (found.0, found.1.now)) result (comma_or closing text.now) }
{
    match text {
        [first, rest @ ..] if *first == b',' => Ok((true, skip_blank(rest))),
        [first, rest @ ..] if *first == closing => Ok((false, rest)),
        _ => Err(syntax(text)),
    }
}
