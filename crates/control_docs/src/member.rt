// What the values in a body read as.
ghost use Rattle.std.specs.Prelude.{◌≡◌, ◌*◌, ◌^◌};
ghost use Rattle.gno_time.specs.SpanReading.{span_in_range};
ghost use Rattle.serde_json.specs.View.{items_view, view};
ghost use Rattle.control_docs.specs.Fault.{Gives};
ghost use Rattle.control_docs.specs.Member.{all_of, as_id, value_id, is_given, kind_named, value_kind, required_name, text_name, value_name, name_or_none, value_seen, span_or_none, value_span, told, unless_null, value_whole};

use crate::ControlBodyFault;
use archive_policy::{Kind, Name, NameFault};
use gno_num::Span;
use gno_time::read_span;
use serde_json::Value;
use std::alloc::Global;
use uuid::Uuid;

/// The name that a text is.
pub fn text_name(alloc: Global, text: &[u8]) -> Result<Name, ControlBodyFault>
    ensures { Gives (λ name. name) result (text_name text.now) }
{
    match Name::of(alloc, text) {
        Ok(name) => Ok(name),
        Err(NameFault::BadName) => Err(ControlBodyFault::BadName),
        Err(NameFault::Memory) => Err(ControlBodyFault::Memory),
    }
}

/// The name that a value is.
fn value_name(alloc: Global, value: &Value) -> Result<Name, ControlBodyFault>
    ensures { Gives (λ name. name) result (value_name (view value.now)) }
{
    match value.as_str() {
        Some(text) => text_name(alloc, text.as_bytes()),
        None => Err(ControlBodyFault::BadName),
    }
}

/// A name that has to be there.
pub fn required_name(alloc: Global, value: Option<&Value>) -> Result<Name, ControlBodyFault>
    ensures { Gives (λ name. name) result (required_name (value_seen value.entry)) }
{
    match value {
        Some(value) => value_name(alloc, value),
        None => Err(ControlBodyFault::BadName),
    }
}

/// A name that may be absent.
pub fn name_or_none(alloc: Global, value: Option<&Value>) -> Result<Option<Name>, ControlBodyFault>
    ensures { Gives (λ name. name) result (name_or_none (value_seen value.entry)) }
{
    match value {
        Some(value) => Ok(Some(value_name(alloc, value)?)),
        None => Ok(None),
    }
}

/// What stands there, null being nothing.
pub fn unless_null(value: Option<&Value>) -> Option<&Value>
    ensures { value_seen result ≡ unless_null (value_seen value.entry) }
{
    match value {
        Some(Value::Null) => None,
        _ => value,
    }
}

/// The identifier that a text is, in any of the forms of UUIDs.
pub fn as_id(text: &[u8]) -> Option<u128>
    ensures { result ≡ as_id text.now }
{
    match Uuid::try_parse_ascii(text) {
        Ok(id) => Some(id.as_u128()),
        Err(_) => None,
    }
}

/// The identifier that a value is.
pub fn value_id(value: &Value) -> Option<u128>
    ensures { result ≡ value_id (view value.now) }
{
    match value.as_str() {
        Some(text) => as_id(text.as_bytes()),
        None => None,
    }
}

/// A span that may be absent.
pub fn span_or_none(value: Option<&Value>) -> Result<Option<Span>, ControlBodyFault>
    ensures { Gives (λ span. span) result (span_or_none (value_seen value.entry)) }
{
    match value {
        Some(value) => match value_span(value) {
            Ok(span) => Ok(Some(span)),
            Err(fault) => Err(fault),
        },
        None => Ok(None),
    }
}

/// The span that a value is.
fn value_span(value: &Value) -> Result<Span, ControlBodyFault>
    ensures { Gives (λ span. span) result (value_span (view value.now)) }
{
    match value {
        Value::String(text) => Ok(read_span(text.as_bytes())?),
        Value::Number(number) => match number.as_u64() {
            Some(seconds) => span_of_seconds(seconds),
            None => Err(ControlBodyFault::BadSpan),
        },
        _ => Err(ControlBodyFault::BadSpan),
    }
}

#[tactic(auto, unfolding(gno_time::specs::SpanReading::span_in_range))]
fn span_of_seconds(seconds: u64) -> Result<Span, ControlBodyFault>
    ensures { Gives (λ span. span) result (told (span_in_range (seconds * 10 ^ 9))) }
{
    if seconds > 9_000_000_000 {
        return Err(ControlBodyFault::SpanRange);
    }
    Span::of_nanos(seconds * 1_000_000_000).ok_or(ControlBodyFault::SpanRange)
}

/// The kind that a value names.
fn value_kind(value: &Value) -> Result<Kind, ControlBodyFault>
    ensures { Gives (λ kind. kind) result (value_kind (view value.now)) }
{
    match value.as_str() {
        Some(text) => kind_named(text.as_bytes()).ok_or(ControlBodyFault::BadAggregation),
        None => Err(ControlBodyFault::BadAggregation),
    }
}

fn kind_named(name: &[u8]) -> Option<Kind>
    ensures { result ≡ kind_named name.now }
{
    Kind::of_name(name)
}

/// The kinds that the items of a list name.
pub fn kinds_of(alloc: Global, items: &[Value]) -> Result<Vec<Kind>, ControlBodyFault>
    ensures { Gives (λ kinds. kinds.items) result (all_of value_kind (items_view items.now)) }
{
    let mut kinds = Vec::with_capacity(alloc, items.len())?;
    for item in items {
        kinds.push(value_kind(item)?)?;
    }
    Ok(kinds)
}
