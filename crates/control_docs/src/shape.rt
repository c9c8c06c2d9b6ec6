// What may stand at each place of a body.
ghost use Rattle.std.specs.Prelude.{◌≡◌, if◌then◌else◌, Some, None};
ghost use Rattle.std.specs.Str.{bytes_eq};
ghost use Rattle.serde_json.specs.View.{items_view, members_view, number_view, view};
ghost use Rattle.control_docs.specs.Member.{as_id};
ghost use Rattle.control_docs.specs.Shape.{fits, has_members, takes_bool, item_shape, items_fit, member_shape, members_fit, takes_null, takes_number, takes_text};

use crate::member::as_id;
use serde_json::{Map, Number, Value};

/// What the table of bodies gives for a place.
#[derive(Clone, Copy)]
pub enum Shape {
    /// A value in which no object has a member.
    Plain,
    /// A whole number of 64 bits.
    Whole,
    /// An identifier.
    Id,
    /// An identifier or null.
    IdOrNull,
    /// A list of plain values.
    Plains,
    /// A list of definitions.
    Definitions,
    /// An object with the members of a definition; so with those that follow.
    Definition,
    Policy,
    Rule,
    Metric,
    Resource,
    /// An object from names to metrics of a resource.
    NamedMetrics,
    NamedMetric,
}

/// Whether each value of a body may stand at its place, and each key of an object is given there.
#[cycle(fits)]
pub fn fits(shape: Shape, value: &Value) -> bool
    ensures { result ≡ fits shape (view value.now) }
{
    match value {
        Value::Null => takes_null(shape),
        Value::Bool(_) => takes_bool(shape),
        Value::Number(number) => takes_number(shape, number),
        Value::String(text) => takes_text(shape, text.as_str()),
        Value::Array(items) => match item_shape(shape) {
            Some(inner) => items_fit(inner, items),
            None => false,
        },
        Value::Object(members) => has_members(shape) && members_fit(shape, members),
    }
}

#[cycle(fits)]
fn items_fit(shape: Shape, items: &Vec<Value>) -> bool
    ensures { result ≡ items_fit shape (items_view items.now.items) }
{
    for item in items {
        if !fits(shape, item) {
            return false;
        }
    }
    true
}

#[cycle(fits)]
fn members_fit(shape: Shape, members: &Map<String, Value>) -> bool
    ensures { result ≡ members_fit shape (members_view members.now.entries) }
{
    for (key, member) in members.iter() {
        let Some(inner) = member_shape(shape, key.as_str().as_bytes()) else {
            return false;
        };
        if !fits(inner, member) {
            return false;
        }
    }
    true
}

fn takes_null(shape: Shape) -> bool
    ensures { result ≡ takes_null shape }
{
    matches!(shape, Shape::Plain | Shape::IdOrNull)
}

fn takes_bool(shape: Shape) -> bool
    ensures { result ≡ takes_bool shape }
{
    matches!(shape, Shape::Plain)
}

fn takes_number(shape: Shape, number: &Number) -> bool
    ensures { result ≡ takes_number shape (number_view number.now) }
{
    match shape {
        Shape::Plain => true,
        Shape::Whole => number.is_u64(),
        _ => false,
    }
}

fn takes_text(shape: Shape, text: &str) -> bool
    ensures { result ≡ takes_text shape text.now }
{
    match shape {
        Shape::Plain => true,
        Shape::Id | Shape::IdOrNull => as_id(text.as_bytes()).is_some(),
        _ => false,
    }
}

/// The shape of the items, where a list may stand.
fn item_shape(shape: Shape) -> Option<Shape>
    ensures { result ≡ item_shape shape }
{
    match shape {
        Shape::Plain | Shape::Plains => Some(Shape::Plain),
        Shape::Definitions => Some(Shape::Definition),
        _ => None,
    }
}

/// Whether an object may stand there.
fn has_members(shape: Shape) -> bool
    ensures { result ≡ has_members shape }
{
    match shape {
        Shape::Whole | Shape::Id | Shape::IdOrNull | Shape::Plains | Shape::Definitions => false,
        _ => true,
    }
}

/// The shape of the member with this key, where the key is given.
fn member_shape(shape: Shape, key: &[u8]) -> Option<Shape>
    ensures { result ≡ member_shape shape key.now }
{
    match shape {
        Shape::Definition => of_definition(key),
        Shape::Policy => of_policy(key),
        Shape::Rule => of_rule(key),
        Shape::Metric => of_metric(key),
        Shape::Resource => given_if(is_word(key, b"id"), Shape::Id),
        Shape::NamedMetrics => Some(Shape::NamedMetric),
        Shape::NamedMetric => given_if(is_word(key, b"archive_policy_name"), Shape::Plain),
        _ => None,
    }
}

fn of_definition(key: &[u8]) -> Option<Shape>
    ensures { result ≡ member_shape Shape.Definition key.now }
{
    if is_word(key, b"granularity") {
        Some(Shape::Plain)
    } else if is_word(key, b"points") {
        Some(Shape::Whole)
    } else {
        given_if(is_word(key, b"timespan"), Shape::Plain)
    }
}

fn of_policy(key: &[u8]) -> Option<Shape>
    ensures { result ≡ member_shape Shape.Policy key.now }
{
    if is_word(key, b"name") {
        Some(Shape::Plain)
    } else if is_word(key, b"definition") {
        Some(Shape::Definitions)
    } else if is_word(key, b"back_window") {
        Some(Shape::Whole)
    } else {
        given_if(is_word(key, b"aggregation_methods"), Shape::Plains)
    }
}

fn of_rule(key: &[u8]) -> Option<Shape>
    ensures { result ≡ member_shape Shape.Rule key.now }
{
    if is_word(key, b"name") || is_word(key, b"metric_pattern") {
        Some(Shape::Plain)
    } else {
        given_if(is_word(key, b"archive_policy_name"), Shape::Plain)
    }
}

fn of_metric(key: &[u8]) -> Option<Shape>
    ensures { result ≡ member_shape Shape.Metric key.now }
{
    if is_word(key, b"archive_policy_name") {
        Some(Shape::Plain)
    } else if is_word(key, b"name") || is_word(key, b"unit") {
        Some(Shape::Plain)
    } else {
        given_if(is_word(key, b"resource_id"), Shape::IdOrNull)
    }
}

fn given_if(is_given: bool, shape: Shape) -> Option<Shape>
    ensures { result ≡ (if is_given then Some shape else None) }
{
    if is_given { Some(shape) } else { None }
}

/// Whether the text is this word.
fn is_word(text: &[u8], word: &[u8]) -> bool
    ensures { result ≡ bytes_eq text.now word.now }
{
    text == word
}
