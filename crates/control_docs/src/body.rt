// From the bytes of a body to its JSON value.
ghost use Rattle.std.specs.Prelude.{◌≡◌, is_some};
ghost use Rattle.serde_json.specs.View.{view};
ghost use Rattle.control_docs.specs.Body.{body_value, body_read};
ghost use Rattle.control_docs.specs.Fault.{Gives, found_or};
ghost use Rattle.control_docs.specs.Member.{is_given};
ghost use Rattle.control_docs.specs.Shape.{is_complete};
ghost use Rattle.control_docs.specs.declared.fault.ControlBodyFault.TheVariants.{BadBody};
ghost use Rattle.serde_json.specs.Find.{get};

use crate::ControlBodyFault;
use crate::member::unless_null;
use crate::shape::{Shape, fits};
use serde_json::Value;
use std::alloc::Global;

/// The value of a body of this shape.
pub fn value_in(alloc: Global, shape: Shape, body: &[u8]) -> Result<Value, ControlBodyFault>
    ensures { Gives (λ v. view v) result (body_read shape body.now) }
{
    let value = json_value(alloc, body)?;
    if fits(shape, &value) && is_complete(shape, &value) {
        Ok(value)
    } else {
        Err(ControlBodyFault::BadBody)
    }
}

#[tactic(auto, unfolding(crate::specs::Body::body_value))]
fn json_value(alloc: Global, body: &[u8]) -> Result<Value, ControlBodyFault>
    ensures { Gives (λ v. view v) result (found_or BadBody (body_value body.now)) }
{
    match Value::from_slice(alloc, body) {
        Ok(value) => Ok(value),
        Err(error) => {
            if error.is_memory() {
                Err(ControlBodyFault::Memory)
            } else {
                Err(ControlBodyFault::BadBody)
            }
        }
    }
}

/// Whether no member is missing.
fn is_complete(shape: Shape, value: &Value) -> bool
    ensures { result ≡ is_complete shape (view value.now) }
{
    match shape {
        Shape::Policy => has(value, "name") && has(value, "definition"),
        Shape::Rule => {
            has(value, "name") && has(value, "metric_pattern") && has(value, "archive_policy_name")
        }
        Shape::Metric => !is_given(value, "resource_id") || is_given(value, "name"),
        Shape::Resource => has(value, "id"),
        _ => true,
    }
}

fn has(value: &Value, key: &str) -> bool
    ensures { result ≡ is_some (get key.now (view value.now)) }
{
    value.get(key).is_some()
}

fn is_given(value: &Value, key: &str) -> bool
    ensures { result ≡ is_given (get key.now (view value.now)) }
{
    unless_null(value.get(key)).is_some()
}
