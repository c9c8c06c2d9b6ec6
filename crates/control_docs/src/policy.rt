// Bodies of policies.
ghost use Rattle.std.specs.Prelude.{◌≡◌, ◌≢◌, IfOk, IfErr, Ok, Err, option_and_then};
ghost use Rattle.serde_json.specs.View.{items_view, view};
ghost use Rattle.control_docs.specs.declared.fault.ControlBodyFault.TheVariants.{Memory};
ghost use Rattle.control_docs.specs.Fault.{Gives};
ghost use Rattle.control_docs.specs.Member.{all_of, listed_items, value_seen, value_whole};
ghost use Rattle.control_docs.specs.Policy.{kinds_at, made, policy_asked, policy_read, wanted_of, window_at};
ghost use Rattle.archive_policy.specs.Faults.{first_fault};

use crate::ControlBodyFault;
use crate::body::value_in;
use crate::member::{kinds_of, required_name, span_or_none};
use crate::shape::Shape;
use archive_policy::{Kind, Name, Policy, Wanted};
use serde_json::Value;
use std::alloc::Global;

/// The policy that a body asks for: an object with `name`, `definition`, a list of objects with
/// `granularity`, `points` and `timespan`, any of which may be absent, `back_window`, 0 where it is
/// absent, and `aggregation_methods`, the names of `mean`, `min`, `max`, `sum` and `count` where
/// they are absent. A span is a text or a whole number of seconds.
#[tactic(auto, unfolding(crate::specs::Policy::policy_read))]
pub fn read_policy(alloc: Global, body: &[u8]) -> Result<Policy, ControlBodyFault>
    ensures ok { IfOk result (λ policy. policy_read body.now ≡ Ok policy) }
    ensures err { IfErr result (λ fault. fault ≢ Memory → policy_read body.now ≡ Err fault) }
{
    let value = value_in(alloc, Shape::Policy, body)?;
    policy_asked(alloc, &value)
}

fn policy_asked(alloc: Global, value: &Value) -> Result<Policy, ControlBodyFault>
    ensures { Gives (λ policy. policy) result (policy_asked (view value.now)) }
{
    let name = required_name(alloc, value.get("name"))?;
    let wanted = definitions_at(alloc, value.get("definition"))?;
    let kinds = kinds_at(alloc, value.get("aggregation_methods"))?;
    let back_window = window_at(value.get("back_window"));
    made(alloc, name, back_window, &wanted, &kinds)
}

fn made(
    alloc: Global,
    name: Name,
    back_window: u64,
    wanted: &[Wanted],
    kinds: &[Kind],
) -> Result<Policy, ControlBodyFault>
    ensures { Gives (λ policy. policy) result
        (made name back_window wanted.now kinds.now (first_fault back_window wanted.now kinds.now)) }
{
    Ok(Policy::make(alloc, name, back_window, wanted, kinds)?)
}

/// What is given of each definition.
fn definitions_at(alloc: Global, value: Option<&Value>) -> Result<Vec<Wanted>, ControlBodyFault>
    ensures { Gives (λ wanted. wanted.items) result
        (all_of wanted_of (listed_items (value_seen value.entry))) }
{
    match value {
        Some(Value::Array(items)) => wanted_in(alloc, items),
        _ => Ok(Vec::new(alloc)),
    }
}

fn wanted_in(alloc: Global, items: &[Value]) -> Result<Vec<Wanted>, ControlBodyFault>
    ensures { Gives (λ wanted. wanted.items) result (all_of wanted_of (items_view items.now)) }
{
    let mut wanted = Vec::with_capacity(alloc, items.len())?;
    for item in items {
        wanted.push(wanted_of(item)?)?;
    }
    Ok(wanted)
}

fn wanted_of(value: &Value) -> Result<Wanted, ControlBodyFault>
    ensures { Gives (λ wanted. wanted) result (wanted_of (view value.now)) }
{
    let granularity = match span_or_none(value.get("granularity")) {
        Ok(granularity) => granularity,
        Err(fault) => return Err(fault),
    };
    match span_or_none(value.get("timespan")) {
        Ok(timespan) => Ok(Wanted {
            granularity,
            points: whole_at(value.get("points")),
            timespan,
        }),
        Err(fault) => Err(fault),
    }
}

/// The methods, or the usual ones where none are given.
fn kinds_at(alloc: Global, value: Option<&Value>) -> Result<Vec<Kind>, ControlBodyFault>
    ensures { Gives (λ kinds. kinds.items) result (kinds_at (value_seen value.entry)) }
{
    match value {
        None => Ok(Vec::from_slice(alloc, &USUAL_KINDS)?),
        Some(Value::Array(items)) => kinds_of(alloc, items),
        Some(_) => Ok(Vec::new(alloc)),
    }
}

const USUAL_KINDS: [Kind; 5] = [Kind::Mean, Kind::Min, Kind::Max, Kind::Sum, Kind::Count];

fn window_at(value: Option<&Value>) -> u64
    ensures { result ≡ window_at (value_seen value.entry) }
{
    whole_at(value).unwrap_or(0)
}

fn whole_at(value: Option<&Value>) -> Option<u64>
    ensures { result ≡ option_and_then value_whole (value_seen value.entry) }
{
    match value {
        Some(value) => value.as_u64(),
        None => None,
    }
}
