// Bodies of resources, and of the metrics of a resource.
ghost use Rattle.std.specs.Prelude.{◌≡◌, ◌≢◌, IfOk, IfErr, Ok, Err};
ghost use Rattle.serde_json.specs.View.{members_view, view};
ghost use Rattle.control_docs.specs.declared.fault.ControlBodyFault.TheVariants.{Memory};
ghost use Rattle.control_docs.specs.Fault.{Gives};
ghost use Rattle.control_docs.specs.Resource.{HaveRisingNames, metrics_asked, metrics_read, named_policies, named_policy, resource_asked, resource_read};

use crate::ControlBodyFault;
use crate::body::value_in;
use crate::member::{name_or_none, text_name, value_id};
use crate::shape::Shape;
use archive_policy::Name;
use serde_json::{Map, Value};
use std::alloc::Global;

/// The resource that a body asks for: an object with `id`.
#[tactic(auto, unfolding(crate::specs::Resource::resource_read))]
pub fn read_resource(alloc: Global, body: &[u8]) -> Result<u128, ControlBodyFault>
    ensures ok { IfOk result (λ id. resource_read body.now ≡ Ok id) }
    ensures err { IfErr result (λ fault. fault ≢ Memory → resource_read body.now ≡ Err fault) }
{
    let value = value_in(alloc, Shape::Resource, body)?;
    resource_asked(&value)
}

fn resource_asked(value: &Value) -> Result<u128, ControlBodyFault>
    ensures { Gives (λ id. id) result (resource_asked (view value.now)) }
{
    match value.get("id") {
        Some(value) => value_id(value).ok_or(ControlBodyFault::BadBody),
        None => Err(ControlBodyFault::BadBody),
    }
}

/// The metrics of a resource that a body asks for: an object from names to objects with
/// `archive_policy_name`, which may be absent. They come by rising name.
#[tactic(auto, unfolding(crate::specs::Resource::metrics_read))]
pub fn read_metrics_of_resource(
    alloc: Global,
    body: &[u8],
) -> Result<Vec<(Name, Option<Name>)>, ControlBodyFault>
    ensures ok { IfOk result (λ metrics. metrics_read body.now ≡ Ok metrics.items) }
    ensures err { IfErr result (λ fault. fault ≢ Memory → metrics_read body.now ≡ Err fault) }
    ensures rising { IfOk result (λ metrics. HaveRisingNames metrics.items) }
{
    let value = value_in(alloc, Shape::NamedMetrics, body)?;
    metrics_asked(alloc, &value)
}

fn metrics_asked(
    alloc: Global,
    value: &Value,
) -> Result<Vec<(Name, Option<Name>)>, ControlBodyFault>
    ensures { Gives (λ metrics. metrics.items) result (metrics_asked (view value.now)) }
{
    match value.as_object() {
        Some(members) => named_policies(alloc, members),
        None => Err(ControlBodyFault::BadBody),
    }
}

#[tactic(auto, using(crate::proofs::ListLemmas::front_step))]
fn named_policies(
    alloc: Global,
    members: &Map<String, Value>,
) -> Result<Vec<(Name, Option<Name>)>, ControlBodyFault>
    ensures { Gives (λ metrics. metrics.items) result (named_policies (members_view members.now.entries)) }
{
    let mut metrics = Vec::with_capacity(alloc, members.len())?;
    for (key, member) in members.iter() {
        metrics.push(named_policy(alloc, key.as_str(), member)?)?;
    }
    Ok(metrics)
}

fn named_policy(
    alloc: Global,
    key: &str,
    member: &Value,
) -> Result<(Name, Option<Name>), ControlBodyFault>
    ensures { Gives (λ metric. metric) result (named_policy key.now (view member.now)) }
{
    let name = text_name(alloc, key.as_bytes())?;
    let policy = name_or_none(alloc, member.get("archive_policy_name"))?;
    Ok((name, policy))
}
