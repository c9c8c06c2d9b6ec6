// Bodies of metrics.
ghost use Rattle.std.specs.Prelude.{◌≡◌, ◌≢◌, IfOk, IfErr, Ok, Err};
ghost use Rattle.serde_json.specs.View.{view};
ghost use Rattle.control_docs.specs.declared.fault.ControlBodyFault.TheVariants.{Memory};
ghost use Rattle.control_docs.specs.Fault.{Gives};
ghost use Rattle.control_docs.specs.Metric.{metric_asked, metric_read};

use crate::ControlBodyFault;
use crate::body::value_in;
use crate::member::{name_or_none, unless_null, value_id};
use crate::shape::Shape;
use archive_policy::Name;
use serde_json::Value;
use std::alloc::Global;

/// What is asked for of a metric.
#[derive(Debug, Drop)]
pub struct MetricBody {
    pub policy: Option<Name>,
    pub name: Option<Name>,
    pub unit: Option<Name>,
    pub resource: Option<u128>,
}

/// The metric that a body asks for: an object with `archive_policy_name`, `name`, `unit` and
/// `resource_id`, each of which may be absent or null; but with an identifier of a resource there
/// has to be a name.
#[tactic(auto, unfolding(crate::specs::Metric::metric_read))]
pub fn read_metric(alloc: Global, body: &[u8]) -> Result<MetricBody, ControlBodyFault>
    ensures ok { IfOk result (λ metric. metric_read body.now ≡ Ok metric) }
    ensures err { IfErr result (λ fault. fault ≢ Memory → metric_read body.now ≡ Err fault) }
{
    let value = value_in(alloc, Shape::Metric, body)?;
    metric_asked(alloc, &value)
}

fn metric_asked(alloc: Global, value: &Value) -> Result<MetricBody, ControlBodyFault>
    ensures { Gives (λ metric. metric) result (metric_asked (view value.now)) }
{
    let policy = name_or_none(alloc, unless_null(value.get("archive_policy_name")))?;
    let name = name_or_none(alloc, unless_null(value.get("name")))?;
    let unit = name_or_none(alloc, unless_null(value.get("unit")))?;
    let resource = match value.get("resource_id") {
        Some(value) => value_id(value),
        None => None,
    };
    Ok(MetricBody {
        policy,
        name,
        unit,
        resource,
    })
}
