// The documents by which policies, rules, metrics and resources are shown.
ghost use Rattle.std.specs.Prelude.{◌≡◌, ◌++◌, ◌∷◌, ◌==◌, [], if◌then◌else◌, map, OnOk, OnErr, option_map};
ghost use Rattle.serde_json.specs.Data.{array};
ghost use Rattle.serde_json.specs.View.{items_of};
ghost use Rattle.serde_json.specs.Written.{compact_text};
ghost use Rattle.control_docs.specs.Documents.{metric_value, policy_value, resource_value, rule_value};

use crate::texts::{push_metric, push_policies, push_policy, push_resource, push_rule, push_rules};
use archive_policy::{Name, Policy};
use gno_num::Memory;
use policy_rules::Rule;
use series_model::MetricId;

// Room for one document of usual size.
const USUAL_SIZE: usize = 256;

/// Appends the document of a policy. After `Memory` nothing is appended; so with the other
/// documents.
pub fn policy_document(policy: &Policy, out: &mut Vec<u8>) -> Result<(), Memory>
    ensures ok { OnOk result (out.new.items ≡ out.old.items ++ compact_text (policy_value policy.now)) }
    ensures err { OnErr result (out.new.items ≡ out.old.items) }
{
    let mut text = Vec::with_capacity(*out.allocator(), USUAL_SIZE)?;
    push_policy(policy, &mut text)?;
    out.extend_from_slice(&text)?;
    Ok(())
}

/// Appends the list of the documents of policies.
pub fn policy_list(policies: &[Policy], out: &mut Vec<u8>) -> Result<(), Memory>
    ensures ok { OnOk result
        (out.new.items ≡ out.old.items ++ compact_text (array (items_of (map policy_value policies.now)))) }
    ensures err { OnErr result (out.new.items ≡ out.old.items) }
{
    let mut text = Vec::with_capacity(*out.allocator(), USUAL_SIZE)?;
    push_policies(policies, &mut text)?;
    out.extend_from_slice(&text)?;
    Ok(())
}

/// Appends the document of a rule.
pub fn rule_document(rule: &Rule, out: &mut Vec<u8>) -> Result<(), Memory>
    ensures ok { OnOk result (out.new.items ≡ out.old.items ++ compact_text (rule_value rule.now)) }
    ensures err { OnErr result (out.new.items ≡ out.old.items) }
{
    let mut text = Vec::with_capacity(*out.allocator(), USUAL_SIZE)?;
    push_rule(rule, &mut text)?;
    out.extend_from_slice(&text)?;
    Ok(())
}

/// Appends the list of the documents of rules.
pub fn rule_list(rules: &[Rule], out: &mut Vec<u8>) -> Result<(), Memory>
    ensures ok { OnOk result
        (out.new.items ≡ out.old.items ++ compact_text (array (items_of (map rule_value rules.now)))) }
    ensures err { OnErr result (out.new.items ≡ out.old.items) }
{
    let mut text = Vec::with_capacity(*out.allocator(), USUAL_SIZE)?;
    push_rules(rules, &mut text)?;
    out.extend_from_slice(&text)?;
    Ok(())
}

/// Appends the document of a metric, with null for what it lacks.
pub fn metric_document(
    id: MetricId,
    policy: &Name,
    name: &Option<Name>,
    unit: &Option<Name>,
    resource: Option<u128>,
    out: &mut Vec<u8>,
) -> Result<(), Memory>
    ensures ok { OnOk result (out.new.items
        ≡ out.old.items ++ compact_text (metric_value id policy.now name.now unit.now resource)) }
    ensures err { OnErr result (out.new.items ≡ out.old.items) }
{
    let mut text = Vec::with_capacity(*out.allocator(), USUAL_SIZE)?;
    push_metric(id, policy, name, unit, resource, &mut text)?;
    out.extend_from_slice(&text)?;
    Ok(())
}

/// Appends the document of a resource, with its metrics in the order in which they are given.
pub fn resource_document(
    id: u128,
    metrics: &[(Name, MetricId)],
    out: &mut Vec<u8>,
) -> Result<(), Memory>
    ensures ok { OnOk result (out.new.items ≡ out.old.items ++ compact_text (resource_value id metrics.now)) }
    ensures err { OnErr result (out.new.items ≡ out.old.items) }
{
    let mut text = Vec::with_capacity(*out.allocator(), USUAL_SIZE)?;
    push_resource(id, metrics, &mut text)?;
    out.extend_from_slice(&text)?;
    Ok(())
}
