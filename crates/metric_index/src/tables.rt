// Where items stand in tables by rising key.
ghost use Rattle.std.specs.Prelude.{◌≡◌, ℕ, ◌<◌, ◌≤◌, List, length, MatchResult, vec_len, vec_capacity, insert};
ghost use Rattle.std.specs.Ordering.{nat_cmp};
ghost use Rattle.front_api.specs.Maps.{metric_to, policy_to, resource_to, rule_to};
ghost use Rattle.front_api.specs.Tables.{Rises, name_cmp};
ghost use Rattle.metric_index.specs.Places.{IsPlace};

use archive_policy::{Name, Policy};
use front_api::MetricDoc;
use policy_rules::Rule;
use series_model::MetricId;
use std::cmp::Ordering;

/// How a name compares to another, by bytes.
pub fn name_order(name: &Name, other: &[u8]) -> Ordering
    ensures { result ≡ name_cmp name.now other.now }
{
    name.bytes().cmp(other)
}

/// Where the policy of this name stands, or where it is to be put in.
pub fn policy_place(policies: &[Policy], name: &[u8]) -> Result<usize, usize>
    requires { Rises name_cmp (λ p. p.name) policies.now }
    ensures { IsPlace (policy_to name.now) policies.now result }
{
    policies.binary_search_by(
        |policy: &Policy| -> Ordering
            ensures { result ≡ policy_to name.entry.now policy.now }
        { name_order(policy.name(), name) },
    )
}

/// Where the rule of this name stands, or where it is to be put in.
pub fn rule_place(rules: &[Rule], name: &[u8]) -> Result<usize, usize>
    requires { Rises name_cmp (λ r. r.name) rules.now }
    ensures { IsPlace (rule_to name.now) rules.now result }
{
    rules.binary_search_by(
        |rule: &Rule| -> Ordering
            ensures { result ≡ rule_to name.entry.now rule.now }
        { name_order(&rule.name, name) },
    )
}

/// Where the metric of this identifier stands, or where it is to be put in.
pub fn metric_place(metrics: &[MetricDoc], id: u128) -> Result<usize, usize>
    requires { Rises nat_cmp (λ d. d.id.0) metrics.now }
    ensures { IsPlace (metric_to id) metrics.now result }
{
    metrics.binary_search_by(
        |doc: &MetricDoc| -> Ordering
            ensures { result ≡ metric_to id doc.now }
        { doc.id.0.cmp(&id) },
    )
}

/// Where this resource stands, or where it is to be put in.
pub fn resource_place(resources: &[u128], id: u128) -> Result<usize, usize>
    requires { Rises nat_cmp (λ r. r) resources.now }
    ensures { IsPlace (resource_to id) resources.now result }
{
    resources.binary_search_by(
        |resource: &u128| -> Ordering
            ensures { result ≡ resource_to id resource.now }
        { resource.cmp(&id) },
    )
}

/// Where the member of this name stands, or where it is to be put in.
pub fn member_place(members: &[(Name, MetricId)], name: &[u8]) -> Result<usize, usize>
    requires { Rises name_cmp (λ m. m.0) members.now }
    ensures { IsPlace (λ m. name_cmp m.0 name.now) members.now result }
{
    members.binary_search_by(
        |member: &(Name, MetricId)| -> Ordering
            ensures { result ≡ name_cmp member.now.0 name.entry.now }
        { name_order(&member.0, name) },
    )
}

/// Puts an item in at a place, for which there is memory.
pub fn insert_at<T: Drop>(items: &mut Vec<T>, at: usize, item: T)
    requires inside { at ≤ vec_len items.old }
    requires room { vec_len items.old < vec_capacity items.old }
    ensures { items.new.items ≡ insert items.old.items at item }
{
    let _ = items.insert(at, item);
}
