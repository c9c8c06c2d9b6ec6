// The maps in memory, and what is asked of them.
ghost use Rattle.std.specs.Prelude.{◌≡◌, ◌<◌, ◌≤◌, ◌-◌, ◌^◌, OnOk};
ghost use Rattle.std.specs.List.{list_any};
ghost use Rattle.std.specs.Option.{option_copied};
ghost use Rattle.front_api.specs.Maps.{id_base, last_counter, is_drawn, is_in, is_named, is_policy_in_use, is_resource_in_use, metric_in, metric_to, policy_to, resource_to, rule_to};
ghost use Rattle.front_api.specs.Tables.{found, has, same_name};
ghost use Rattle.metric_index.specs.Catalog.{HasRoom, IsKept, maps_in, new_catalog};

use crate::tables::{metric_place, name_order, policy_place, resource_place, rule_place};
use archive_policy::{Name, Policy};
use front_api::{MetricDoc, maps_are_sorted};
use gno_num::Memory;
use policy_rules::Rule;
use std::alloc::Global;
use std::cmp::Ordering;

/// The store's number, the last counter drawn, and the four tables, each by rising key.
#[derive(Drop)]
pub struct Catalog {
    pub number: u32,
    pub counter: u64,
    pub policies: Vec<Policy>,
    pub rules: Vec<Rule>,
    pub metrics: Vec<MetricDoc>,
    pub resources: Vec<u128>,
}

impl Catalog {
    /// The maps of a store of this number that has drawn up to this counter and has nothing else.
    pub fn new(alloc: Global, number: u32, counter: u64) -> Catalog
        requires { counter ≤ last_counter }
        ensures maps { maps_in result ≡ new_catalog number counter }
        ensures kept { IsKept result }
    {
        maps_are_sorted();
        Catalog {
            number,
            counter,
            policies: Vec::new(alloc),
            rules: Vec::new(alloc),
            metrics: Vec::new(alloc),
            resources: Vec::new(alloc),
        }
    }

    /// Takes the memory for one item more in each table.
    pub fn reserve(&mut self) -> Result<(), Memory>
        ensures room { OnOk result (HasRoom self.new) }
        ensures same { maps_in self.new ≡ maps_in self.old }
    {
        self.policies.reserve(1)?;
        self.rules.reserve(1)?;
        self.metrics.reserve(1)?;
        self.resources.reserve(1)?;
        Ok(())
    }

    /// The policy of this name.
    pub fn policy(&self, name: &[u8]) -> Option<&Policy>
        requires { IsKept self.now }
        ensures { option_copied result ≡ found (policy_to name.now) self.now.policies.items }
    {
        match policy_place(self.policies.as_slice(), name) {
            Ok(at) => Some(&self.policies[at]),
            Err(_) => None,
        }
    }

    /// The rule of this name.
    pub fn rule(&self, name: &[u8]) -> Option<&Rule>
        requires { IsKept self.now }
        ensures { option_copied result ≡ found (rule_to name.now) self.now.rules.items }
    {
        match rule_place(self.rules.as_slice(), name) {
            Ok(at) => Some(&self.rules[at]),
            Err(_) => None,
        }
    }

    /// The metric of this identifier.
    pub fn metric(&self, id: u128) -> Option<&MetricDoc>
        requires { IsKept self.now }
        ensures { option_copied result ≡ found (metric_to id) self.now.metrics.items }
    {
        match metric_place(self.metrics.as_slice(), id) {
            Ok(at) => Some(&self.metrics[at]),
            Err(_) => None,
        }
    }

    pub fn has_policy(&self, name: &[u8]) -> bool
        requires { IsKept self.now }
        ensures { result ≡ has (policy_to name.now) self.now.policies.items }
    {
        policy_place(self.policies.as_slice(), name).is_ok()
    }

    pub fn has_rule(&self, name: &[u8]) -> bool
        requires { IsKept self.now }
        ensures { result ≡ has (rule_to name.now) self.now.rules.items }
    {
        rule_place(self.rules.as_slice(), name).is_ok()
    }

    pub fn has_metric(&self, id: u128) -> bool
        requires { IsKept self.now }
        ensures { result ≡ has (metric_to id) self.now.metrics.items }
    {
        metric_place(self.metrics.as_slice(), id).is_ok()
    }

    pub fn has_resource(&self, id: u128) -> bool
        requires { IsKept self.now }
        ensures { result ≡ has (resource_to id) self.now.resources.items }
    {
        resource_place(self.resources.as_slice(), id).is_ok()
    }

    /// The metric of this name in a resource.
    pub fn metric_in(&self, resource: u128, name: &[u8]) -> Option<&MetricDoc>
        ensures { option_copied result ≡ metric_in (maps_in self.now) resource name.now }
    {
        self.metrics
            .iter()
            .find(|doc| is_in(doc, resource) && is_named(doc, name))
    }

    /// Whether a metric or a rule names this policy.
    pub fn is_policy_in_use(&self, name: &[u8]) -> bool
        ensures { result ≡ is_policy_in_use (maps_in self.now) name.now }
    {
        self.is_policy_of_metric(name) || self.is_policy_of_rule(name)
    }

    fn is_policy_of_metric(&self, name: &[u8]) -> bool
        ensures { result ≡ list_any (λ d. same_name d.policy name.now) self.now.metrics.items }
    {
        self.metrics.iter().any(|doc| same_name(&doc.policy, name))
    }

    fn is_policy_of_rule(&self, name: &[u8]) -> bool
        ensures { result ≡ list_any (λ r. same_name r.policy name.now) self.now.rules.items }
    {
        self.rules.iter().any(|rule| same_name(&rule.policy, name))
    }

    /// Whether the resource has metrics.
    pub fn is_resource_in_use(&self, resource: u128) -> bool
        ensures { result ≡ is_resource_in_use (maps_in self.now) resource }
    {
        self.metrics.iter().any(|doc| is_in(doc, resource))
    }

    /// Whether this identifier was drawn.
    pub fn is_drawn(&self, id: u128) -> bool
        requires { IsKept self.now }
        ensures { result ≡ is_drawn (maps_in self.now) id }
    {
        let base = id_base(self.number);
        base < id && id <= base + u128::from(self.counter)
    }
}

/// What comes before the first identifier of a store.
pub fn id_base(number: u32) -> u128
    ensures value { result ≡ id_base number }
    ensures limit { result < 2 ^ 128 - 2 ^ 56 }
{
    u128::from(number) * 0x1_0000_0000_0000_0000_0000_0000 + 0x8000_8000_0000_0000_0000
}

/// Whether two names are one.
pub fn same_name(name: &Name, other: &[u8]) -> bool
    ensures { result ≡ same_name name.now other.now }
{
    match name_order(name, other) {
        Ordering::Equal => true,
        Ordering::Less => false,
        Ordering::Greater => false,
    }
}

/// Whether the metric is in this resource.
pub fn is_in(doc: &MetricDoc, resource: u128) -> bool
    ensures { result ≡ is_in resource doc.now }
{
    match doc.resource {
        Some(id) => id == resource,
        None => false,
    }
}

/// Whether the metric has this name.
pub fn is_named(doc: &MetricDoc, name: &[u8]) -> bool
    ensures { result ≡ is_named name.now doc.now }
{
    match &doc.name {
        Some(text) => same_name(text, name),
        None => false,
    }
}
