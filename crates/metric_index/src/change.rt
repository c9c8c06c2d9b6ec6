// What changes the maps in memory.
ghost use Rattle.std.specs.Prelude.{◌≡◌, ◌↔◌, ◌<◌, IsTrue, None, vec_len, vec_capacity};
ghost use Rattle.std.specs.Ordering.{nat_cmp};
ghost use Rattle.front_api.specs.Maps.{metric_to, policy_to, resource_to, rule_to};
ghost use Rattle.front_api.specs.Tables.{Rises, found, gone, name_cmp, put};
ghost use Rattle.gno_codec.specs.Index.{IsIndex};
ghost use Rattle.metric_index.specs.Catalog.{HasRoom, IsKept, maps_in};
ghost use Rattle.metric_index.specs.Items.{May, after_one, counted_of};

use crate::catalog::Catalog;
use crate::tables::{insert_at, metric_place, policy_place, resource_place, rule_place};
use archive_policy::Policy;
use front_api::MetricDoc;
use gno_codec::IndexItem;
use policy_rules::Rule;

/// The last counter that can be drawn.
pub const LAST_COUNTER: u64 = 0xff_ffff_ffff_ffff;

fn put_policy(policies: &mut Vec<Policy>, policy: Policy)
    requires rise { Rises name_cmp (λ p. p.name) policies.old.items }
    requires room { vec_len policies.old < vec_capacity policies.old }
    requires absent { found (policy_to policy.name) policies.old.items ≡ None }
    ensures { policies.new.items ≡ put (policy_to policy.name) policy policies.old.items }
{
    if let Err(at) = policy_place(policies.as_slice(), policy.name().bytes()) {
        insert_at(policies, at, policy);
    }
}

fn drop_policy(policies: &mut Vec<Policy>, name: &[u8])
    requires { Rises name_cmp (λ p. p.name) policies.old.items }
    ensures { policies.new.items ≡ gone (policy_to name.now) policies.old.items }
{
    if let Ok(at) = policy_place(policies.as_slice(), name) {
        let _ = policies.remove(at);
    }
}

fn put_rule(rules: &mut Vec<Rule>, rule: Rule)
    requires rise { Rises name_cmp (λ r. r.name) rules.old.items }
    requires room { vec_len rules.old < vec_capacity rules.old }
    requires absent { found (rule_to rule.name) rules.old.items ≡ None }
    ensures { rules.new.items ≡ put (rule_to rule.name) rule rules.old.items }
{
    if let Err(at) = rule_place(rules.as_slice(), rule.name.bytes()) {
        insert_at(rules, at, rule);
    }
}

fn drop_rule(rules: &mut Vec<Rule>, name: &[u8])
    requires { Rises name_cmp (λ r. r.name) rules.old.items }
    ensures { rules.new.items ≡ gone (rule_to name.now) rules.old.items }
{
    if let Ok(at) = rule_place(rules.as_slice(), name) {
        let _ = rules.remove(at);
    }
}

fn put_metric(metrics: &mut Vec<MetricDoc>, doc: MetricDoc)
    requires rise { Rises nat_cmp (λ d. d.id.0) metrics.old.items }
    requires room { vec_len metrics.old < vec_capacity metrics.old }
    requires absent { found (metric_to doc.id.0) metrics.old.items ≡ None }
    ensures { metrics.new.items ≡ put (metric_to doc.id.0) doc metrics.old.items }
{
    if let Err(at) = metric_place(metrics.as_slice(), doc.id.0) {
        insert_at(metrics, at, doc);
    }
}

fn drop_metric(metrics: &mut Vec<MetricDoc>, id: u128)
    requires { Rises nat_cmp (λ d. d.id.0) metrics.old.items }
    ensures { metrics.new.items ≡ gone (metric_to id) metrics.old.items }
{
    if let Ok(at) = metric_place(metrics.as_slice(), id) {
        let _ = metrics.remove(at);
    }
}

fn put_resource(resources: &mut Vec<u128>, id: u128)
    requires rise { Rises nat_cmp (λ r. r) resources.old.items }
    requires room { vec_len resources.old < vec_capacity resources.old }
    requires absent { found (resource_to id) resources.old.items ≡ None }
    ensures { resources.new.items ≡ put (resource_to id) id resources.old.items }
{
    if let Err(at) = resource_place(resources.as_slice(), id) {
        insert_at(resources, at, id);
    }
}

fn drop_resource(resources: &mut Vec<u128>, id: u128)
    requires { Rises nat_cmp (λ r. r) resources.old.items }
    ensures { resources.new.items ≡ gone (resource_to id) resources.old.items }
{
    if let Ok(at) = resource_place(resources.as_slice(), id) {
        let _ = resources.remove(at);
    }
}

impl Catalog {
    /// Whether a record may stand behind those that made these maps.
    pub fn may(&self, item: &IndexItem) -> bool
        requires { IsKept self.now }
        ensures { IsTrue result ↔ May (maps_in self.now) (counted_of item.now) }
    {
        match item {
            IndexItem::Store {
                number: _number,
                counter: _counter,
            } => false,
            IndexItem::AddPolicy(policy) => !self.has_policy(policy.name().bytes()),
            IndexItem::DropPolicy(name) => self.refuse_drop_policy(name).is_none(),
            IndexItem::AddRule(rule) => self.refuse_add_rule(rule).is_none(),
            IndexItem::DropRule(name) => self.has_rule(name.bytes()),
            IndexItem::Draw { counter } => {
                *counter == self.counter + 1 && *counter <= LAST_COUNTER
            }
            IndexItem::AddMetric {
                id,
                policy,
                name,
                unit: _unit,
                resource,
            } => self
                .refuse_parts(*id, policy.bytes(), name, resource)
                .is_none(),
            IndexItem::DropMetric(id) => self.has_metric(id.0),
            IndexItem::AddResource(id) => !self.has_resource(*id),
            IndexItem::DropResource(id) => self.refuse_drop_resource(*id).is_none(),
        }
    }

    /// Takes in a record that may stand here.
    pub fn take(&mut self, item: IndexItem)
        requires kept { IsKept self.old }
        requires room { HasRoom self.old }
        requires may { May (maps_in self.old) (counted_of item) }
        requires fits { IsIndex item }
        ensures maps { maps_in self.new ≡ after_one (maps_in self.old) (counted_of item) }
        ensures kept { IsKept self.new }
    {
        self.change(item);
    }

    fn change(&mut self, item: IndexItem)
        requires kept { IsKept self.old }
        requires room { HasRoom self.old }
        requires may { May (maps_in self.old) (counted_of item) }
        ensures { maps_in self.new ≡ after_one (maps_in self.old) (counted_of item) }
    {
        match item {
            IndexItem::Store {
                number: _number,
                counter: _counter,
            } => {}
            IndexItem::AddPolicy(policy) => put_policy(&mut self.policies, policy),
            IndexItem::DropPolicy(name) => drop_policy(&mut self.policies, name.bytes()),
            IndexItem::AddRule(rule) => put_rule(&mut self.rules, rule),
            IndexItem::DropRule(name) => drop_rule(&mut self.rules, name.bytes()),
            IndexItem::Draw { counter } => self.counter = counter,
            IndexItem::AddMetric {
                id,
                policy,
                name,
                unit,
                resource,
            } => put_metric(
                &mut self.metrics,
                MetricDoc {
                    id,
                    policy,
                    name,
                    unit,
                    resource,
                },
            ),
            IndexItem::DropMetric(id) => drop_metric(&mut self.metrics, id.0),
            IndexItem::AddResource(id) => put_resource(&mut self.resources, id),
            IndexItem::DropResource(id) => drop_resource(&mut self.resources, id),
        }
    }
}
