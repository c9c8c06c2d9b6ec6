// Which commands are refused by name.
ghost use Rattle.std.specs.Prelude.{◌≡◌, ◌||◌, ℕ, List, [], Option, is_some, not, unwrap_or};
ghost use Rattle.front_api.specs.Maps.{is_drawn, is_policy_in_use, is_resource_in_use, metric_in, metric_to, policy_to, resource_to, rule_to};
ghost use Rattle.front_api.specs.Replies.{doc_refusal, metric_refusal, or_else, place_refusal, refusal_of, unless, where_true};
ghost use Rattle.front_api.specs.Tables.{has};
ghost use Rattle.metric_index.specs.Catalog.{IsKept, maps_in};

use crate::catalog::Catalog;
use archive_policy::Name;
use front_api::{Command, ControlFault, MetricDoc};
use policy_rules::Rule;
use series_model::MetricId;

/// A refusal where there is no such key.
fn unless(is_known: bool, fault: ControlFault) -> Option<ControlFault>
    ensures { result ≡ unless is_known fault }
{
    if is_known { None } else { Some(fault) }
}

/// A refusal where a test holds.
fn where_true(holds: bool, fault: ControlFault) -> Option<ControlFault>
    ensures { result ≡ where_true holds fault }
{
    if holds { Some(fault) } else { None }
}

impl Catalog {
    /// Why a command is refused by name, if it is.
    pub fn refusal(&self, command: &Command) -> Option<ControlFault>
        requires { IsKept self.now }
        ensures { result ≡ refusal_of (maps_in self.now) command.now }
    {
        match command {
            Command::AddPolicy(policy) => where_true(
                self.has_policy(policy.name().bytes()),
                ControlFault::PolicyExists,
            ),
            Command::GetPolicy(name) => {
                unless(self.has_policy(name.bytes()), ControlFault::PolicyUnknown)
            }
            Command::ListPolicies => None,
            Command::DropPolicy(name) => self.refuse_drop_policy(name),
            Command::AddRule(rule) => self.refuse_add_rule(rule),
            Command::GetRule(name) => unless(
                self.has_rule(name.bytes()),
                ControlFault::RuleUnknown,
            ),
            Command::ListRules => None,
            Command::DropRule(name) => {
                unless(self.has_rule(name.bytes()), ControlFault::RuleUnknown)
            }
            Command::AddMetric {
                policy: _policy,
                name: _name,
                unit: _unit,
                resource: _resource,
            } => None,
            Command::GetMetric(id) => unless(self.has_metric(id.0), ControlFault::MetricUnknown),
            Command::ListMetrics => None,
            Command::DropMetric(id) => unless(self.has_metric(id.0), ControlFault::MetricUnknown),
            Command::AddResource(id) => {
                where_true(self.has_resource(*id), ControlFault::ResourceExists)
            }
            Command::GetResource(id) => {
                unless(self.has_resource(*id), ControlFault::ResourceUnknown)
            }
            Command::ListResources => None,
            Command::DropResource(id) => self.refuse_drop_resource(*id),
            Command::FindMetric { resource, name } => self.refuse_find(*resource, name),
        }
    }

    pub fn refuse_drop_policy(&self, name: &Name) -> Option<ControlFault>
        requires { IsKept self.now }
        ensures { result ≡ or_else (unless (has (policy_to name.now) self.now.policies.items) ControlFault.PolicyUnknown)
            (where_true (is_policy_in_use (maps_in self.now) name.now) ControlFault.PolicyInUse) }
    {
        if !self.has_policy(name.bytes()) {
            return Some(ControlFault::PolicyUnknown);
        }
        where_true(
            self.is_policy_in_use(name.bytes()),
            ControlFault::PolicyInUse,
        )
    }

    pub fn refuse_add_rule(&self, rule: &Rule) -> Option<ControlFault>
        requires { IsKept self.now }
        ensures { result ≡ or_else (unless (has (policy_to rule.now.policy) self.now.policies.items) ControlFault.PolicyUnknown)
            (where_true (has (rule_to rule.now.name) self.now.rules.items) ControlFault.RuleExists) }
    {
        if !self.has_policy(rule.policy.bytes()) {
            return Some(ControlFault::PolicyUnknown);
        }
        where_true(self.has_rule(rule.name.bytes()), ControlFault::RuleExists)
    }

    pub fn refuse_drop_resource(&self, id: u128) -> Option<ControlFault>
        requires { IsKept self.now }
        ensures { result ≡ or_else (unless (has (resource_to id) self.now.resources.items) ControlFault.ResourceUnknown)
            (where_true (is_resource_in_use (maps_in self.now) id) ControlFault.ResourceInUse) }
    {
        if !self.has_resource(id) {
            return Some(ControlFault::ResourceUnknown);
        }
        where_true(self.is_resource_in_use(id), ControlFault::ResourceInUse)
    }

    fn refuse_find(&self, resource: u128, name: &Name) -> Option<ControlFault>
        requires { IsKept self.now }
        ensures { result ≡ or_else (unless (has (resource_to resource) self.now.resources.items) ControlFault.ResourceUnknown)
            (unless (is_some (metric_in (maps_in self.now) resource name.now)) ControlFault.MetricUnknown) }
    {
        if !self.has_resource(resource) {
            return Some(ControlFault::ResourceUnknown);
        }
        unless(
            self.has_named(resource, name.bytes()),
            ControlFault::MetricUnknown,
        )
    }

    /// Whether a resource has a metric of this name.
    fn has_named(&self, resource: u128, name: &[u8]) -> bool
        ensures { result ≡ is_some (metric_in (maps_in self.now) resource name.now) }
    {
        self.metric_in(resource, name).is_some()
    }

    /// Why a metric of this resource and name can't be added, if so.
    fn refuse_place(&self, resource: &Option<u128>, name: &Option<Name>) -> Option<ControlFault>
        requires { IsKept self.now }
        ensures { result ≡ place_refusal (maps_in self.now) resource.now name.now }
    {
        let Some(resource) = resource else {
            return None;
        };
        if !self.has_resource(*resource) {
            return Some(ControlFault::ResourceUnknown);
        }
        where_true(
            self.has_named(*resource, text_of(name)),
            ControlFault::NameTaken,
        )
    }

    /// Why a metric of this policy, resource and name can't be added, if so.
    pub fn refuse_metric(
        &self,
        policy: &[u8],
        resource: &Option<u128>,
        name: &Option<Name>,
    ) -> Option<ControlFault>
        requires { IsKept self.now }
        ensures { result ≡ metric_refusal (maps_in self.now) policy.now resource.now name.now }
    {
        if !self.has_policy(policy) {
            return Some(ControlFault::PolicyUnknown);
        }
        self.refuse_place(resource, name)
    }

    /// Whether an identifier can't be given to a metric.
    fn is_id_taken(&self, id: MetricId) -> bool
        requires { IsKept self.now }
        ensures { result ≡ (has (metric_to id.0) self.now.metrics.items || not (is_drawn (maps_in self.now) id.0)) }
    {
        self.has_metric(id.0) || !self.is_drawn(id.0)
    }

    /// Why a metric of this identifier, policy, name and resource can't be added, if so.
    pub fn refuse_parts(
        &self,
        id: MetricId,
        policy: &[u8],
        name: &Option<Name>,
        resource: &Option<u128>,
    ) -> Option<ControlFault>
        requires { IsKept self.now }
        ensures { (unit : Option (List ℕ)) → result ≡ doc_refusal (maps_in self.now)
            (record { id = id; policy = policy.now; name = name.now; unit = unit; resource = resource.now }) }
    {
        match self.refuse_metric(policy, resource, name) {
            Some(fault) => Some(fault),
            None => where_true(self.is_id_taken(id), ControlFault::IdTaken(id)),
        }
    }

    /// Why a metric's document can't be added, if so.
    pub fn refuse_doc(&self, doc: &MetricDoc) -> Option<ControlFault>
        requires { IsKept self.now }
        ensures { result ≡ doc_refusal (maps_in self.now) doc.now }
    {
        self.refuse_parts(doc.id, doc.policy.bytes(), &doc.name, &doc.resource)
    }
}

/// The text of a name, empty where there is none.
pub fn text_of(name: &Option<Name>) -> &[u8]
    ensures { result.now ≡ unwrap_or name.now [] }
{
    match name {
        Some(name) => name.bytes(),
        None => &[],
    }
}
