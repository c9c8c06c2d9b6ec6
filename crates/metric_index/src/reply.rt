// What an accepted command is answered.
ghost use Rattle.std.specs.Prelude.{◌≡◌, ℕ, List, [], ◌∷◌, IfOk, OnOk, map, if◌then◌else◌};
ghost use Rattle.std.specs.Option.{option_copied, option_to_list};
ghost use Rattle.front_api.specs.Maps.{is_in};
ghost use Rattle.front_api.specs.Replies.{members, reply_of, resource_doc, with_member};
ghost use Rattle.front_api.specs.Tables.{Rises, name_cmp, put};
ghost use Rattle.metric_index.specs.Catalog.{IsKept, IsNamed, maps_in};

use crate::catalog::{Catalog, is_in};
use crate::tables::member_place;
use archive_policy::{Name, Policy};
use front_api::{Command, MetricDoc, Reply, ResourceDoc};
use gno_num::{List, Memory};
use policy_rules::Rule;
use series_model::MetricId;
use std::alloc::Global;

/// An equal name, or none.
pub fn copy_optional(name: &Option<Name>) -> Result<Option<Name>, Memory>
    ensures { IfOk result (λ copy. copy ≡ name.now) }
{
    match name {
        Some(name) => {
            let copy = name.copy()?;
            Ok(Some(copy))
        }
        None => Ok(None),
    }
}

/// An equal rule.
pub fn copy_rule(rule: &Rule) -> Result<Rule, Memory>
    ensures { IfOk result (λ copy. copy ≡ rule.now) }
{
    Ok(Rule {
        name: rule.name.copy()?,
        pattern: rule.pattern.copy()?,
        policy: rule.policy.copy()?,
    })
}

/// An equal document.
pub fn copy_doc(doc: &MetricDoc) -> Result<MetricDoc, Memory>
    ensures { IfOk result (λ copy. copy ≡ doc.now) }
{
    Ok(MetricDoc {
        id: doc.id,
        policy: doc.policy.copy()?,
        name: copy_optional(&doc.name)?,
        unit: copy_optional(&doc.unit)?,
        resource: doc.resource,
    })
}

/// Equal policies.
fn copy_policies(alloc: Global, policies: &[Policy]) -> Result<List<Policy>, Memory>
    ensures { IfOk result (λ copies. copies ≡ policies.now) }
{
    let mut copies = Vec::new(alloc);
    copies.reserve(policies.len())?;
    for policy in policies {
        copies.push(policy.copy()?)?;
    }
    Ok(List::of(copies))
}

/// Equal rules.
fn copy_rules(alloc: Global, rules: &[Rule]) -> Result<List<Rule>, Memory>
    ensures { IfOk result (λ copies. copies ≡ rules.now) }
{
    let mut copies = Vec::new(alloc);
    copies.reserve(rules.len())?;
    for rule in rules {
        copies.push(copy_rule(rule)?)?;
    }
    Ok(List::of(copies))
}

/// Equal documents.
fn copy_docs(alloc: Global, docs: &[MetricDoc]) -> Result<List<MetricDoc>, Memory>
    ensures { IfOk result (λ copies. copies ≡ docs.now) }
{
    let mut copies = Vec::new(alloc);
    copies.reserve(docs.len())?;
    for doc in docs {
        copies.push(copy_doc(doc)?)?;
    }
    Ok(List::of(copies))
}

/// The policy that was found, as a list.
fn found_policy(alloc: Global, found: Option<&Policy>) -> Result<Reply, Memory>
    ensures { IfOk result (λ reply. reply ≡ Reply.Policies (option_to_list (option_copied found.entry))) }
{
    let mut copies = Vec::new(alloc);
    if let Some(policy) = found {
        copies.push(policy.copy()?)?;
    }
    Ok(Reply::Policies(List::of(copies)))
}

/// The rule that was found, as a list.
fn found_rule(alloc: Global, found: Option<&Rule>) -> Result<Reply, Memory>
    ensures { IfOk result (λ reply. reply ≡ Reply.Rules (option_to_list (option_copied found.entry))) }
{
    let mut copies = Vec::new(alloc);
    if let Some(rule) = found {
        copies.push(copy_rule(rule)?)?;
    }
    Ok(Reply::Rules(List::of(copies)))
}

/// The metric that was found, as a list.
fn found_metric(alloc: Global, found: Option<&MetricDoc>) -> Result<Reply, Memory>
    ensures { IfOk result (λ reply. reply ≡ Reply.Metrics (option_to_list (option_copied found.entry))) }
{
    let mut copies = Vec::new(alloc);
    if let Some(doc) = found {
        copies.push(copy_doc(doc)?)?;
    }
    Ok(Reply::Metrics(List::of(copies)))
}

/// A list of one document of a resource.
fn one_resource(alloc: Global, doc: ResourceDoc) -> Result<Reply, Memory>
    ensures { IfOk result (λ reply. reply ≡ Reply.Resources (doc ∷ [])) }
{
    let mut docs = Vec::new(alloc);
    docs.push(doc)?;
    Ok(Reply::Resources(List::of(docs)))
}

/// Puts a member in at its name.
fn put_member(members: &mut Vec<(Name, MetricId)>, name: Name, id: MetricId) -> Result<(), Memory>
    requires { Rises name_cmp (λ m. m.0) members.old.items }
    ensures put { OnOk result (members.new.items ≡ put (λ m. name_cmp m.0 name) (name, id) members.old.items) }
    ensures rise { OnOk result (Rises name_cmp (λ m. m.0) members.new.items) }
{
    match member_place(members.as_slice(), name.bytes()) {
        Ok(at) => {
            members[at] = (name, id);
            Ok(())
        }
        Err(at) => {
            members.insert(at, (name, id))?;
            Ok(())
        }
    }
}

impl Catalog {
    /// The metrics of a resource, by rising name.
    fn members(&self, alloc: Global, resource: u128) -> Result<List<(Name, MetricId)>, Memory>
        requires { IsKept self.now }
        ensures { IfOk result (λ list. list ≡ members (maps_in self.now) resource) }
    {
        let mut members = Vec::new(alloc);
        for doc in &self.metrics {
            add_member(&mut members, doc, resource)?;
        }
        Ok(List::of(members))
    }

    /// The document of a resource.
    fn resource_doc(&self, alloc: Global, resource: u128) -> Result<ResourceDoc, Memory>
        requires { IsKept self.now }
        ensures { IfOk result (λ doc. doc ≡ resource_doc (maps_in self.now) resource) }
    {
        let metrics = self.members(alloc, resource)?;
        Ok(ResourceDoc {
            id: resource,
            metrics,
        })
    }

    /// The documents of all resources.
    fn resource_docs(&self, alloc: Global) -> Result<List<ResourceDoc>, Memory>
        requires { IsKept self.now }
        ensures { IfOk result (λ docs. docs ≡ map (resource_doc (maps_in self.now)) self.now.resources.items) }
    {
        let mut docs = Vec::new(alloc);
        docs.reserve(self.resources.len())?;
        for resource in &self.resources {
            docs.push(self.resource_doc(alloc, *resource)?)?;
        }
        Ok(List::of(docs))
    }

    /// The reply to a command that isn't refused.
    pub fn reply(&self, alloc: Global, command: &Command) -> Result<Reply, Memory>
        requires { IsKept self.now }
        ensures { IfOk result (λ reply. reply ≡ reply_of (maps_in self.now) command.now) }
    {
        match command {
            Command::AddPolicy(policy) => found_policy(alloc, Some(policy)),
            Command::GetPolicy(name) => found_policy(alloc, self.policy(name.bytes())),
            Command::ListPolicies => {
                let copies = copy_policies(alloc, self.policies.as_slice())?;
                Ok(Reply::Policies(copies))
            }
            Command::DropPolicy(_name) => Ok(Reply::Done),
            Command::AddRule(rule) => found_rule(alloc, Some(rule)),
            Command::GetRule(name) => found_rule(alloc, self.rule(name.bytes())),
            Command::ListRules => {
                let copies = copy_rules(alloc, self.rules.as_slice())?;
                Ok(Reply::Rules(copies))
            }
            Command::DropRule(_name) => Ok(Reply::Done),
            Command::AddMetric {
                policy: _policy,
                name: _name,
                unit: _unit,
                resource: _resource,
            } => Ok(Reply::Done),
            Command::GetMetric(id) => found_metric(alloc, self.metric(id.0)),
            Command::ListMetrics => {
                let copies = copy_docs(alloc, self.metrics.as_slice())?;
                Ok(Reply::Metrics(copies))
            }
            Command::DropMetric(_id) => Ok(Reply::Done),
            Command::AddResource(id) => one_resource(
                alloc,
                ResourceDoc {
                    id: *id,
                    metrics: List::of(Vec::new(alloc)),
                },
            ),
            Command::GetResource(id) => one_resource(alloc, self.resource_doc(alloc, *id)?),
            Command::ListResources => {
                let docs = self.resource_docs(alloc)?;
                Ok(Reply::Resources(docs))
            }
            Command::DropResource(_id) => Ok(Reply::Done),
            Command::FindMetric { resource, name } => {
                found_metric(alloc, self.metric_in(*resource, name.bytes()))
            }
        }
    }
}

/// Puts a metric in at its name, where it is in this resource.
fn add_member(
    members: &mut Vec<(Name, MetricId)>,
    doc: &MetricDoc,
    resource: u128,
) -> Result<(), Memory>
    requires rise { Rises name_cmp (λ m. m.0) members.old.items }
    requires named { IsNamed doc.now }
    ensures added { OnOk result (members.new.items ≡ (if is_in resource doc.now then with_member members.old.items doc.now else members.old.items)) }
    ensures rise { OnOk result (Rises name_cmp (λ m. m.0) members.new.items) }
{
    if !is_in(doc, resource) {
        return Ok(());
    }
    match &doc.name {
        Some(name) => put_member(members, name.copy()?, doc.id),
        None => Ok(()),
    }
}
