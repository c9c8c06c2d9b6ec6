// Commands and their replies.
use archive_policy::{Name, Policy};
use gno_num::List;
use policy_rules::Rule;
use series_model::MetricId;

/// What is asked of the store besides measures.
#[derive(Debug, Drop)]
pub enum Command {
    AddPolicy(Policy),
    GetPolicy(Name),
    ListPolicies,
    DropPolicy(Name),
    AddRule(Rule),
    GetRule(Name),
    ListRules,
    DropRule(Name),
    /// A metric of a policy that is named, or of the one that a rule chooses for the metric's name. One
    /// with a resource has a name.
    AddMetric {
        policy: Option<Name>,
        name: Option<Name>,
        unit: Option<Name>,
        resource: Option<u128>,
    },
    GetMetric(MetricId),
    ListMetrics,
    DropMetric(MetricId),
    AddResource(u128),
    GetResource(u128),
    ListResources,
    DropResource(u128),
    /// The metric of this name in a resource.
    FindMetric {
        resource: u128,
        name: Name,
    },
}

/// A metric, as it is told. One with a resource has a name.
#[derive(Debug, Drop)]
pub struct MetricDoc {
    pub id: MetricId,
    pub policy: Name,
    pub name: Option<Name>,
    pub unit: Option<Name>,
    pub resource: Option<u128>,
}

/// A resource, and its metrics by rising name.
#[derive(Debug, Drop)]
pub struct ResourceDoc {
    pub id: u128,
    pub metrics: List<(Name, MetricId)>,
}

/// The answer to a command. Lists come by rising name or identifier, and a single answer is a list of one.
#[derive(Debug, Drop)]
pub enum Reply {
    Done,
    Policies(List<Policy>),
    Rules(List<Rule>),
    Metrics(List<MetricDoc>),
    Resources(List<ResourceDoc>),
}
