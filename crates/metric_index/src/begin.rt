// New metrics: the policy that one gets, and its identifier.
ghost use Rattle.std.specs.Prelude.{◌≡◌, ◌≤◌, ◌+◌, [], ◌∷◌, IfSome, IfNone, IfOk, IfErr, Some, None};
ghost use Rattle.front_api.specs.Maps.{id_of, last_counter};
ghost use Rattle.front_api.specs.Replies.{GetsNone, GetsPolicy, IsAcceptedMetric, IsRefusedMetric};
ghost use Rattle.front_api.specs.Calls.{IsSpentFor, RefusedCall};
ghost use Rattle.front_api.specs.declared.history.IndexEntry.{IndexEntry};
ghost use Rattle.metric_index.specs.Catalog.{IsKept, maps_in};

use crate::catalog::{Catalog, id_base};
use crate::change::LAST_COUNTER;
use archive_policy::{Name, Policy};
use front_api::ControlFault;
use gno_num::{Counter, Spent};
use policy_rules::choose;
use series_model::MetricId;

impl Catalog {
    /// The policy's name that a rule gives a metric of this name, if there is one.
    fn policy_by_rule(&self, name: &Name) -> Option<&Name>
        ensures some { IfSome result (λ policy. GetsPolicy self.now.rules.items None (Some name.now) policy.now) }
        ensures none { IfNone result (GetsNone self.now.rules.items None (Some name.now)) }
    {
        match choose(self.rules.as_slice(), name.bytes()) {
            Some(at) => Some(&self.rules[at].policy),
            None => None,
        }
    }

    /// The name of the policy that a new metric gets, if it gets one.
    pub fn policy_for<'a>(
        &'a self,
        policy: &'a Option<Name>,
        name: &Option<Name>,
    ) -> Option<&'a Name>
        ensures some { IfSome result (λ got. GetsPolicy self.now.rules.items policy.now name.now got.now) }
        ensures none { IfNone result (GetsNone self.now.rules.items policy.now name.now) }
    {
        match policy {
            Some(given) => Some(given),
            None => match name {
                Some(name) => self.policy_by_rule(name),
                None => None,
            },
        }
    }

    /// The policy of a new metric of these words, or why it is refused by name.
    pub fn accepted<'a>(
        &'a self,
        policy: &'a Option<Name>,
        name: &Option<Name>,
        resource: &Option<u128>,
    ) -> Result<&'a Policy, ControlFault>
        requires { IsKept self.now }
        ensures ok { IfOk result (λ got. IsAcceptedMetric (maps_in self.now) policy.now name.now resource.now got.now) }
        ensures err { IfErr result (IsRefusedMetric (maps_in self.now) policy.now name.now resource.now) }
    {
        let Some(got) = self.policy_for(policy, name) else {
            return Err(ControlFault::NoRule);
        };
        match self.refuse_metric(got.bytes(), resource, name) {
            Some(fault) => Err(fault),
            None => match self.policy(got.bytes()) {
                Some(policy) => Ok(policy),
                None => Err(ControlFault::PolicyUnknown),
            },
        }
    }

    /// The identifier of a counter.
    pub fn id_of(&self, counter: u64) -> MetricId
        requires { counter ≤ last_counter }
        ensures { result.0 ≡ id_of self.now.number counter }
    {
        MetricId(id_base(self.number) + u128::from(counter))
    }

    /// The identifier that is drawn next for a new metric of these words, and the metric's policy; or why the
    /// metric is refused.
    pub fn begin(
        &self,
        policy: &Option<Name>,
        name: &Option<Name>,
        resource: &Option<u128>,
    ) -> Result<(MetricId, Policy), ControlFault>
        requires { IsKept self.now }
        ensures ok { IfOk result (λ drawn. IsAcceptedMetric (maps_in self.now) policy.now name.now resource.now drawn.1
            × (self.now.counter + 1 ≤ last_counter) × (drawn.0.0 ≡ id_of self.now.number (self.now.counter + 1))) }
        ensures err { IfErr result (λ e. RefusedCall (IsRefusedMetric (maps_in self.now) policy.now name.now resource.now)
            (IsSpentFor (maps_in self.now) policy.now name.now resource.now) (λ c. ⊥) e (IndexEntry.Look ∷ [])) }
    {
        let got = match self.accepted(policy, name, resource) {
            Ok(got) => got,
            Err(fault) => return Err(fault),
        };
        if self.counter >= LAST_COUNTER {
            return Err(ControlFault::Spent(Spent {
                counter: Counter::IdCounter,
                at: LAST_COUNTER,
            }));
        }
        match got.copy() {
            Ok(copy) => Ok((self.id_of(self.counter + 1), copy)),
            Err(_) => Err(ControlFault::Memory),
        }
    }
}
