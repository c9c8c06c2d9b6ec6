// What the store is asked.
ghost use Rattle.std.specs.Prelude.{◌≡◌, IfErr};
ghost use Rattle.front_api.specs.FaultWords.{IsKnown};
ghost use Rattle.front_api.specs.Seen.{LeadsTo};
ghost use Rattle.front_api.specs.Front.{AnswersQuery, Controls, Drains, NamesMember, Posts, Refreshes};

use crate::command::{Command, Reply};
use crate::fault::ControlFault;
use crate::seen::Histories;
use sack_history::{AnswerFault, SackFault};
use series_model::{Answer, Batch, MetricId, Query};
use std::alloc::Global;

/// A store, as one of its callers calls it. Each call enters the books that it uses, each time with others'
/// entries before its own, and its result is that of the history at its own last entry: whatever histories the
/// value stands for before a call, after it there are some that it stands for, and that come of these by the call.
pub trait Front: Histories {
    /// Posts a batch to a metric, and gives its number.
    fn post(&mut self, alloc: Global, metric: MetricId, batch: &Batch) -> Result<u64, SackFault>
        ensures posts { LeadsTo Self.stands self.old self.new (Posts metric batch.now result) }
        ensures same { (Self.sack_count self.new ≡ Self.sack_count self.old) × (Self.duty self.new ≡ Self.duty self.old) × (Self.made self.new ≡ Self.made self.old) };

    /// Processes all posts of a metric, and gives its done number.
    fn refresh(&mut self, alloc: Global, metric: MetricId) -> Result<u64, SackFault>
        ensures refreshes { LeadsTo Self.stands self.old self.new (Refreshes metric result) }
        ensures same { (Self.sack_count self.new ≡ Self.sack_count self.old) × (Self.duty self.new ≡ Self.duty self.old) × (Self.made self.new ≡ Self.made self.old) };

    /// Answers a query of a metric.
    fn answer(
        &mut self,
        alloc: Global,
        metric: MetricId,
        query: &Query,
    ) -> Result<Answer, AnswerFault>
        ensures answers { LeadsTo Self.stands self.old self.new (AnswersQuery metric query.now result) }
        ensures same { (Self.sack_count self.new ≡ Self.sack_count self.old) × (Self.duty self.new ≡ Self.duty self.old) × (Self.made self.new ≡ Self.made self.old) };

    /// Processes all posts of all metrics, and gives the number of turns, which ends at its last value. It never
    /// answers `Unknown`.
    fn drain(&mut self, alloc: Global) -> Result<u64, SackFault>
        ensures drains { LeadsTo Self.stands self.old self.new (Drains result) }
        ensures known { IfErr result IsKnown }
        ensures same { (Self.sack_count self.new ≡ Self.sack_count self.old) × (Self.duty self.new ≡ Self.duty self.old) × (Self.made self.new ≡ Self.made self.old) };

    /// Does what a command asks, and answers it.
    fn control(&mut self, alloc: Global, command: &Command) -> Result<Reply, ControlFault>
        requires { NamesMember command.now }
        ensures controls { LeadsTo Self.stands self.old self.new (Controls command.now result) }
        ensures same { (Self.sack_count self.new ≡ Self.sack_count self.old) × (Self.duty self.new ≡ Self.duty self.old) × (Self.made self.new ≡ Self.made self.old) };
}
