// What the front of one thread is asked.
ghost use Rattle.std.specs.Prelude.{◌≡◌, IfErr};
ghost use Rattle.front_api.specs.FaultWords.{IsKnown};
ghost use Rattle.front_api.specs.Front.{AnswersQuery, Controls, Drains, NamesMember, Posts, Refreshes};
ghost use Rattle.front_api.specs.Seen.{LeadsTo};

use crate::solo::Solo;
use front_api::{Command, ControlFault, Front, Reply};
use gno_disk::Disk;
use sack_history::{AnswerFault, SackFault};
use series_model::{Answer, Batch, MetricId, Query};
use std::alloc::Global;

/// A caller's calls on the store.
impl<D: Disk> Front for Solo<D> {
    fn post(&mut self, _alloc: Global, metric: MetricId, batch: &Batch) -> Result<u64, SackFault> {
        self.post_to(metric, batch)
    }

    fn refresh(&mut self, _alloc: Global, metric: MetricId) -> Result<u64, SackFault> {
        self.refresh_in(metric)
    }

    fn answer(
        &mut self,
        _alloc: Global,
        metric: MetricId,
        query: &Query,
    ) -> Result<Answer, AnswerFault> {
        self.answer_in(metric, query)
    }

    fn drain(&mut self, _alloc: Global) -> Result<u64, SackFault> {
        self.drain_all()
    }

    fn control(&mut self, alloc: Global, command: &Command) -> Result<Reply, ControlFault> {
        self.do_command(alloc, command)
    }
}
