// The calls of a front, as they enter the books of the store.
ghost use Rattle.std.specs.Prelude.{◌≡◌, ◌<◌, IfErr, length};
ghost use Rattle.sack_history.specs.Calls.{IsCreating, IsDraining, IsDropping};
ghost use Rattle.front_api.specs.Calls.{IsApplied};
ghost use Rattle.front_api.specs.FaultWords.{IsKnown, create_words, sack_words};
ghost use Rattle.front_api.specs.Front.{AnswersQuery, Drains, Posts, Refreshes};
ghost use Rattle.front_api.specs.Seen.{EntersIndex, EntersSack, EntersSackOf, LeadsTo};
ghost use Rattle.metric_index.specs.IndexView.{AllCame};
ghost use Rattle.front.specs.SoloView.{StandsForBooks};

use crate::fault::{told_of_answering, told_of_creating, told_of_sack};
use crate::solo::Solo;
use archive_policy::Policy;
use front_api::{Command, ControlFault, Reply, sack_of};
use gno_disk::Disk;
use sack_history::{AnswerFault, CreateFault, SackFault};
use series_model::{Answer, Batch, MetricId, Query};

impl<D: Disk> Solo<D> {
    /// Posts a batch to a metric, in the metric's sack, and gives its number.
    pub(crate) fn post_to(&mut self, metric: MetricId, batch: &Batch) -> Result<u64, SackFault>
        ensures posts { LeadsTo (StandsForBooks D.Disk) self.old self.new (Posts metric batch.now result) }
        ensures same { self.new ≡ record self.old { sacks = self.new.sacks } }
        ensures as_many { length self.new.sacks ≡ length self.old.sacks }
    {
        let sack = sack_of(metric, self.made.sacks);
        let book = &mut self.sacks[usize::from(sack)];
        match book.post(metric, batch) {
            Ok(number) => Ok(number),
            Err(fault) => Err(told_of_sack(sack, fault)),
        }
    }

    /// Processes all posts of a metric, in the metric's sack, and gives its done number.
    pub(crate) fn refresh_in(&mut self, metric: MetricId) -> Result<u64, SackFault>
        ensures refreshes { LeadsTo (StandsForBooks D.Disk) self.old self.new (Refreshes metric result) }
        ensures same { self.new ≡ record self.old { sacks = self.new.sacks } }
        ensures as_many { length self.new.sacks ≡ length self.old.sacks }
    {
        let sack = sack_of(metric, self.made.sacks);
        let book = &mut self.sacks[usize::from(sack)];
        match book.refresh(metric) {
            Ok(done) => Ok(done),
            Err(fault) => Err(told_of_sack(sack, fault)),
        }
    }

    /// Answers a query of a metric, in the metric's sack.
    pub(crate) fn answer_in(
        &mut self,
        metric: MetricId,
        query: &Query,
    ) -> Result<Answer, AnswerFault>
        ensures answers { LeadsTo (StandsForBooks D.Disk) self.old self.new (AnswersQuery metric query.now result) }
        ensures same { self.new ≡ record self.old { sacks = self.new.sacks } }
        ensures as_many { length self.new.sacks ≡ length self.old.sacks }
    {
        let sack = sack_of(metric, self.made.sacks);
        let book = &mut self.sacks[usize::from(sack)];
        match book.answer(metric, query) {
            Ok(answer) => Ok(answer),
            Err(fault) => Err(told_of_answering(sack, fault)),
        }
    }

    /// Processes all posts of all metrics of one sack, and gives the number of turns.
    fn drain_in(&mut self, sack: u16) -> Result<u64, SackFault>
        requires { sack < length self.old.sacks }
        ensures drains { LeadsTo (StandsForBooks D.Disk) self.old self.new (EntersSack sack sack_words IsDraining result) }
        ensures known { IfErr result IsKnown }
        ensures same { self.new ≡ record self.old { sacks = self.new.sacks } }
        ensures as_many { length self.new.sacks ≡ length self.old.sacks }
    {
        let book = &mut self.sacks[usize::from(sack)];
        match book.drain() {
            Ok(turns) => Ok(turns),
            Err(fault) => Err(told_of_sack(sack, fault)),
        }
    }

    /// Processes all posts of all metrics, sack by sack, and gives the number of turns.
    pub(crate) fn drain_all(&mut self) -> Result<u64, SackFault>
        ensures drains { LeadsTo (StandsForBooks D.Disk) self.old self.new (Drains result) }
        ensures known { IfErr result IsKnown }
        ensures same { self.new ≡ record self.old { sacks = self.new.sacks } }
        ensures as_many { length self.new.sacks ≡ length self.old.sacks }
    {
        let mut turns: u64 = 0;
        'sacks: for sack in 0..self.sack_count() {
            match self.drain_in(sack) {
                Ok(more) => turns = turns.saturating_add(more),
                Err(fault) => return Err(fault),
            }
        }
        Ok(turns)
    }

    /// Creates a metric in its sack.
    pub(crate) fn create_in_sack(
        &mut self,
        metric: MetricId,
        policy: &Policy,
    ) -> Result<(), CreateFault>
        ensures creates { LeadsTo (StandsForBooks D.Disk) self.old self.new (EntersSackOf metric create_words (IsCreating metric policy.now) result) }
        ensures same { self.new ≡ record self.old { sacks = self.new.sacks } }
        ensures as_many { length self.new.sacks ≡ length self.old.sacks }
    {
        let sack = sack_of(metric, self.made.sacks);
        let book = &mut self.sacks[usize::from(sack)];
        match book.create_metric(metric, policy) {
            Ok(()) => Ok(()),
            Err(fault) => Err(told_of_creating(sack, fault)),
        }
    }

    /// Drops a metric in its sack.
    pub(crate) fn drop_in_sack(&mut self, metric: MetricId) -> Result<(), SackFault>
        ensures drops { LeadsTo (StandsForBooks D.Disk) self.old self.new (EntersSackOf metric sack_words (IsDropping metric) result) }
        ensures same { self.new ≡ record self.old { sacks = self.new.sacks } }
        ensures as_many { length self.new.sacks ≡ length self.old.sacks }
    {
        let sack = sack_of(metric, self.made.sacks);
        let book = &mut self.sacks[usize::from(sack)];
        match book.drop_metric(metric) {
            Ok(()) => Ok(()),
            Err(fault) => Err(told_of_sack(sack, fault)),
        }
    }

    /// Does what a command asks of the index alone.
    pub(crate) fn ask_index(&mut self, command: &Command) -> Result<Reply, ControlFault>
        ensures controls { LeadsTo (StandsForBooks D.Disk) self.old self.new (EntersIndex (IsApplied command.now) result) }
        ensures same { self.new ≡ record self.old { index = self.new.index } }
        ensures came { AllCame D.Disk 6 self.old.index.disks self.new.index.disks }
    {
        self.index.apply(command)
    }
}
