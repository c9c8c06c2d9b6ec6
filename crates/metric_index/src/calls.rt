// The calls on a book that isn't broken.
ghost use Rattle.std.specs.Prelude.{◌≡◌, ◌+◌, [], ◌∷◌, IfErr, OnOk, OnErr, IsSome, None, Some, true, false};
ghost use Rattle.gate_log.specs.LogView.{IsFault, MatchFault};
ghost use Rattle.gno_codec.specs.Index.{IsUsable};
ghost use Rattle.log_pair.specs.PairView.{both_faults};
ghost use Rattle.front_api.specs.Calls.{AddsTo, AppliesTo, BeginsOn};
ghost use Rattle.front_api.specs.declared.history.IndexCounted.{IndexCounted};
ghost use Rattle.front_api.specs.Replies.{refusal_of};
ghost use Rattle.metric_index.specs.BookCalls.{IsAt, LeavesBook, MatchDisk, MatchWrite, entry_by, state_by, written_by};
ghost use Rattle.metric_index.specs.BookView.{IsLastingBook};
ghost use Rattle.metric_index.specs.Items.{May, after_one, counted_of};

use crate::book::Book;
use crate::item::{item_of, item_of_doc};
use archive_policy::{Name, Policy};
use front_api::{Command, ControlFault, MetricDoc, Reply};
use gno_codec::IndexItem;
use gno_disk::Disk;
use log_pair::LogFault;
use series_model::MetricId;
use std::alloc::Global;

/// A fault of a log as a refusal.
fn control_of(fault: LogFault) -> ControlFault
    ensures { MatchFault fault (λ f. result ≡ ControlFault.DiskFault f) (result ≡ ControlFault.Memory) }
{
    match fault {
        LogFault::DiskFault(fault) => ControlFault::DiskFault(fault),
        LogFault::Memory => ControlFault::Memory,
    }
}

impl<D: Disk> Book<D> {
    /// Writes a record that may stand here.
    fn change(&mut self, alloc: Global, item: IndexItem) -> Result<(), ControlFault>
        requires whole { self.old.broken ≡ false }
        requires may { May self.old.maps (counted_of item) }
        requires usable { IsUsable item }
        ensures taken { OnOk result (self.new.maps ≡ after_one self.old.maps (counted_of item)) }
        ensures kept { OnErr result (self.new.maps ≡ self.old.maps) }
        ensures whole { OnOk result (self.new.broken ≡ false) }
        ensures cause { IfErr result (λ e. MatchWrite e
            (λ f. IsFault (both_faults D.Disk self.old.first self.old.second)
            (both_faults D.Disk self.new.first self.new.second) f × (self.new.broken ≡ true)) (self.new ≡ self.old)) }
        ensures leaves { LeavesBook D.Disk (counted_of item) self.old self.new }
        ensures durable { OnOk result (IsLastingBook D.Disk self.new) }
    {
        match self.write(alloc, item) {
            Ok(()) => Ok(()),
            Err(fault) => Err(control_of(fault)),
        }
    }

    /// Does what a command asks, and answers it. A refused one changes nothing. All memory is taken before the
    /// first write. After a fault of a disk it is broken.
    pub fn apply(&mut self, alloc: Global, command: &Command) -> Result<Reply, ControlFault>
        requires { self.old.broken ≡ false }
        ensures does { AppliesTo command.now self.old.maps (entry_by (written_by command.now) result ∷ []) result }
        ensures state { IsAt self.new (state_by self.old.maps (entry_by (written_by command.now) result)) }
        ensures cause { IfErr result (λ e. MatchDisk e
            (IsFault (both_faults D.Disk self.old.first self.old.second) (both_faults D.Disk self.new.first self.new.second))
            (self.new ≡ self.old)) }

        // At every moment a stop leaves the old maps, or those with the command.
        ensures leaves { LeavesBook D.Disk (written_by command.now) self.old self.new }
        ensures durable { OnOk result (IsLastingBook D.Disk self.new) }
    {
        let _lasting = self.is_broken();
        if let Some(fault) = self.refusal(command) {
            return Err(fault);
        }
        self.apply_accepted(alloc, command)
    }

    /// The same of a command that isn't refused by name.
    fn apply_accepted(&mut self, alloc: Global, command: &Command) -> Result<Reply, ControlFault>
        requires whole { self.old.broken ≡ false }
        requires accepted { refusal_of self.old.maps command.now ≡ None }
        ensures does { AppliesTo command.now self.old.maps (entry_by (written_by command.now) result ∷ []) result }
        ensures state { IsAt self.new (state_by self.old.maps (entry_by (written_by command.now) result)) }
        ensures cause { IfErr result (λ e. MatchDisk e
            (IsFault (both_faults D.Disk self.old.first self.old.second) (both_faults D.Disk self.new.first self.new.second))
            (self.new ≡ self.old)) }
        ensures leaves { LeavesBook D.Disk (written_by command.now) self.old self.new }
        ensures durable { OnOk result (IsLastingBook D.Disk self.new) }
    {
        let _lasting = self.is_broken();
        let Ok(reply) = self.reply(alloc, command) else {
            return Err(ControlFault::Memory);
        };
        let Ok(item) = item_of(command) else {
            return Err(ControlFault::Memory);
        };
        let Some(item) = item else {
            return Ok(reply);
        };
        match self.change(alloc, item) {
            Ok(()) => Ok(reply),
            Err(fault) => Err(fault),
        }
    }

    /// Draws an identifier for a new metric of these words, and gives it with the metric's policy once it is on
    /// the disk.
    pub fn begin(
        &mut self,
        alloc: Global,
        policy: &Option<Name>,
        name: &Option<Name>,
        resource: &Option<u128>,
    ) -> Result<(MetricId, Policy), ControlFault>
        requires { self.old.broken ≡ false }
        ensures does { BeginsOn policy.now name.now resource.now self.old.maps
            (entry_by (Some (IndexCounted.Draw (self.old.maps.counter + 1))) result ∷ []) result }
        ensures state { IsAt self.new (state_by self.old.maps (entry_by (Some (IndexCounted.Draw (self.old.maps.counter + 1))) result)) }
        ensures cause { IfErr result (λ e. MatchDisk e
            (IsFault (both_faults D.Disk self.old.first self.old.second) (both_faults D.Disk self.new.first self.new.second))
            (self.new ≡ self.old)) }
        ensures leaves { LeavesBook D.Disk (Some (IndexCounted.Draw (self.old.maps.counter + 1))) self.old self.new }
        ensures durable { OnOk result (IsLastingBook D.Disk self.new) }
    {
        let _lasting = self.is_broken();
        let drawn = match self.begun(policy, name, resource) {
            Ok(drawn) => drawn,
            Err(fault) => return Err(fault),
        };
        let counter = self.counter() + 1;
        match self.change(alloc, IndexItem::Draw { counter }) {
            Ok(()) => Ok(drawn),
            Err(fault) => Err(fault),
        }
    }

    /// Adds a metric under an identifier that was drawn.
    pub fn add(&mut self, alloc: Global, doc: &MetricDoc) -> Result<(), ControlFault>
        requires whole { self.old.broken ≡ false }
        requires named { IsSome doc.now.resource → IsSome doc.now.name }
        ensures does { AddsTo doc.now self.old.maps (entry_by (Some (IndexCounted.Add doc.now)) result ∷ []) result }
        ensures state { IsAt self.new (state_by self.old.maps (entry_by (Some (IndexCounted.Add doc.now)) result)) }
        ensures cause { IfErr result (λ e. MatchDisk e
            (IsFault (both_faults D.Disk self.old.first self.old.second) (both_faults D.Disk self.new.first self.new.second))
            (self.new ≡ self.old)) }
        ensures leaves { LeavesBook D.Disk (Some (IndexCounted.Add doc.now)) self.old self.new }
        ensures durable { OnOk result (IsLastingBook D.Disk self.new) }
    {
        let _lasting = self.is_broken();
        match self.refuse_doc(doc) {
            Some(fault) => return Err(fault),
            None => {}
        }
        match item_of_doc(doc) {
            Ok(item) => self.change(alloc, item),
            Err(_) => Err(ControlFault::Memory),
        }
    }
}
