// Metrics that come and go.
ghost use Rattle.std.specs.Prelude.{◌≡◌, ◌-◌, ◌+◌, [], false, true};
ghost use Rattle.gate_log.specs.LogView.{MatchFault};
ghost use Rattle.split_update.specs.Live.{live_from_scratch};
ghost use Rattle.sack_history.specs.Failing.{create_failure, sack_failure};
ghost use Rattle.sack_history.specs.Scratch.{with_live, without_live};
ghost use Rattle.sack_state.specs.Books.{AreWhole};
ghost use Rattle.sack_state.specs.Changing.{ArePostsBelow, ChangesMetrics, IsValid};

use crate::books::Books;
use archive_policy::Policy;
use gno_disk::Disk;
use gno_num::DiskFault;
use log_pair::LogFault;
use sack_history::{CreateFault, SackFault};
use series_model::MetricId;
use std::alloc::Global;

/// A fault of a creating on books whose disks had failed so often before and after it.
fn creating_fault_of(fault: LogFault, before: u64, after: u64) -> CreateFault
    ensures { MatchFault fault (λ f. result ≡ CreateFault.DiskFault (record { before = before; after = after })) (result ≡ CreateFault.Memory) }
{
    match fault {
        LogFault::DiskFault(_) => CreateFault::DiskFault(DiskFault { before, after }),
        LogFault::Memory => CreateFault::Memory,
    }
}

/// A fault of a drop on books whose disks had failed so often before and after it.
fn dropping_fault_of(fault: LogFault, before: u64, after: u64) -> SackFault
    ensures { MatchFault fault (λ f. result ≡ SackFault.DiskFault (record { before = before; after = after })) (result ≡ SackFault.Memory) }
{
    match fault {
        LogFault::DiskFault(_) => SackFault::DiskFault(DiskFault { before, after }),
        LogFault::Memory => SackFault::Memory,
    }
}

impl<D: Disk> Books<D> {
    /// A metric that isn't live is live from now on. Its done number is that of the last post of any metric.
    pub fn create_metric(
        &mut self,
        alloc: Global,
        metric: MetricId,
        policy: &Policy,
    ) -> Result<(), CreateFault>
        requires { AreWhole self.old }
        ensures outcome { ChangesMetrics D.Disk metric false CreateFault.Exists create_failure
            (with_live (live_from_scratch metric policy.now (self.old.incoming.next - 1) [])) self.old self.new result }
        ensures incoming { self.new.incoming ≡ self.old.incoming }
        ensures place { self.new.shelf.place ≡ self.old.shelf.place }
        ensures posts { ArePostsBelow self.old.incoming }
        ensures valid { IsValid policy.now }
    {
        // The posts are below the next number, and a policy is a valid one: this says so.
        let next = self.incoming.next();
        let _name = policy.name();
        let _back_window = policy.back_window();
        let _definitions = policy.definitions();
        let _kinds = policy.kinds();
        if self.knows(metric) {
            return Err(CreateFault::Exists);
        }
        let before = self.faults();
        match self.shelf.register(alloc, metric, policy, next - 1) {
            Ok(()) => Ok(()),
            Err(fault) => Err(creating_fault_of(fault, before, self.faults())),
        }
    }

    /// A live metric is live no longer.
    pub fn drop_metric(&mut self, alloc: Global, metric: MetricId) -> Result<(), SackFault>
        requires { AreWhole self.old }
        ensures outcome { ChangesMetrics D.Disk metric true SackFault.Unknown sack_failure (without_live metric) self.old self.new result }
        ensures incoming { self.new.incoming ≡ self.old.incoming }
        ensures place { self.new.shelf.place ≡ self.old.shelf.place }
    {
        if !self.knows(metric) {
            return Err(SackFault::Unknown);
        }
        let before = self.faults();
        match self.shelf.drop_metric(alloc, metric) {
            Ok(()) => Ok(()),
            Err(fault) => Err(dropping_fault_of(fault, before, self.faults())),
        }
    }
}
