// Why a store wasn't made or mounted, and how faults of its books are told.
ghost use Rattle.std.specs.Prelude.{◌≡◌};
ghost use Rattle.gate_log.specs.LogView.{MatchFault, MatchMountFault};
ghost use Rattle.gate_log.specs.declared.fault.LogFault.{LogFault as LogFaultView};
ghost use Rattle.front.specs.StoreFaults.{in_store, told_in_store, told_of_answering, told_of_committing, told_of_creating, told_of_releasing, told_of_sack};

use crate::bench::{Starved, starved_of};
use front_api::{BenchFault, FreeFault};
use gno_num::{Damaged, DiskFault};
use log_pair::{LogFault, MountFault};
use sack_history::{AnswerFault, CommitFault, CreateFault, ReleaseFault, SackFault};

/// Why a store wasn't made or mounted.
#[derive(Clone, Copy, Debug, PartialEq, Eq)]
pub enum StoreFault {
    /// There is a store: a disk of the index has a whole header behind an open gate.
    Exists,
    /// A disk failed in this call. The counts are those of all disks.
    DiskFault(DiskFault),
    /// Bytes that were read in this call are no record that may stand there. The disk is counted in the order of the plan.
    Damaged(Damaged),
    /// There was no memory.
    Memory,
}

/// Why a store wasn't made: there is one, or a book wasn't made, with its own fault.
#[derive(Clone, Copy, Debug)]
pub enum Unmade {
    Exists,
    Failed(LogFault),
}

/// The same, where the disks of the store had failed so often before and after.
pub fn of_making(unmade: Unmade, before: u64, after: u64) -> StoreFault
    ensures exists { unmade ≡ Unmade.Exists → result ≡ StoreFault.Exists }
    ensures failed { (fault : LogFaultView) → unmade ≡ Unmade.Failed fault → MatchFault fault (λ f. result ≡ StoreFault.DiskFault (record { before = before; after = after })) (result ≡ StoreFault.Memory) }
{
    match unmade {
        Unmade::Exists => StoreFault::Exists,
        Unmade::Failed(LogFault::DiskFault(_)) => {
            StoreFault::DiskFault(DiskFault { before, after })
        }
        Unmade::Failed(LogFault::Memory) => StoreFault::Memory,
    }
}

/// The same of mounting one.
pub fn of_mounting(fault: MountFault, before: u64, after: u64) -> StoreFault
    ensures { MatchMountFault fault
        (λ f. result ≡ StoreFault.DiskFault (record { before = before; after = after }))
        (λ d. result ≡ StoreFault.Damaged d)
        (result ≡ StoreFault.Memory) }
{
    match fault {
        MountFault::DiskFault(_) => StoreFault::DiskFault(DiskFault { before, after }),
        MountFault::Damaged(damaged) => StoreFault::Damaged(damaged),
        MountFault::Memory => StoreFault::Memory,
    }
}

/// Damage of a sack, on the disks of the store.
pub fn in_store(sack: u16, damaged: Damaged) -> Damaged
    ensures { result ≡ in_store sack damaged }
{
    Damaged {
        disk: sack
            .saturating_mul(5)
            .saturating_add(2)
            .saturating_add(damaged.disk),
        at: damaged.at,
    }
}

/// A fault of mounting a sack, on the disks of the store.
pub fn told_in_store(sack: u16, fault: MountFault) -> MountFault
    ensures { result ≡ told_in_store sack fault }
{
    match fault {
        MountFault::DiskFault(fault) => MountFault::DiskFault(fault),
        MountFault::Damaged(damaged) => MountFault::Damaged(in_store(sack, damaged)),
        MountFault::Memory => MountFault::Memory,
    }
}

/// A refusal of a sack, as the store tells it.
pub fn told_of_sack(sack: u16, fault: SackFault) -> SackFault
    ensures { result ≡ told_of_sack sack fault }
{
    match fault {
        SackFault::Damaged(damaged) => SackFault::Damaged(in_store(sack, damaged)),
        other => other,
    }
}

/// The same where it creates a metric.
pub fn told_of_creating(sack: u16, fault: CreateFault) -> CreateFault
    ensures { result ≡ told_of_creating sack fault }
{
    match fault {
        CreateFault::Damaged(damaged) => CreateFault::Damaged(in_store(sack, damaged)),
        other => other,
    }
}

/// The same where a query is answered.
pub fn told_of_answering(sack: u16, fault: AnswerFault) -> AnswerFault
    ensures { result ≡ told_of_answering sack fault }
{
    match fault {
        AnswerFault::Damaged(damaged) => AnswerFault::Damaged(in_store(sack, damaged)),
        other => other,
    }
}

/// The same where prepared work isn't committed. For the work that a sack hands back stands its ticket.
pub fn told_of_committing(sack: u16, fault: CommitFault) -> BenchFault<Starved>
    ensures { result ≡ told_of_committing sack fault }
{
    match fault {
        CommitFault::NotHolder { given, holder } => BenchFault::Stale { given, holder },
        CommitFault::Differs(prepared) => BenchFault::Differs(starved_of(prepared.job())),
        CommitFault::DiskFault(fault) => BenchFault::DiskFault(fault),
        CommitFault::Damaged(damaged) => BenchFault::Damaged(in_store(sack, damaged)),
        CommitFault::Memory(prepared) => BenchFault::Memory(starved_of(prepared.job())),
    }
}

/// The same where a claim is given back.
pub fn told_of_releasing(fault: ReleaseFault) -> FreeFault
    ensures { result ≡ told_of_releasing fault }
{
    match fault {
        ReleaseFault::NotHolder { given, holder } => FreeFault::Stale { given, holder },
    }
}
