// What the calls on a sack answer.
use bound_series::{Job, Prepared};
use gno_num::{Damaged, DiskFault, Spent};
use series_model::Ticket;

/// Why a call on a sack was refused.
#[derive(Clone, Copy, Debug, PartialEq, Eq)]
pub enum SackFault {
    /// The metric isn't live.
    Unknown,
    /// A counter stands at its last value.
    Spent(Spent),
    DiskFault(DiskFault),
    Damaged(Damaged),
    Memory,
}

/// Why a metric wasn't created.
#[derive(Clone, Copy, Debug, PartialEq, Eq)]
pub enum CreateFault {
    /// The metric is live.
    Exists,
    Spent(Spent),
    DiskFault(DiskFault),
    Damaged(Damaged),
    Memory,
}

/// What a claim gives.
#[derive(Debug, Drop)]
pub enum Claim {
    /// A claim is held, under this ticket.
    Held { ticket: Ticket },
    /// No live metric has a post that waits.
    Nothing,
    /// Work on the metric whose post has waited longest.
    Job(Job),
}

/// Why prepared work wasn't committed. What may be tried again is handed back.
#[derive(Debug, Drop)]
pub enum CommitFault {
    /// The held claim has another ticket, or none is held.
    NotHolder {
        given: Ticket,
        holder: Option<Ticket>,
    },
    /// The work isn't that of the held claim.
    Differs(Prepared),
    DiskFault(DiskFault),
    Damaged(Damaged),
    Memory(Prepared),
}

/// Why a claim wasn't released.
#[derive(Clone, Copy, Debug, PartialEq, Eq)]
pub enum ReleaseFault {
    /// The held claim has another ticket, or none is held.
    NotHolder {
        given: Ticket,
        holder: Option<Ticket>,
    },
}

/// Why a query wasn't answered.
#[derive(Clone, Copy, Debug, PartialEq, Eq)]
pub enum AnswerFault {
    /// The metric isn't live.
    Unknown,
    /// The metric's policy doesn't have the kind that was asked for.
    NoAggregation,
    /// The metric's policy doesn't have the granularity that was asked for.
    NoGranularity,
    /// A counter stands at its last value.
    Spent(Spent),
    DiskFault(DiskFault),
    Damaged(Damaged),
    Memory,
}
