// The entries of a history.
ghost use Rattle.std.specs.Prelude.{◌≡◌, IfOk};

use archive_policy::Policy;
use gno_num::Memory;
use series_model::{Batch, MetricId, Ticket};

/// What counts of a history: what changes the book for good.
#[derive(Debug, Drop)]
pub enum Counted {
    /// A metric is live from now on. It starts empty.
    Create {
        metric: MetricId,
        policy: Policy,
    },
    /// A batch was posted to a metric, under the next number.
    Post {
        number: u64,
        metric: MetricId,
        measures: Batch,
    },
    /// A metric's posts up to this number are processed.
    Done {
        metric: MetricId,
        upto: u64,
    },
    /// A metric is live no longer.
    Drop {
        metric: MetricId,
    },
}

impl Counted {
    /// An equal entry.
    pub fn copy(&self) -> Result<Counted, Memory>
        ensures { IfOk result (λ copy. copy ≡ self.now) }
    {
        match self {
            Counted::Create { metric, policy } => Ok(Counted::Create {
                metric: *metric,
                policy: policy.copy()?,
            }),
            Counted::Post {
                number,
                metric,
                measures,
            } => Ok(Counted::Post {
                number: *number,
                metric: *metric,
                measures: measures.copy()?,
            }),
            Counted::Done { metric, upto } => Ok(Counted::Done {
                metric: *metric,
                upto: *upto,
            }),
            Counted::Drop { metric } => Ok(Counted::Drop { metric: *metric }),
        }
    }
}

/// What a call has added to the history of a book.
#[derive(Debug, Drop)]
pub enum Entry {
    /// What counts.
    Counted(Counted),
    /// A worker holds a metric's posts up to this number under a ticket.
    Claim {
        ticket: Ticket,
        metric: MetricId,
        upto: u64,
    },
    /// A worker gave its claim back.
    Release {
        ticket: Ticket,
    },
    /// A call that changed nothing.
    Look {
        metric: Option<MetricId>,
    },
    /// A call that failed, with what its first write had begun to add, if any, and the count of faults of
    /// the book's disks before it and after it. The book is broken from now on.
    Fault {
        tried: Option<Counted>,
        before: u64,
        after: u64,
    },
    /// The book was mounted again: whether it was found to have what was tried.
    Reopened {
        kept: bool,
    },
}
