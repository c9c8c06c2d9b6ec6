// The history of the index.
use crate::{Command, MetricDoc};

/// What counts in the index's history.
#[derive(Debug, Drop)]
pub enum IndexCounted {
    /// A command that was accepted and changed a key.
    Command(Command),
    /// An identifier was drawn, with this counter.
    Draw { counter: u64 },
    /// A metric was added, under an identifier that was drawn.
    Add(MetricDoc),
}

/// What a call adds to the index's history.
#[derive(Debug, Drop)]
pub enum IndexEntry {
    Counted(IndexCounted),
    /// A call that changed nothing.
    Look,
    /// A call that failed, with what it was writing, and the count of faults of the disks before and after.
    Fault {
        tried: Option<IndexCounted>,
        before: u64,
        after: u64,
    },
    /// The index was mounted again: whether it was found to have what was tried.
    Reopened {
        kept: bool,
    },
}
