// What the records hold.
use archive_policy::{Kind, Name, Policy};
use gno_num::{List, Stamp};
use policy_rules::Rule;
use series_model::{Batch, Measure, MetricId};

/// A record of the incoming log.
#[derive(Debug, Drop)]
pub enum IncomingItem {
    /// A batch that was posted to a metric, under a number from 1 to 2^63 - 1.
    Post {
        number: u64,
        metric: MetricId,
        batch: Batch,
    },
    /// The number, from 1 to 2^63, that the next post gets at least.
    Next {
        number: u64,
    },
}

/// A stretch of the disk of blocks: the place of its first byte, and its length of at least 1.
#[derive(Clone, Copy, Debug, PartialEq, Eq)]
pub struct Block {
    pub at: u64,
    pub len: u32,
}

/// Where the split of a definition and kind with this key is from now on.
#[derive(Clone, Copy, Debug, PartialEq, Eq)]
pub struct Change {
    /// The definition's place in the policy, counted from 0.
    pub definition: u8,
    pub kind: Kind,
    pub key: Stamp,
    /// Where the split is stored; none where it is gone.
    pub block: Option<Block>,
}

/// What a metric's turn left.
#[derive(Debug, Drop)]
pub struct CommitItem {
    pub metric: MetricId,
    /// The number of the last post that was processed.
    pub done: u64,
    /// The greatest accepted timestamp.
    pub last: Option<Stamp>,
    /// The measure nearest before the window.
    pub anchor: Option<Measure>,
    /// Where the raw series is stored, in order.
    pub chunks: List<Block>,
    /// The splits that were stored or are gone, by rising definition, kind and key.
    pub changes: List<Change>,
}

/// A record of the shelf's log.
#[derive(Debug, Drop)]
pub enum ShelfItem {
    /// A metric is live from now on; the posts up to the number `done` don't count for it.
    Register {
        metric: MetricId,
        done: u64,
        policy: Policy,
    },
    /// A metric's turn.
    Commit(CommitItem),
    /// A metric is live no longer.
    Drop {
        metric: MetricId,
    },
}

/// A record of the index's log.
#[derive(Debug, Drop)]
pub enum IndexItem {
    /// The store's number, and the counter that was drawn last, 0 at first.
    Store {
        number: u32,
        counter: u64,
    },
    AddPolicy(Policy),
    DropPolicy(Name),
    AddRule(Rule),
    DropRule(Name),
    /// A counter from 1 to 2^56 - 1, drawn for an identifier.
    Draw {
        counter: u64,
    },
    /// A metric with the name of its policy; one with a resource has a name.
    AddMetric {
        id: MetricId,
        policy: Name,
        name: Option<Name>,
        unit: Option<Name>,
        resource: Option<u128>,
    },
    DropMetric(MetricId),
    AddResource(u128),
    DropResource(u128),
}
