// Queries.
use archive_policy::Kind;
use gno_num::{Span, Stamp};

/// What is asked of a metric: the buckets from the one of `start` on that begin before `stop`, of
/// one granularity or of each that is kept. `kind` is none where the name that was asked is no kind.
#[derive(Clone, Copy, Debug, PartialEq, Eq)]
pub struct Query {
    pub start: Option<Stamp>,
    pub stop: Option<Stamp>,
    pub kind: Option<Kind>,
    pub granularity: Option<Span>,
}
