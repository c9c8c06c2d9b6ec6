// What a policy keeps.
use gno_num::Span;

/// A granularity, and how many of its points are kept.
#[derive(Clone, Copy, Debug, PartialEq, Eq)]
pub struct Definition {
    pub granularity: Span,
    pub points: u32,
}
