// Why a name or a policy isn't made.
use gno_num::{Memory, Span};
use std::alloc::AllocError;

/// Why a text is no name.
#[derive(Clone, Copy, Debug, PartialEq, Eq)]
pub enum NameFault {
    /// It has no byte, over 255 of them, or one that isn't from 0x20 to 0x7E or is `/`.
    BadName,
    /// There was no memory.
    Memory,
}

/// Why there is no policy of what is asked for, in the order in which faults are told.
#[derive(Clone, Copy, Debug, PartialEq, Eq)]
pub enum PolicyFault {
    /// The back window is over 1,000.
    BackWindow,
    /// There is no definition.
    NoDefinition,
    /// There are over 8 definitions.
    TooMany,
    /// Fewer than two of granularity, points and timespan are given.
    TooFew,
    /// The points, given or computed, are 0.
    ZeroPoints,
    /// A computed granularity isn't exact, or three given don't agree.
    SpanMismatch,
    /// A granularity is below a millisecond or over 30 days.
    GranularityRange,
    /// There are over 1,000,000 points, or they take over 9 * 10^18 nanoseconds.
    PointsRange,
    /// Two definitions have one granularity.
    SameGranularity,
    /// The coarsest granularity isn't a multiple of `fine`, the least such one.
    NotDividing { fine: Span, coarse: Span },
    /// There is no kind.
    NoAggregation,
    /// There was no memory.
    Memory,
}

impl From<AllocError> for NameFault {
    ghost use Rattle.std.specs.Prelude.{◌≡◌};
    ghost use Rattle.archive_policy.specs.declared.fault.NameFault.TheVariants as faults;

    ghost from_gives = { λ _ fault. fault ≡ faults.Memory };

    fn from(_: AllocError) -> Self {
        NameFault::Memory
    }
}

impl From<Memory> for PolicyFault {
    ghost use Rattle.std.specs.Prelude.{◌≡◌};
    ghost use Rattle.archive_policy.specs.declared.fault.PolicyFault.TheVariants as faults;

    ghost from_gives = { λ _ fault. fault ≡ faults.Memory };

    fn from(_: Memory) -> Self {
        PolicyFault::Memory
    }
}
