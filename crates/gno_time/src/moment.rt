// A date with a time of day.

/// A time of a day, and how far its clock lies from UTC.
#[derive(Clone, Copy, Debug, PartialEq, Eq)]
pub(crate) struct Moment {
    /// The days since 1 January 1970.
    pub day: i64,
    /// The seconds of the day.
    pub clock: u64,
    /// The nanoseconds of the second.
    pub nanos: u64,
    /// Whether the clock is behind UTC.
    pub is_west: bool,
    /// By how many seconds.
    pub offset: u64,
}
