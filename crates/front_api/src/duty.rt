// What a bench keeps of what it has done for workers.

/// How often a bench has refused or taken back work. Each number ends at its last value.
#[derive(Clone, Copy, Debug, PartialEq, Eq)]
pub struct Refusals {
    /// Commits of work whose claim wasn't held any more.
    pub stale: u64,
    /// Releases.
    pub starved: u64,
    /// Commits that ended by a fault of a disk, by damage, or for want of room for entries.
    pub faults: u64,
}

/// What the last claim on a sack gave.
#[derive(Clone, Copy, Debug, PartialEq, Eq)]
pub enum LastClaim {
    /// There was none.
    NoClaim,
    GaveJob,
    GaveNone,
}
