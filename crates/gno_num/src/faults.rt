// The answers that all crates share.
ghost use Rattle.std.specs.Prelude.{◌≡◌};

use std::alloc::{AllocError, AllocFailed};

/// There was no memory for a growth.
#[derive(Clone, Copy, Debug, PartialEq, Eq)]
pub struct Memory;

impl From<AllocError> for Memory {
    fn from(_: AllocError) -> Self {
        Memory
    }
}

impl<T: Drop> From<AllocFailed<T>> for Memory {
    fn from(_: AllocFailed<T>) -> Self {
        Memory
    }
}

/// The outside failed in this call.
#[derive(Clone, Copy, Debug, PartialEq, Eq)]
pub struct Failed;

/// A disk failed in this call: the count of its faults, before the call and after it.
#[derive(Clone, Copy, Debug, PartialEq, Eq)]
pub struct DiskFault {
    pub before: u64,
    pub after: u64,
}

/// Bytes that were read in this call are no spelling of a record or block.
#[derive(Clone, Copy, Debug, PartialEq, Eq)]
pub struct Damaged {
    /// The disk, counted from 0 in the order in which the disks were handed in.
    pub disk: u16,
    /// The place of the record or block.
    pub at: u64,
}

/// What can be used up.
#[derive(Clone, Copy, Debug, PartialEq, Eq)]
pub enum Counter {
    PostNumber,
    Ticket,
    Word,
    Epoch,
    IdCounter,
}

/// The call would draw from a counter that stands at its last value.
#[derive(Clone, Copy, Debug, PartialEq, Eq)]
pub struct Spent {
    pub counter: Counter,
    pub at: u64,
}
