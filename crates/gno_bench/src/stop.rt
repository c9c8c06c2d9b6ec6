// Why a part gave nothing.
use gno_num::Memory;
use std::alloc::{AllocError, AllocFailed};

/// Why a part gave nothing.
#[derive(Clone, Copy, Debug, PartialEq, Eq)]
pub enum Stop {
    /// There was no memory.
    Memory,
    /// The clock wasn't read.
    Clock,
    /// What the part made wasn't read back.
    Refused,
    /// The folder or a file in it failed.
    Disk,
}

impl Stop {
    /// The text that standard error shows.
    pub fn text(self) -> &'static str {
        match self {
            Stop::Memory => "memory",
            Stop::Clock => "clock",
            Stop::Refused => "refused",
            Stop::Disk => "disk",
        }
    }
}

impl From<Memory> for Stop {
    fn from(_: Memory) -> Self {
        Stop::Memory
    }
}

impl From<AllocError> for Stop {
    fn from(_: AllocError) -> Self {
        Stop::Memory
    }
}

impl<T: Drop> From<AllocFailed<T>> for Stop {
    fn from(_: AllocFailed<T>) -> Self {
        Stop::Memory
    }
}
