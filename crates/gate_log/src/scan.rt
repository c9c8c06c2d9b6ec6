// Why the records of a log weren't found.
ghost use Rattle.std.specs.Prelude.{◌≡◌};

use gno_num::Failed as DiskFailed;
use std::alloc::{AllocError, AllocFailed};

/// Why the records weren't found.
#[derive(Clone, Copy, Debug, PartialEq, Eq)]
pub enum Stop {
    /// The disk failed.
    Failed,
    /// The bytes are cut short in the record whose gate stands at this place.
    CutShort(u64),
    /// There was no memory.
    NoMemory,
}

impl From<DiskFailed> for Stop {
    ghost use Rattle.gate_log.specs.declared.scan.Stop.TheVariants.{Failed};

    ghost from_gives = { λ _ e. e ≡ Failed };

    fn from(_: DiskFailed) -> Self {
        Stop::Failed
    }
}

impl From<AllocError> for Stop {
    ghost use Rattle.gate_log.specs.declared.scan.Stop.TheVariants.{NoMemory};

    ghost from_gives = { λ _ e. e ≡ NoMemory };

    fn from(_: AllocError) -> Self {
        Stop::NoMemory
    }
}

impl<T: Drop> From<AllocFailed<T>> for Stop {
    ghost use Rattle.gate_log.specs.declared.scan.Stop.TheVariants.{NoMemory};

    ghost from_gives = { λ _ e. e ≡ NoMemory };

    fn from(_: AllocFailed<T>) -> Self {
        Stop::NoMemory
    }
}
