// Why bytes could not be read.
ghost use Rattle.std.specs.Prelude.{◌≡◌};
ghost use Rattle.gno_codec.specs.declared.fault.ReadFault.TheVariants as faults;

use gno_num::Memory;
use std::alloc::{AllocError, AllocFailed};

/// Why a record could not be read.
#[derive(Clone, Copy, Debug, PartialEq, Eq)]
pub enum ReadFault {
    /// The bytes spell no record. `at` is the place, counted from 0, of the first field that is cut
    /// off by the end or is out of its range; or, where bytes follow a whole record, of the first
    /// of these.
    Bad { at: u64 },
    /// There was no memory for what was read.
    Memory,
}

impl From<AllocError> for ReadFault {
    ghost from_gives = { λ _ fault. fault ≡ faults.Memory };

    fn from(_: AllocError) -> Self {
        ReadFault::Memory
    }
}

impl<T: Drop> From<AllocFailed<T>> for ReadFault {
    ghost from_gives = { λ _ fault. fault ≡ faults.Memory };

    fn from(_: AllocFailed<T>) -> Self {
        ReadFault::Memory
    }
}

impl From<Memory> for ReadFault {
    ghost from_gives = { λ _ fault. fault ≡ faults.Memory };

    fn from(_: Memory) -> Self {
        ReadFault::Memory
    }
}
