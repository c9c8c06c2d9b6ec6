// Why a call on a log was refused.
ghost use Rattle.std.specs.Prelude.{◌≡◌};
ghost use Rattle.gate_log.specs.declared.fault.LogFault.TheVariants.{Memory as NoMemory};

use gno_num::{Damaged, DiskFault};
use std::alloc::AllocError;

/// Why a call on a log was refused.
#[derive(Clone, Copy, Debug, PartialEq, Eq)]
pub enum LogFault {
    /// The disk failed in this call.
    DiskFault(DiskFault),
    /// There was no memory.
    Memory,
}

impl From<AllocError> for LogFault {
    ghost from_gives = { λ _ e. e ≡ NoMemory };

    fn from(_: AllocError) -> Self {
        LogFault::Memory
    }
}

/// Why a log wasn't mounted.
#[derive(Clone, Copy, Debug, PartialEq, Eq)]
pub enum MountFault {
    /// The disk failed in this call.
    DiskFault(DiskFault),
    /// An open gate has no whole record behind it, or no gate behind the record. The disk is 0, and
    /// the place is that of the gate. Bytes that end where a gate is due are damage there.
    Damaged(Damaged),
    /// There was no memory.
    Memory,
}
