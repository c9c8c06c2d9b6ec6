// Why a body isn't taken.
ghost use Rattle.std.specs.Prelude.{◌≡◌};
ghost use Rattle.control_docs.specs.declared.fault.ControlBodyFault.TheVariants.{Memory as No_Memory};
ghost use Rattle.control_docs.specs.Fault.{told_policy, told_span};

use archive_policy::PolicyFault;
use gno_time::SpanFault;
use std::alloc::{AllocError, AllocFailed};

/// Why a control body asks for nothing.
#[derive(Clone, Copy, Debug, PartialEq, Eq)]
pub enum ControlBodyFault {
    /// It is no JSON object, has a key that is given at no such place, lacks a member that is
    /// required, or has a value that isn't of its type and for which there is no other fault.
    BadBody,
    /// In a name's place stands no name.
    BadName,
    /// In a span's place stands neither a text of a span nor a whole number of seconds.
    BadSpan,
    /// A span is shorter than a millisecond or longer than 9,000,000,000 s.
    SpanRange,
    /// In the place of an aggregation method stands no name of one.
    BadAggregation,
    /// There is no such policy, for another cause than want of memory.
    Policy(PolicyFault),
    Memory,
}

impl From<AllocError> for ControlBodyFault {
    ghost from_gives = { λ _ fault. fault ≡ No_Memory };

    fn from(_: AllocError) -> ControlBodyFault {
        ControlBodyFault::Memory
    }
}

impl<T: Drop> From<AllocFailed<T>> for ControlBodyFault {
    ghost from_gives = { λ _ fault. fault ≡ No_Memory };

    fn from(_: AllocFailed<T>) -> ControlBodyFault {
        ControlBodyFault::Memory
    }
}

impl From<SpanFault> for ControlBodyFault {
    ghost from_gives = { λ fault told. told ≡ told_span fault };

    fn from(fault: SpanFault) -> ControlBodyFault {
        match fault {
            SpanFault::BadSpan => ControlBodyFault::BadSpan,
            SpanFault::SpanRange => ControlBodyFault::SpanRange,
        }
    }
}

impl From<PolicyFault> for ControlBodyFault {
    ghost from_gives = { λ fault told. told ≡ told_policy fault };

    fn from(fault: PolicyFault) -> ControlBodyFault {
        match fault {
            PolicyFault::Memory => ControlBodyFault::Memory,
            _ => ControlBodyFault::Policy(fault),
        }
    }
}
