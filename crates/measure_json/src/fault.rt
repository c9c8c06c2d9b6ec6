// What is wrong with a body, and where.
ghost use Rattle.std.specs.Prelude.{◌≡◌, ◌-◌, length};
ghost use Rattle.measure_json.specs.declared.fault.ReadError.TheVariants.{Memory, Fault as A_Fault};
ghost use Rattle.measure_json.specs.Fault.{fault_at, Places, IsWithin};

use gno_num::NumFault;
use gno_time::TimeFault;
use std::alloc::{AllocError, AllocFailed};

/// What is wrong with a body of measures.
#[derive(Clone, Copy, Debug, PartialEq, Eq)]
pub enum JsonKind {
    /// The byte continues no JSON text of this shape, or the body ends too early.
    Syntax,
    /// The value is of another type, the key is another one or stands there again, or the object
    /// ends without one of its two members.
    NotMeasure,
    /// The key is no identifier.
    BadId,
    /// The value of a `timestamp` is no stamp.
    Time(TimeFault),
    /// The value of a `value` is none.
    Number(NumFault),
    /// The measure is the 50,001st of its list.
    TooMany,
}

/// Why nothing was read.
#[derive(Clone, Copy, Debug, PartialEq, Eq)]
pub enum BodyFault {
    /// The first fault of the body from the left, with its place.
    Json { at: u64, kind: JsonKind },
    Memory,
}

// A fault, and how many bytes there are from its place to the end.
#[derive(Clone, Copy, Debug, PartialEq, Eq)]
pub struct Fault {
    pub left: usize,
    pub kind: JsonKind,
}

// Why a reader gives nothing.
#[derive(Debug, Drop)]
pub enum ReadError {
    Memory,
    Fault(Fault),
}

impl From<AllocError> for ReadError {
    ghost from_gives = { λ _ e. e ≡ Memory };

    fn from(_: AllocError) -> ReadError {
        ReadError::Memory
    }
}

impl<T: Drop> From<AllocFailed<T>> for ReadError {
    ghost from_gives = { λ _ e. e ≡ Memory };

    fn from(_: AllocFailed<T>) -> ReadError {
        ReadError::Memory
    }
}

// The fault at the first byte of what is left.
pub fn fault_at(kind: JsonKind, text: &[u8]) -> ReadError
    ensures { result ≡ A_Fault (fault_at kind text.now) }
{
    ReadError::Fault(Fault {
        left: text.len(),
        kind,
    })
}

pub fn syntax(text: &[u8]) -> ReadError
    ensures { result ≡ A_Fault (fault_at JsonKind.Syntax text.now) }
{
    fault_at(JsonKind::Syntax, text)
}

// The fault of a body, at its place from the left.
pub fn body_fault(error: ReadError, body: &[u8]) -> BodyFault
    ensures fault { Places body.now error result }
    ensures within { IsWithin body.now result }
{
    match error {
        ReadError::Memory => BodyFault::Memory,
        ReadError::Fault(fault) => BodyFault::Json {
            at: body.len().saturating_sub(fault.left) as u64,
            kind: fault.kind,
        },
    }
}
