// Measures.
use gno_num::{Stamp, Value};

/// A value at a time.
#[derive(Clone, Copy, Debug, PartialEq, Eq)]
pub struct Measure {
    pub at: Stamp,
    pub value: Value,
}
