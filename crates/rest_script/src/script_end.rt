// How scripts end.

/// How a script ended.
#[derive(Clone, Copy, Debug, PartialEq, Eq)]
pub enum ScriptEnd {
    /// The input ended where a line did, or before a first one.
    Ended,
    /// A line is over 1,048,576 bytes.
    TooLong,
    /// The input ended inside a line.
    Cut,
    /// 2^40 bytes were taken.
    TooMuch,
    /// The source failed.
    ReadFault,
    /// The sink failed.
    WriteFault,
    /// There was no memory to read a line. Nothing was taken then.
    Memory,
}
