// How connections end.

/// How a connection ended.
#[derive(Clone, Copy, Debug, PartialEq, Eq)]
pub enum ConnEnd {
    /// The input ended before a first byte of a message.
    Ended,
    /// A message was answered that asked to close the connection.
    Closed,
    /// A message was refused by its head.
    Refused,
    /// The input ended inside a message.
    Cut,
    /// 2^40 bytes were taken.
    TooMuch,
    /// The source failed.
    ReadFault,
    /// The sink failed.
    WriteFault,
    /// There was no memory to read a message.
    Memory,
}
