// What is told of a request's head, and why there is none.
use std::alloc::AllocError;

/// The head of a request.
#[derive(Debug, Drop)]
pub struct Head {
    pub method: Vec<u8>,
    pub target: Vec<u8>,
    /// How many bytes the body has.
    pub length: u64,
    /// Whether the connection closes after the response.
    pub close: bool,
    /// Whether the client waits for `100 Continue` before it sends the body.
    pub wants_continue: bool,
}

/// Why there is no head, or no body.
#[derive(Clone, Copy, Debug, PartialEq, Eq)]
pub enum HeadEnd {
    /// The input ended before a first byte.
    End,
    /// The input ended inside a head or a body.
    Cut,
    /// No head begins so, or its `Host` or `Content-Length` is wrong.
    BadHead,
    /// The head is over 16,384 bytes.
    HeadTooLarge,
    /// There is a `Transfer-Encoding`.
    Coding,
    /// A `POST` has no `Content-Length`.
    NoLength,
    /// The body is over 4,194,304 bytes.
    BodyTooLarge,
    /// 2^40 bytes were taken.
    TooMuch,
    /// The source failed.
    ReadFault,
    /// There was no memory.
    Memory,
}

impl From<AllocError> for HeadEnd {
    ghost use Rattle.std.specs.Prelude.{◌≡◌};
    ghost use Rattle.http_conn.specs.declared.head.HeadEnd.TheVariants as ends;

    ghost from_gives = { λ _ end. end ≡ ends.Memory };

    fn from(_: AllocError) -> Self {
        HeadEnd::Memory
    }
}
