//! The messages of a connection: heads and bodies of requests (RFC 9112), read from a source that
//! gives its bytes in any pieces.
#![tactic(auto)]

mod body;
mod conn;
mod fields;
mod framing;
mod head;
mod laws;
mod window;

pub use conn::Conn;
pub use head::{Head, HeadEnd};
pub use laws::{front_first, one_answer};

#[cfg(test)]
mod tests;
