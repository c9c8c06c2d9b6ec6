// Why a post was refused.
use gno_num::{DiskFault, Spent};

/// Why a post was refused.
#[derive(Clone, Copy, Debug, PartialEq, Eq)]
pub enum PostFault {
    /// The next number is 2^63, which no post can have.
    Spent(Spent),
    /// There was no memory.
    Memory,
    /// A disk failed in this call.
    DiskFault(DiskFault),
}
