// Why blocks weren't read.

/// Why blocks of a metric weren't read: the disk failed, bytes at a place are no block of it, or memory is
/// short.
#[derive(Clone, Copy, Debug, PartialEq, Eq)]
pub enum BlockFault {
    Failed,
    Damaged { at: u64 },
    Memory,
}
