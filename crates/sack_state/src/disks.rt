// The disks of a sack.
ghost use Rattle.std.specs.Prelude.{◌≡◌};
ghost use Rattle.sack_state.specs.Disks.{sack_faults};

use gno_disk::Disk;

/// The disks of a sack. They count as its disks 0 to 4 in this order.
#[derive(Drop)]
pub struct SackDisks<D> {
    pub incoming_a: D,
    pub incoming_b: D,
    pub shelf_a: D,
    pub shelf_b: D,
    pub blocks: D,
}

/// How a sack was opened: whether it was made then, and its disks as they were handed in.
#[derive(Drop)]
pub struct Opening<D> {
    pub disks: SackDisks<D>,
    pub is_new: bool,
}

impl<D: Disk> SackDisks<D> {
    /// How often the disks have failed, at most 2^64 - 1.
    pub fn faults(&self) -> u64
        ensures { result ≡ sack_faults D.Disk self.now }
    {
        self.incoming_a
            .faults()
            .saturating_add(self.incoming_b.faults())
            .saturating_add(self.shelf_a.faults())
            .saturating_add(self.shelf_b.faults())
            .saturating_add(self.blocks.faults())
    }
}
