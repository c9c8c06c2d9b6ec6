// The counts of a disk in memory.
ghost use Rattle.std.specs.Prelude.{◌≡◌, ◌≤◌, ◌||◌, is_err, if◌then◌else◌};
ghost use Rattle.gno_disk.specs.Memory.{burnt, raised};

use gno_num::Failed;
use std::alloc::AllocError;

/// The number of the next call, how often a call has failed, and how often for want of memory.
/// Each stands still at its last value. Where there is a fuse, it is the number of writes, cuts and
/// syncs that are let pass; then every call fails.
#[derive(Debug, Drop)]
pub struct Counts {
    pub number: u64,
    pub faults: u64,
    pub starved: u64,
    pub fuse: Option<u64>,
}

impl Counts {
    /// Counts a call that was made, or that found no memory, and answers it.
    pub fn answer(&mut self, made: Result<(), AllocError>, failed: bool) -> Result<(), Failed>
        ensures failed { is_err result ≡ (is_err made || failed) }
        ensures number { self.new.number ≡ raised self.old.number }
        ensures faults { self.new.faults
            ≡ (if is_err result then raised self.old.faults else self.old.faults) }
        ensures starved { self.new.starved
            ≡ (if is_err made then raised self.old.starved else self.old.starved) }
        ensures later { self.old.faults ≤ self.new.faults }
        ensures starved_later { self.old.starved ≤ self.new.starved }
        ensures fuse { self.new.fuse ≡ self.old.fuse }
    {
        self.number = self.number.saturating_add(1);
        let starved = made.is_err();
        if starved {
            self.starved = self.starved.saturating_add(1);
        }
        if starved || failed {
            self.faults = self.faults.saturating_add(1);
            return Err(Failed);
        }
        Ok(())
    }

    /// The same for a call that uses the fuse.
    pub fn answer_change(
        &mut self,
        made: Result<(), AllocError>,
        failed: bool,
    ) -> Result<(), Failed>
        ensures failed { is_err result ≡ (is_err made || failed) }
        ensures number { self.new.number ≡ raised self.old.number }
        ensures faults { self.new.faults
            ≡ (if is_err result then raised self.old.faults else self.old.faults) }
        ensures starved { self.new.starved
            ≡ (if is_err made then raised self.old.starved else self.old.starved) }
        ensures later { self.old.faults ≤ self.new.faults }
        ensures starved_later { self.old.starved ≤ self.new.starved }
        ensures fuse { self.new.fuse
            ≡ (if is_err result then self.old.fuse else burnt self.old.fuse) }
    {
        self.answer(made, failed)?;
        if let Some(calls) = self.fuse {
            self.fuse = Some(calls.saturating_sub(1));
        }
        Ok(())
    }
}
