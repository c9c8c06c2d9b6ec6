// The two books of a sack.
ghost use Rattle.std.specs.Prelude.{◌≡◌, ◌||◌, ◌+◌, ◌-◌, ◌^◌, min, IfOk, IfErr, false};
ghost use Rattle.gate_log.specs.LogView.{MatchFault, MatchMountFault};
ghost use Rattle.sack_state.specs.Disks.{sack_faults};
ghost use Rattle.sack_state.specs.Books.{AreLasting, AreMadeFrom, AreMountedFrom, AreWhole, IsUnmade, IsUnmounted, disks_of};

use crate::disks::SackDisks;
use gno_disk::Disk;
use gno_num::{Damaged, DiskFault};
use incoming::Incoming;
use log_pair::{LogFault, MountFault, Place};
use split_store::Shelf;
use std::alloc::Global;

/// The incoming log and the shelf of a sack.
#[derive(Drop)]
pub struct Books<D: Disk> {
    pub incoming: Incoming<D>,
    pub shelf: Shelf<D>,
}

/// A fault of mounting the incoming log, where the disks of the sack had failed so often before and after it.
fn on_incoming(fault: MountFault, before: u64, after: u64) -> MountFault
    ensures { MatchMountFault fault
        (λ f. result ≡ MountFault.DiskFault (record { before = before; after = after }))
        (λ d. result ≡ MountFault.Damaged d)
        (result ≡ MountFault.Memory) }
{
    match fault {
        MountFault::DiskFault(_) => MountFault::DiskFault(DiskFault { before, after }),
        MountFault::Damaged(damaged) => MountFault::Damaged(damaged),
        MountFault::Memory => MountFault::Memory,
    }
}

/// The same of mounting the shelf, whose disks are numbered from 2 on.
fn on_shelf(fault: MountFault, before: u64, after: u64) -> MountFault
    ensures { MatchMountFault fault
        (λ f. result ≡ MountFault.DiskFault (record { before = before; after = after }))
        (λ d. result ≡ MountFault.Damaged (record { disk = min (d.disk + 2) (2 ^ 16 - 1); at = d.at }))
        (result ≡ MountFault.Memory) }
{
    match fault {
        MountFault::DiskFault(_) => MountFault::DiskFault(DiskFault { before, after }),
        MountFault::Damaged(damaged) => MountFault::Damaged(Damaged {
            disk: damaged.disk.saturating_add(2),
            at: damaged.at,
        }),
        MountFault::Memory => MountFault::Memory,
    }
}

/// A fault of making a book, where the disks of the sack had failed so often before and after it.
fn of_making(fault: LogFault, before: u64, after: u64) -> LogFault
    ensures { MatchFault fault (λ f. result ≡ LogFault.DiskFault (record { before = before; after = after })) (result ≡ LogFault.Memory) }
{
    match fault {
        LogFault::DiskFault(_) => LogFault::DiskFault(DiskFault { before, after }),
        LogFault::Memory => LogFault::Memory,
    }
}

/// Makes an empty incoming log, and then an empty shelf. An `Err` hands the disks back.
pub fn make_books<D: Disk>(
    alloc: Global,
    disks: SackDisks<D>,
    place: Place,
) -> Result<Books<D>, (SackDisks<D>, LogFault)>
    ensures ok { IfOk result (AreMadeFrom D.Disk place disks) }
    ensures err { IfErr result (λ e. IsUnmade D.Disk place disks e.0 e.1) }
{
    let before = disks.faults();
    let SackDisks {
        incoming_a,
        incoming_b,
        shelf_a,
        shelf_b,
        blocks,
    } = disks;
    let incoming = match Incoming::create(alloc, incoming_a, incoming_b, place) {
        Ok(incoming) => incoming,
        Err((incoming_a, incoming_b, fault)) => {
            let disks = SackDisks {
                incoming_a,
                incoming_b,
                shelf_a,
                shelf_b,
                blocks,
            };
            let fault = of_making(fault, before, disks.faults());
            return Err((disks, fault));
        }
    };
    match Shelf::create(alloc, shelf_a, shelf_b, blocks, place) {
        Ok(shelf) => Ok(Books { incoming, shelf }),
        Err((shelf_a, shelf_b, blocks, fault)) => {
            let (incoming_a, incoming_b) = incoming.into_disks();
            let disks = SackDisks {
                incoming_a,
                incoming_b,
                shelf_a,
                shelf_b,
                blocks,
            };
            let fault = of_making(fault, before, disks.faults());
            Err((disks, fault))
        }
    }
}

/// Mounts the incoming log, and then the shelf. It writes nothing. An `Err` hands the disks back.
pub fn mount_books<D: Disk>(
    alloc: Global,
    disks: SackDisks<D>,
    place: Place,
) -> Result<Books<D>, (SackDisks<D>, MountFault)>
    ensures ok { IfOk result (AreMountedFrom D.Disk place disks) }
    ensures err { IfErr result (λ e. IsUnmounted D.Disk place disks e.0 e.1) }
{
    let before = disks.faults();
    let SackDisks {
        incoming_a,
        incoming_b,
        shelf_a,
        shelf_b,
        blocks,
    } = disks;
    let incoming = match Incoming::mount(alloc, incoming_a, incoming_b, place) {
        Ok(incoming) => incoming,
        Err((incoming_a, incoming_b, fault)) => {
            let disks = SackDisks {
                incoming_a,
                incoming_b,
                shelf_a,
                shelf_b,
                blocks,
            };
            let fault = on_incoming(fault, before, disks.faults());
            return Err((disks, fault));
        }
    };
    // What it knows of its posts is theirs: this says so.
    let _next = incoming.next();
    match Shelf::mount(alloc, shelf_a, shelf_b, blocks, place) {
        Ok(shelf) => Ok(Books { incoming, shelf }),
        Err((shelf_a, shelf_b, blocks, fault)) => {
            let (incoming_a, incoming_b) = incoming.into_disks();
            let disks = SackDisks {
                incoming_a,
                incoming_b,
                shelf_a,
                shelf_b,
                blocks,
            };
            let fault = on_shelf(fault, before, disks.faults());
            Err((disks, fault))
        }
    }
}

impl<D: Disk> Books<D> {
    /// How often the disks have failed, at most 2^64 - 1.
    pub fn faults(&self) -> u64
        ensures { result ≡ sack_faults D.Disk (disks_of self.now) }
    {
        self.incoming.faults().saturating_add(self.shelf.faults())
    }

    /// Whether a call on a book has failed, so that the disks are to be mounted again.
    pub fn is_broken(&self) -> bool
        ensures value { result ≡ self.now.incoming.broken || self.now.shelf.broken }
        ensures whole { result ≡ false → AreWhole self.now × AreLasting D.Disk self.now }
    {
        self.incoming.is_broken() || self.shelf.is_broken()
    }

    /// The disks.
    pub fn into_disks(self) -> SackDisks<D>
        ensures { result ≡ disks_of self }
    {
        let Books { incoming, shelf } = self;
        let (incoming_a, incoming_b) = incoming.into_disks();
        let (shelf_a, shelf_b, blocks) = shelf.into_disks();
        SackDisks {
            incoming_a,
            incoming_b,
            shelf_a,
            shelf_b,
            blocks,
        }
    }
}
