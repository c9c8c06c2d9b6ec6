// Stores that are made or found.
ghost use Rattle.std.specs.Prelude.{◌≡◌, ◌≤◌, IfOk, IfErr, length};
ghost use Rattle.front.specs.Plan.{disk_count};
ghost use Rattle.gnocchi_run.specs.Opened.{IsFoundStore, IsMadeStore, OpensStore, IsUnfoundStore, IsUnmadeStore, OpensNoStore};

use crate::task::Start;
use front::{Solo, StoreFault};
use gno_disk::Disk;
use std::alloc::Global;

/// Makes an empty store.
pub(crate) fn make<D: Disk>(
    alloc: Global,
    disks: Vec<D>,
    sacks: u16,
    number: u32,
) -> Result<Solo<D>, (Vec<D>, StoreFault)>
    requires some { 1 ≤ sacks }
    requires few { sacks ≤ 64 }
    requires planned { length disks.items ≡ disk_count sacks }
    ensures made { IfOk result (IsMadeStore D.Disk sacks number disks.items) }
    ensures sacks { IfOk result (λ solo. solo.made.sacks ≡ sacks) }
    ensures unmade { IfErr result (λ e. IsUnmadeStore D.Disk sacks number e.1 disks.items e.0.items) }
    ensures kept { IfErr result (λ e. length e.0.items ≡ length disks.items) }
{
    match Solo::create(alloc, disks, sacks, number) {
        Ok(solo) => Ok(solo),
        Err((disks, fault)) => Err((disks, fault)),
    }
}

/// Finds the store that the disks have.
pub(crate) fn find<D: Disk>(
    alloc: Global,
    disks: Vec<D>,
    sacks: u16,
) -> Result<Solo<D>, (Vec<D>, StoreFault)>
    requires some { 1 ≤ sacks }
    requires few { sacks ≤ 64 }
    requires planned { length disks.items ≡ disk_count sacks }
    ensures found { IfOk result (IsFoundStore D.Disk sacks disks.items) }
    ensures sacks { IfOk result (λ solo. solo.made.sacks ≡ sacks) }
    ensures unfound { IfErr result (λ e. IsUnfoundStore D.Disk sacks e.1 disks.items e.0.items) }
    ensures kept { IfErr result (λ e. length e.0.items ≡ length disks.items) }
{
    match Solo::mount(alloc, disks, sacks) {
        Ok(solo) => Ok(solo),
        Err((disks, fault)) => Err((disks, fault)),
    }
}

/// Opens the store over which is answered.
pub(crate) fn open<D: Disk>(
    alloc: Global,
    disks: Vec<D>,
    start: Start,
    sacks: u16,
) -> Result<Solo<D>, (Vec<D>, StoreFault)>
    requires some { 1 ≤ sacks }
    requires few { sacks ≤ 64 }
    requires planned { length disks.items ≡ disk_count sacks }
    ensures opened { IfOk result (OpensStore D.Disk start sacks disks.items) }
    ensures sacks { IfOk result (λ solo. solo.made.sacks ≡ sacks) }
    ensures unopened { IfErr result (λ e. OpensNoStore D.Disk start sacks e.1 disks.items e.0.items) }
    ensures kept { IfErr result (λ e. length e.0.items ≡ length disks.items) }
{
    match start {
        Start::New { number } => match make(alloc, disks, sacks, number) {
            Ok(solo) => Ok(solo),
            Err((disks, fault)) => Err((disks, fault)),
        },
        Start::Found => match find(alloc, disks, sacks) {
            Ok(solo) => Ok(solo),
            Err((disks, fault)) => Err((disks, fault)),
        },
    }
}
