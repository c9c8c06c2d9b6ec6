// Making a store.
ghost use Rattle.std.specs.Prelude.{◌≡◌, ◌≢◌, ◌≤◌, length};
ghost use Rattle.gno_num.specs.Faults.{Rose};
ghost use Rattle.front.specs.Plan.{disk_count};
ghost use Rattle.gnocchi_run.specs.Doing.{CreatesStore};
ghost use Rattle.gnocchi_run.specs.Opened.{faults_of_disks};

use crate::ending::{status_of_store, tell};
use crate::opening::make;
use command_line::Status;
use gno_disk::Disk;
use gno_io::Sink;
use std::alloc::Global;

/// Makes an empty store, and tells it.
pub(crate) fn create<K: Sink, D: Disk>(
    alloc: Global,
    disks: Vec<D>,
    sacks: u16,
    number: u32,
    sink: &mut K,
) -> (Vec<D>, Status)
    requires some { 1 ≤ sacks }
    requires few { sacks ≤ 64 }
    requires planned { length disks.items ≡ disk_count sacks }
    ensures creates { CreatesStore D.Disk sacks number disks.items result.0.items (K.taken sink.old) (K.taken sink.new) result.1 }
    ensures kept { length result.0.items ≡ length disks.items }
    ensures used { result.1 ≢ Status.Usage }
    ensures unread { result.1 ≢ Status.Read }
    ensures write_cause { result.1 ≡ Status.Write → Rose (K.faults sink.old) (K.faults sink.new) }
{
    match make(alloc, disks, sacks, number) {
        Ok(solo) => (solo.into_disks(), tell(sink, b"created\n")),
        Err((disks, fault)) => (disks, status_of_store(fault)),
    }
}
