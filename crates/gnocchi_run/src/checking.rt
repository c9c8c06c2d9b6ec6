// Counting what a store has.
ghost use Rattle.std.specs.Prelude.{◌≡◌, ◌≢◌, ◌≤◌, IfOk, length, string_bytes};
ghost use Rattle.gno_num.specs.Faults.{Rose};
ghost use Rattle.front.specs.Plan.{disk_count};
ghost use Rattle.gnocchi_run.specs.Doing.{ChecksStore, TellsCounts, counts_text};

use crate::ending::{status_of_store, tell};
use crate::opening::find;
use command_line::Status;
use front::Counts;
use gno_disk::Disk;
use gno_io::Sink;
use std::alloc::{AllocError, Global};

/// Counts the metrics of the store that the disks have, and the posts that wait, and tells them.
pub(crate) fn check<K: Sink, D: Disk>(
    alloc: Global,
    disks: Vec<D>,
    sacks: u16,
    sink: &mut K,
) -> (Vec<D>, Status)
    requires some { 1 ≤ sacks }
    requires few { sacks ≤ 64 }
    requires planned { length disks.items ≡ disk_count sacks }
    ensures checks { ChecksStore D.Disk sacks disks.items result.0.items (K.taken sink.old) (K.taken sink.new) result.1 }
    ensures kept { length result.0.items ≡ length disks.items }
    ensures used { result.1 ≢ Status.Usage }
    ensures unread { result.1 ≢ Status.Read }
    ensures write_cause { result.1 ≡ Status.Write → Rose (K.faults sink.old) (K.faults sink.new) }
{
    match find(alloc, disks, sacks) {
        Ok(solo) => {
            let status = tell_counts(alloc, sacks, solo.counts(), sink);
            (solo.into_disks(), status)
        }
        Err((disks, fault)) => (disks, status_of_store(fault)),
    }
}

/// Tells how many sacks, metrics and waiting posts there are.
fn tell_counts<K: Sink>(alloc: Global, sacks: u16, counts: Counts, sink: &mut K) -> Status
    ensures tells { TellsCounts sacks counts (K.taken sink.old) (K.taken sink.new) result }
    ensures used { result ≢ Status.Usage }
    ensures unread { result ≢ Status.Read }
    ensures write_cause { result ≡ Status.Write → Rose (K.faults sink.old) (K.faults sink.new) }
{
    match counts_line(alloc, sacks, counts) {
        Ok(line) => tell(sink, line.as_bytes()),
        Err(_) => Status::Memory,
    }
}

/// The line that tells them.
#[tactic(auto, using(std::proofs::Common::append_assoc))]
fn counts_line(alloc: Global, sacks: u16, counts: Counts) -> Result<String, AllocError>
    ensures { IfOk result (λ line. string_bytes line ≡ counts_text sacks counts) }
{
    let metrics = counts.metrics;
    let pending = counts.pending;
    let mut line = format!(in alloc; "sacks {sacks}")?;
    let live = format!(in alloc; " metrics {metrics}")?;
    let waiting = format!(in alloc; " pending {pending}\n")?;
    line.push_str(&live)?;
    line.push_str(&waiting)?;
    Ok(line)
}
