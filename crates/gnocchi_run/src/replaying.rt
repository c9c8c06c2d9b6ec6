// Scripts and connections over a store.
ghost use Rattle.std.specs.Prelude.{◌≡◌, ◌≢◌, ◌^◌, ◌<◌, ◌≤◌, ℕ, List, Some, length};
ghost use Rattle.gno_num.specs.Faults.{Rose};
ghost use Rattle.front.specs.Plan.{disk_count};
ghost use Rattle.front.specs.SoloView.{StandsForBooks};
ghost use Rattle.rest_script.specs.Lines.{AreLines, AreUnfinished};
ghost use Rattle.gnocchi_run.specs.Ending.{IsOrStarved, IsUnfaulted};
ghost use Rattle.gnocchi_run.specs.Doing.{AnswersConnection, AnswersScript, RunsOver};

use crate::ending::{status_of_connection, status_of_script, status_of_store};
use crate::opening::open;
use crate::task::Start;
use command_line::Status;
use front_api::Front;
use gno_disk::Disk;
use gno_io::{Sink, Source};
use rest_api::{Api, serve_stream};
use rest_script::{serve_script, whole_scripts_are_answered};
use std::alloc::Global;

/// Answers the lines of a source over a front.
fn answer_script<F: Front, S: Source, K: Sink>(
    front: &mut F,
    alloc: Global,
    source: &mut S,
    sink: &mut K,
) -> Status
    ensures answers { AnswersScript F.stands front.old front.new (S.left source.old) (S.left source.new)
        (K.taken sink.old) (K.taken sink.new) result }
    ensures complete { (input : List ℕ) (lines : List (List ℕ)) → S.left source.old ≡ Some input → AreLines input lines → length input < 2 ^ 40
        → IsUnfaulted result → IsOrStarved result Status.Done }
    ensures refused { (input : List ℕ) (lines : List (List ℕ)) → S.left source.old ≡ Some input → AreUnfinished input lines → length input < 2 ^ 40
        → IsUnfaulted result → IsOrStarved result Status.Input }
    ensures same { F.made front.new ≡ F.made front.old }
    ensures used { result ≢ Status.Usage }
    ensures read_cause { result ≡ Status.Read → Rose (S.faults source.old) (S.faults source.new) }
    ensures write_cause { result ≡ Status.Write → Rose (K.faults sink.old) (K.faults sink.new) }
{
    let Ok(api) = Api::new(alloc) else {
        return Status::Memory;
    };
    whole_scripts_are_answered::<F>();
    status_of_script(serve_script(&api, front, alloc, source, sink))
}

/// Serves the bytes of a source over a front, as those of one connection.
fn answer_connection<F: Front, S: Source, K: Sink>(
    front: &mut F,
    alloc: Global,
    source: &mut S,
    sink: &mut K,
) -> Status
    ensures answers { AnswersConnection F.stands front.old front.new (S.left source.old) (S.left source.new)
        (K.taken sink.old) (K.taken sink.new) result }
    ensures same { F.made front.new ≡ F.made front.old }
    ensures used { result ≢ Status.Usage }
    ensures read_cause { result ≡ Status.Read → Rose (S.faults source.old) (S.faults source.new) }
    ensures write_cause { result ≡ Status.Write → Rose (K.faults sink.old) (K.faults sink.new) }
{
    let Ok(api) = Api::new(alloc) else {
        return Status::Memory;
    };
    status_of_connection(serve_stream(&api, front, alloc, source, sink))
}

/// Answers the lines of a source over the store of the disks.
pub(crate) fn replay<S: Source, K: Sink, D: Disk>(
    alloc: Global,
    disks: Vec<D>,
    start: Start,
    sacks: u16,
    source: &mut S,
    sink: &mut K,
) -> (Vec<D>, Status)
    requires some { 1 ≤ sacks }
    requires few { sacks ≤ 64 }
    requires planned { length disks.items ≡ disk_count sacks }
    ensures runs { RunsOver D.Disk start sacks (AnswersScript (StandsForBooks D.Disk)) disks.items result.0.items
        (S.left source.old) (S.left source.new) (K.taken sink.old) (K.taken sink.new) result.1 }
    ensures complete { (input : List ℕ) (lines : List (List ℕ)) → S.left source.old ≡ Some input → AreLines input lines → length input < 2 ^ 40
        → IsUnfaulted result.1 → IsOrStarved result.1 Status.Done }
    ensures refused { (input : List ℕ) (lines : List (List ℕ)) → S.left source.old ≡ Some input → AreUnfinished input lines → length input < 2 ^ 40
        → IsUnfaulted result.1 → IsOrStarved result.1 Status.Input }
    ensures kept { length result.0.items ≡ length disks.items }
    ensures used { result.1 ≢ Status.Usage }
    ensures read_cause { result.1 ≡ Status.Read → Rose (S.faults source.old) (S.faults source.new) }
    ensures write_cause { result.1 ≡ Status.Write → Rose (K.faults sink.old) (K.faults sink.new) }
{
    match open(alloc, disks, start, sacks) {
        Ok(solo) => {
            let mut front = solo;
            let status = answer_script(&mut front, alloc, source, sink);
            (front.into_disks(), status)
        }
        Err((disks, fault)) => (disks, status_of_store(fault)),
    }
}

/// Serves the bytes of a source over the store of the disks, as those of one connection.
pub(crate) fn replay_http<S: Source, K: Sink, D: Disk>(
    alloc: Global,
    disks: Vec<D>,
    start: Start,
    sacks: u16,
    source: &mut S,
    sink: &mut K,
) -> (Vec<D>, Status)
    requires some { 1 ≤ sacks }
    requires few { sacks ≤ 64 }
    requires planned { length disks.items ≡ disk_count sacks }
    ensures runs { RunsOver D.Disk start sacks (AnswersConnection (StandsForBooks D.Disk)) disks.items result.0.items
        (S.left source.old) (S.left source.new) (K.taken sink.old) (K.taken sink.new) result.1 }
    ensures kept { length result.0.items ≡ length disks.items }
    ensures used { result.1 ≢ Status.Usage }
    ensures read_cause { result.1 ≡ Status.Read → Rose (S.faults source.old) (S.faults source.new) }
    ensures write_cause { result.1 ≡ Status.Write → Rose (K.faults sink.old) (K.faults sink.new) }
{
    match open(alloc, disks, start, sacks) {
        Ok(solo) => {
            let mut front = solo;
            let status = answer_connection(&mut front, alloc, source, sink);
            (front.into_disks(), status)
        }
        Err((disks, fault)) => (disks, status_of_store(fault)),
    }
}
